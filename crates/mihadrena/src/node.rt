// Questions about nodes.
ghost use Rattle.std.specs.Prelude.{◌≡◌};
ghost use Rattle.items_exports.specs.Nodes.{child_of, sibling_of};

// The first node that lies beneath a node, or how many nodes there are, where none does.
#[unsafe(no_mangle)]
pub extern "C" fn mihadrena_first_child(nodes: &[u32], at: usize) -> usize
    ensures { result ≡ child_of nodes.now at }
{
    items_exports::mihadrena_first_child(nodes, at)
}

// The next node beside a node, both directly beneath the node `within`; beneath none, where `within` is how many nodes there are. How many
// nodes there are, where none follows.
#[unsafe(no_mangle)]
pub extern "C" fn mihadrena_next_sibling(nodes: &[u32], within: usize, at: usize) -> usize
    ensures { result ≡ sibling_of nodes.now within at }
{
    items_exports::mihadrena_next_sibling(nodes, within, at)
}
