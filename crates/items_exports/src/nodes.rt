// Questions about nodes.
ghost use Rattle.std.specs.Prelude.{◌≡◌, ◌+◌, ◌*◌, ◌<◌, ◌≤◌};
ghost use Rattle.items_exports.specs.Nodes.{nodes_of, past_of, bound_of, child_of, sibling_of};

// How many words a node has: its kind, its item, how many nodes lie beneath it.
const NODE_WORDS: usize = 3;

// The last of them.
const BENEATH: usize = 2;

// The node past a node and all that lies beneath it, or past the last one.
fn past(nodes: &[u32], at: usize) -> usize
    requires { at < nodes_of nodes.now }
    ensures { result ≡ past_of nodes.now at }
{
    let count = nodes.len() / NODE_WORDS;
    let beneath = nodes[at * NODE_WORDS + BENEATH] as usize;
    if count - at <= beneath {
        return count;
    }
    at + 1 + beneath
}

// The first node that lies beneath a node, or how many nodes there are, where none does.
pub fn mihadrena_first_child(nodes: &[u32], at: usize) -> usize
    ensures { result ≡ child_of nodes.now at }
{
    let count = nodes.len() / NODE_WORDS;
    if count <= at {
        return count;
    }
    if past(nodes, at) == at + 1 {
        return count;
    }
    at + 1
}

// The node past all that lies beneath a node, or where the nodes end, if there is no such node.
fn bound(nodes: &[u32], within: usize) -> usize
    ensures { result ≡ bound_of nodes.now within }
{
    let count = nodes.len() / NODE_WORDS;
    if count <= within {
        return count;
    }
    past(nodes, within)
}

// The next node beside a node, both directly beneath the node `within`; beneath none, where `within` is how many nodes there are. How many
// nodes there are, where none follows.
pub fn mihadrena_next_sibling(nodes: &[u32], within: usize, at: usize) -> usize
    ensures { result ≡ sibling_of nodes.now within at }
{
    let count = nodes.len() / NODE_WORDS;
    if count <= at {
        return count;
    }
    let next = past(nodes, at);
    if next < bound(nodes, within) {
        return next;
    }
    count
}
