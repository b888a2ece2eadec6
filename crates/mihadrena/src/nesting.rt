// The call that builds nodes.
ghost use Rattle.std.specs.Prelude.{◌≡◌, [], ◌∷◌};
ghost use Rattle.chars.specs.Encode.{lay};
ghost use Rattle.nested.specs.Lent.{nested_of};

// Builds the nodes of records, three words each: kind, item, how many nodes lie beneath. They are written from the front of `nodes` on.
// `values` gets how many there are, or the record of the refusal; where there is no room for it, it is left as it was.
#[unsafe(no_mangle)]
pub extern "C" fn mihadrena_nest(records: &[u32], nodes: &mut [u32], values: &mut [u64]) -> u32
    ensures value { result ≡ (nested_of records.now nodes.old).number }
    ensures values_after { values.new ≡ lay ((nested_of records.now nodes.old).value ∷ []) values.old }
    ensures nodes_after { nodes.new ≡ (nested_of records.now nodes.old).memory }
{
    nested_exports::mihadrena_nest(records, nodes, values)
}
