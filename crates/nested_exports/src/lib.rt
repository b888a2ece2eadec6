// The call of the crate `nested` for programs in C and Rust: its answer as a number and one value.
#![tactic(auto)]

ghost use Rattle.std.specs.Prelude.{◌≡◌, [], ◌∷◌};
ghost use Rattle.chars.specs.Encode.{lay};
ghost use Rattle.nested.specs.Lent.{told_of, nest_number, nest_value, nested_of};

use exports_values::{NumberAndValue, put_value};
use nested::NestError;
use refusal::SERVED;

// An answer of a number and a value.
fn tell(number: u32, value: u64) -> NumberAndValue
    ensures { (result.number ≡ number) × (result.value ≡ value) }
{
    NumberAndValue { number, value }
}

// An answer by its number and its value.
fn answer(a: Result<usize, NestError>) -> NumberAndValue
    ensures { (result.number ≡ nest_number (told_of a)) × (result.value ≡ nest_value (told_of a)) }
{
    match a {
        Ok(nodes) => tell(SERVED, nodes as u64),
        Err(e) => tell(e.kind.number(), e.at as u64),
    }
}

// Builds the nodes of records, three words each: kind, item, how many nodes lie beneath. They are written from the front of `nodes` on.
// `values` gets how many there are, or the record of the refusal; where there is no room for it, it is left as it was.
pub fn mihadrena_nest(records: &[u32], nodes: &mut [u32], values: &mut [u64]) -> u32
    ensures value { result ≡ (nested_of records.now nodes.old).number }
    ensures values_after { values.new ≡ lay ((nested_of records.now nodes.old).value ∷ []) values.old }
    ensures nodes_after { nodes.new ≡ (nested_of records.now nodes.old).memory }
{
    let w = answer(nested::build(records, nodes));
    put_value(values, w.value);
    w.number
}
