// The values that a call for C and Rust tells beside its number: they go to the front of the memory that is lent for them, or, where that has
// too little room, nowhere.
#![tactic(auto)]

ghost use Rattle.std.specs.Prelude.{◌≡◌, [], ◌∷◌};
ghost use Rattle.chars.specs.Encode.{lay};

// An answer: its number and its value.
#[derive(Clone, Copy)]
pub struct NumberAndValue {
    pub number: u32,
    pub value: u64,
}

// How many values `put_value` writes, and how many `put_values` does.
const ONE_VALUE: usize = 1;

pub const VALUES: usize = 2;

// One value at the front, if there is room for it.
pub fn put_value(values: &mut [u64], value: u64)
    ensures { values.new ≡ lay (value ∷ []) values.old }
{
    if values.len() < ONE_VALUE {
        return;
    }
    values[0] = value;
}

// Two values at the front, if there is room for both.
pub fn put_values(values: &mut [u64], first: u64, second: u64)
    ensures { values.new ≡ lay (first ∷ second ∷ []) values.old }
{
    if values.len() < VALUES {
        return;
    }
    values[0] = first;
    values[1] = second;
}
