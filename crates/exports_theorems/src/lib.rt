// What the calls on lent states and over slices mean, on the definition of items alone. Crate `pieces` says it of the calls by value, and each of
// these calls is one of them. It has no code.
#![tactic(auto)]
