// Identifiers, the other way: what stands in the extent of every identifier and what its text is, an <identifier> of R7RS or a departure
// (specs/Names). proofs/ shows it of every item. It has no code.
#![tactic(auto)]
