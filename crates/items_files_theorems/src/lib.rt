// A plan that was read can be stored: the records that the whole-text call, the piece calls or the reader gave are never refused with 32.
// specs/ says which records these are, proofs/ shows it. It has no code.
#![tactic(auto)]
