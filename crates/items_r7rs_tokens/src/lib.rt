// The tokens of R7RS as its own productions have them, with every delimiter and letters in either case (specs/Standard): each is read as it says, or
// meets a departure. proofs/ shows it. It has no code.
#![tactic(auto)]
