// What the calls of the crates `names` and `names_exports` promise, put to the test: two permitted answers coincide, no program that
// refuses everything or enters nothing meets the promises, and rows that compute what the definitions say of one input. It has no code.
#![tactic(auto)]
