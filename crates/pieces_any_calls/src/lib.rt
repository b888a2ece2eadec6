// Whatever calls are made on a piece state, each with whatever text memory, refused calls among them: together they give the items of the text
// that they took, each once and in order, and its last word. specs/ says what any calls add up to, and how a caller hands a text over that lends
// another memory at every call; proofs/ shows it. It has no code.
#![tactic(auto)]
