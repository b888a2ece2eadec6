// The other way, for kinds that `items_r7rs` leaves out: what stands in the extent of a dot, of a word with a kind of its own, of a keyword and of a
// mark that quotes syntax (specs/Words), which texts are comments (specs/Comments), and what follows a number, a boolean, a character and a name
// (specs/Follows). proofs/ shows it of every item. It has no code.
#![tactic(auto)]
