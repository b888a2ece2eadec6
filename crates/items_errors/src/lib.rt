// In report mode error 11 points at the first of its digits that fails: one character of the text that is no hexadecimal digit, the digit at
// which the value passes 32 bits, or the empty place where digits should stand. specs/First says it of the records that the whole-text call
// writes, specs/Failing of a text's bytes. Error 13 stands exactly where 10 would and a delimiter follows the first character: specs/Delimited.
// proofs/ shows them of every item. It has no code.
#![tactic(auto)]
