// Reading and decoding go the same way: what stands between the quotes of a string, or between vertical lines, is one list of elements, the
// reader passes exactly these, and the decoded text is what they stand for, one after the other. specs/ says what an element is; proofs/ shows it of
// `read_quoted` and `unescape` of crate `items`. It has no code.
#![tactic(auto)]
