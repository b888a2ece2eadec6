// That the definition of the items of a text is R7RS's. specs/ has the lexical productions of section 7.1.1 as inductive definitions,
// written from the standard; proofs/ shows that crate items' definition reads each of them as the standard says: as one item of its
// kind, with its extent, and with the character, the text or the value that the standard gives it. It has no code.
#![tactic(auto)]
