// Where error 11 points in report mode, on single items: rows of specs/Rows, and in must-fail/ places that they rule out. proofs/One shows that an
// extent's bytes allow one place. It has no code.
#![tactic(auto)]
