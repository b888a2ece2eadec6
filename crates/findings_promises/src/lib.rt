// What `findings_rows::rows`, `findings::find` and the call for C promise, tried on wrong answers. It has no code. specs/ computes whole
// answers from the definitions that the contracts cite; each edit of must-fail/ puts a wrong answer in the place of a right one, and the
// computation refuses it. proofs/ shows that the contracts permit one answer.
#![tactic(auto)]
