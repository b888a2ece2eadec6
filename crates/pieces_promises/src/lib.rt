// What the piece calls promise, tried on wrong answers: whatever refuses everything, nods, or gives another item than the text's meets no
// promise of theirs. It has no code. specs/ computes whole answers from the definitions that the contracts cite; each edit of must-fail/ puts
// a wrong answer in the place of a right one, and the computation refuses it. proofs/ rules out wrong programs outright.
#![tactic(auto)]
