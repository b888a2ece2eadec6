// What the calls on lent states, over slices and from C promise, tried on wrong answers. It has no code. specs/ computes whole answers from the
// definitions that the contracts cite; each edit of must-fail/ puts a wrong answer in the place of a right one, and the computation refuses
// it. proofs/ shows that two answers that a contract permits coincide, so that a row rules out every other answer, and that wrong programs meet
// no promise.
#![tactic(auto)]
