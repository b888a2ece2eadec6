// What `items_writing::write` and `mihadrena_write` promise, tried on wrong answers. It has no code. specs/ computes whole answers from the
// definitions that their contracts cite; each edit of must-fail/ puts a wrong answer in the place of a right one, and the computation
// refuses it. Theorems there rule out wrong programs outright.
#![tactic(auto)]
