// What each call must answer for a few inputs, all of it, computed from the definitions that the calls' contracts cite, and theorems that
// say of whole kinds of programs that they meet no such promise: one that refuses everything, one that writes nothing, one whose answer
// is always the same. It has no code. Each edit of must-fail/ puts a wrong answer in the place of the right one, and the computation
// refuses it. A contract leaves one answer for each input (the theorems `..-one-answer`), so a row rules out every other.
// docs/contracts/ says which call each of them is for, CONTRIBUTING.md how one is added.
#![tactic(auto)]
