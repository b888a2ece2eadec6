#![tactic(auto)]

// What the promise of the number call with a choice of reader rules out: theorems over any program that meets it, and rows computed from
// the definition, each with an edit that writes a wrong answer. It has no code.
