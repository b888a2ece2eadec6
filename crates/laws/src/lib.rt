// General definitions (specs/) and laws (proofs/) that several crates cite: tests, quoted texts, runs, texts compared, lists cut
// and joined, lent memory. It has no code.
#![tactic(auto)]
