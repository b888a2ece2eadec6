// Line and column that are rendered of a place are those that the question about lines answers: proofs/Same shows it of every place between two
// characters (`same_spot`), and so of every place of every finding that `find` writes (`found_spot`). It has no code.
#![tactic(auto)]
