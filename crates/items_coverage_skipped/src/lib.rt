// Nothing in a plan goes unseen where comments are skipped either: 02 (xiii), "With comments skipped the same holds once the comments' extents
// are added." specs/ says which comments are added, and how; proofs/ shows it of what the whole-text call writes and of what the piece calls
// give. It has no code.
#![tactic(auto)]
