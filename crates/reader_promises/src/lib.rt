// The same as crate `lexer_promises`, for the reader that moves: what opening and each call must answer for a few inputs, all of it, the reader after
// the call included, computed; and theorems on the one answer that the contracts leave. It has no code. Each edit of must-fail/ puts
// a wrong answer in the place of the right one, and the computation refuses it.
#![tactic(auto)]
