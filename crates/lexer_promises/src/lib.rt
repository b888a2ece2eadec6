// The same as crate `items_promises`, for the calls whose definitions stand in `lexer` and `meaning`: what each must answer for a few inputs, all of
// it, computed, and theorems on answers that the contracts leave one of, or that no program may always give. It has no code. Each edit
// of must-fail/ puts a wrong answer in the place of the right one, and the computation refuses it.
#![tactic(auto)]
