// What `lexer_fields::read_fields` and `mihadrena_read_fields` must answer for a few inputs, computed from the definitions that their
// contracts cite, and what no program that meets them can do. It has no code. Each edit of must-fail/ puts a wrong answer in the place of
// the right one, and the computation refuses it.
#![tactic(auto)]
