// What `mihadrena_reader_open` and `mihadrena_reader_next` must leave for a few inputs, all of it, computed; and theorems on the one answer that
// the contracts leave. It has no code. Each edit of must-fail/ puts a wrong answer in the place of the right one, and the computation
// refuses it.
#![tactic(auto)]
