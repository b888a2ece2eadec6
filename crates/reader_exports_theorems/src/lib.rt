// What all calls of `mihadrena_reader_next` together give: the records of the whole-text call. It has no code.
#![tactic(auto)]
