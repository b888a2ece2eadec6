#![tactic(auto)]

// That the second number reader (crate numbers_standard) is the number grammar of R7RS 7.1.1, and on which texts it and the bought one (crate
// numbers) differ. specs/R7rs has the grammar as inductive definitions, written from the standard; specs/Conditions the three conditions,
// over the text's characters and their order alone. It has no code.
