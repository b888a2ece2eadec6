// The places of items are places that the question about lines answers. It has no code: proofs/Records shows it.
#![tactic(auto)]
