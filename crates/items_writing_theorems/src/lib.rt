// Writing a plan back (02 (viii)): what a text that was written reads as. proofs/Round has the round trip (`round_trip`, and of a source
// `round_trip_bytes`, `round_trip_depths`), and that writing again what is read from a result gives the result (`settled`); proofs/Edited
// the same for plans whose names and strings were edited (`edited_round_trip`, `edited_settled`); proofs/Calls that the records of such a
// text are never refused 48 or 47 (`written_back`); proofs/Trips all of it of the calls with their memories (`read_written`,
// `Written-Read`, `written_again`). It has no code.
#![tactic(auto)]
