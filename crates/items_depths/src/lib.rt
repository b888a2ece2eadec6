// The depth of an item: how many brackets are open before it (02 (vi)). specs/ says it on the kinds of the records before a record, as they
// lie in memory or as piece calls give them, and names no reader; proofs/ shows it of what the whole-text call writes and of what the piece
// calls give. It has no code.
#![tactic(auto)]
