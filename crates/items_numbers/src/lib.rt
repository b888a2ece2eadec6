// A number's parts (document 01): "what the number call gives for its extent". For every item of kind Number, whole or from pieces, the number call
// on its extent gives parts, never "no number", an error or a refusal. specs/ says it of records as they lie in memory and of what the
// piece calls give; proofs/ shows it. It has no code.
#![tactic(auto)]
