// Report mode, call by call: E10, `12|a|`, `"\x4G1;` and a depth, as each call must answer them. Rows of specs/, and in must-fail/ what plain mode
// would answer, or a wrong place. It has no code.
#![tactic(auto)]
