// What the calls about lines must answer for a few inputs, those for C among them, computed from the definitions that their contracts
// cite. It has no code. Each edit of must-fail/ puts a wrong answer in the place of the right one, and the computation refuses it.
#![tactic(auto)]
