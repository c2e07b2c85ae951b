// No functions: cases of the load, worked out by hand and proved of the rules.
#![tactic(auto)]
