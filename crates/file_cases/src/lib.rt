// No functions: cases of a file alone, worked out by hand and proved of the rules.
#![tactic(auto)]
