// No functions: cases of packed relocations, worked out by hand and proved of the rules.
#![tactic(auto)]
