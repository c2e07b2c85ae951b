// No functions: the demands on the load, stated of the definitions in rules and proved.
#![tactic(auto)]
