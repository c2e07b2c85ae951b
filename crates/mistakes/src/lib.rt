// No functions: wrong definitions of the rules, and proofs that a statement of the demands is false of each.
#![tactic(auto)]
