// Laws of the rules, with no function.
#![tactic(auto)]
