// Laws of the rules, which several crates cite: no code, and nothing that has to be believed.

#![tactic(auto)]
