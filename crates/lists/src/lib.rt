// Laws of lists that several crates cite; no code.
#![tactic(auto)]
