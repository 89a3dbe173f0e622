// Laws of lists and of answers that several crates cite. It holds no code.
#![tactic(auto)]
