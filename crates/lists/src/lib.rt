// Laws on lists that the proofs of several crates share: they stand in specs/.
#![tactic(auto)]
