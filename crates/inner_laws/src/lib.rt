// Laws about the definitions of the crates below that no function's proof needs any more.
#![tactic(auto)]
