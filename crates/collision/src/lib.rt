// The collision theorem, over the definitions of the crate `tree`: what it speaks of stands in specs/, the theorem in proofs/.
#![tactic(auto)]
