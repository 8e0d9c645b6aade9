// Runs of calls on a stream: the definitions stand in specs/, demand 3 and what follows from it in proofs/.
#![tactic(auto)]
