// The stream's area and what each call on it answers: the definitions stand in specs/, the theorems in proofs/.
#![tactic(auto)]
