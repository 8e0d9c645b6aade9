// A suspended stream as text: the definitions stand in specs/, the theorems in proofs/.
#![tactic(auto)]
