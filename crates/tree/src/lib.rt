// The tree of a message: its definitions stand in specs/, their theorems in proofs/.
#![tactic(auto)]
