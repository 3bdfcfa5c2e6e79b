// Demands 2 and 3, joined of the crates below: definitions in specs/, theorems in proofs/.
#![tactic(auto)]
