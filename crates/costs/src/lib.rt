// What a transaction costs, joined of the crates below: definitions in specs/, theorems in proofs/.
#![tactic(auto)]
