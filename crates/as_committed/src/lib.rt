// The preview beside the transaction: definitions in specs/, theorems in proofs/.
#![tactic(auto)]
