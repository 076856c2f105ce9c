// Theorems over all lists of calls: definitions in specs/, proofs in proofs/.
#![tactic(auto)]
