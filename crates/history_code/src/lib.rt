// Demand 3 of the code, for every list of the ten calls: the statement in specs/, its proof in proofs/.
#![tactic(auto)]
