// The replica as definitions (specs/) and what follows from them by computing (proofs/).
#![tactic(auto)]
