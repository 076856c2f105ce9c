// What a table of key ranges is and means: definitions in specs/, theorems in proofs/. The code over lent words is the
// crate roster_map.
#![tactic(auto)]
