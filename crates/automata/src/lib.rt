#![tactic(auto)]

// The mathematics of ready tables. It has no code: the definitions are in specs/, the theorems in proofs/.
