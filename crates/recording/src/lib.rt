#![tactic(auto)]
// The records of a reduction, and that both ways leave the same. It has no code: the definitions are in specs/, the laws in proofs/.
