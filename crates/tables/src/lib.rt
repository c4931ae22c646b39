#![tactic(auto)]

// Tables and their reduction: the definitions are in specs/, the theorems in proofs/.
