#![tactic(auto)]

// Packs of radio images: the definitions are in specs/, the laws in proofs/. It has no code.
