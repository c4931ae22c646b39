#![tactic(auto)]
// The last run that differs, for two rows: the definitions are in specs/, the theorems in proofs/.

// How the chosen run of two rows begins: with an event, or at its end; unsettled where none is known.
#[derive(Clone, Copy)]
pub enum First {
    Unsettled,
    End,
    Event(u16),
}
