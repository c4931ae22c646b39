#![tactic(auto)]
// The order of tables: the definitions are in specs/, the theorems in proofs/.

// Which of two tables comes first; equal if no run tells them apart.
#[derive(Clone, Copy)]
pub enum Order {
    First,
    Equal,
    Second,
}
