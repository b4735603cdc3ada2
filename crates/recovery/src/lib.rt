// Recovering reading.
#![tactic(auto)]

pub mod block;
pub mod recover;
