// A ledger written afresh (M-103).
#![tactic(auto)]

mod detail;
mod head;
mod number;
mod put;
mod rows;
pub mod write;
