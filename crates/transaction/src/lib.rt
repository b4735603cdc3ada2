// Transactions (rule 11).
#![tactic(auto)]

pub mod transaction;
