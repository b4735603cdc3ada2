// Metadata, and the postings of a transaction (rules 12, 13 and 16).
#![tactic(auto)]

pub mod body;
pub mod cost;
pub mod metadata;
pub mod posting;
