// What directives hold after their keyword (rule 10).
#![tactic(auto)]

pub mod content;
pub mod open;
