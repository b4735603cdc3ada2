// The calls on spans, rows and string content, and single expressions.
#![tactic(auto)]

pub mod content;
pub mod single;
pub mod span;
pub mod tables;
