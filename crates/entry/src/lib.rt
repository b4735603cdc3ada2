// Entries: directives, options, includes, tags and blank lines (rules 1, 4, 14 and 15).
#![tactic(auto)]

pub mod directive;
pub mod entry;
