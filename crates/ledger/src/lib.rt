// Plain and strict reading.
#![tactic(auto)]

pub mod read;
pub mod scan;
pub mod strict;
