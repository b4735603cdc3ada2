// The row table, and the row writer.
#![tactic(auto)]

mod field;
pub mod lines;
pub mod table;
pub mod work;
pub mod writer;
