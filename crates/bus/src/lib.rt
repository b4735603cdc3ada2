// Rows over the building bus: packets of tagged fields, written from a table and read by a display.
#![tactic(auto)]

pub mod field;
pub mod packet;
pub mod reader;
pub mod writer;
