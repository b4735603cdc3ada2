// Rereading only what was edited (M-109).
#![tactic(auto)]

mod moves;
mod pick;
pub mod reread;
mod span;
