// Expressions and amounts (rules 8, 9 and 10).
#![tactic(auto)]

pub mod amounts;
pub mod detail;
pub mod expression;
pub mod kind;
pub mod literal;
