// The tokens of document 01, read at a place of a text (rules 2, 3, 5, 6, 7, 14 and the words).
#![tactic(auto)]

pub mod account;
pub mod bytes;
pub mod currency;
pub mod date;
pub mod line;
pub mod permitted;
pub mod run;
pub mod stop;
pub mod string;
pub mod tag;
pub mod window;
pub mod word;
