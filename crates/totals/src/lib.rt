// Monthly totals (M-108): the postings of a month, by account and currency.
#![tactic(auto)]

pub mod listing;
pub mod month;
pub mod totals;
