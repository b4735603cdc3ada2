// The postings of a ledger that plain reading accepts, one by one, without a row table.
#![tactic(auto)]

pub mod step;
