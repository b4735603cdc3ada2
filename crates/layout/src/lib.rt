// What is written of a ledger (M-103), and the theorem about it: definitions and laws, no code.
#![tactic(auto)]
