//! What it is to put bytes at the end of a text, in one word for all contracts.
#![tactic(auto)]
