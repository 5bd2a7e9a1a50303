#![tactic(auto)]

// No code: this crate holds definitions and laws over natural numbers, which the crates above cite.
