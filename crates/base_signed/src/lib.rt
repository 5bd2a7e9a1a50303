#![tactic(auto)]

// No code: this crate holds a kit for proofs over i64 values, which the crates above cite.
