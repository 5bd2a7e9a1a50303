#![tactic(auto)]

// No code: what the insertion method keeps true of a row, in specs/. The code is in the crate `plan_insert`.
