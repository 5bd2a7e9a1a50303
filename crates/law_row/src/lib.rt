#![tactic(auto)]

// No code: what is true of rows of cells, in specs/.
