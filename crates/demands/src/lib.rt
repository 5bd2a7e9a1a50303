#![tactic(auto)]

// No code: what the promises of the operations come to together, in the words of the three demands, in specs/.
