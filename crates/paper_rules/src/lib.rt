#![tactic(auto)]

// No code: the rules of document 01 as definitions, in specs/.
