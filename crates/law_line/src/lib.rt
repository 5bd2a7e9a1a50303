#![tactic(auto)]

// No code: what the rules of document 01 come to on a line, in specs/.
