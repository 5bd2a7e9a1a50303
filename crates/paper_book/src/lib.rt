#![tactic(auto)]

// No code: the definitions of an order book and of its reading stand in specs/.
