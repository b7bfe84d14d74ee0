// The label rule, without code: what a cabinet is, which of its nodes are safe, how the rounds find them, how many exchanges that takes, that these nodes
// are the largest set of their kind, and what one rule's labels say of the other's. The crates passes and labels have the code that labels.
#![tactic(auto)]
