// The tally's figures, without code: which tables are counted, what is counted of each, and the sums. The crate counters has the code.
#![tactic(auto)]
