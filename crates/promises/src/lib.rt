// The promises on top, without code: what holds of whatever the contracts allow, in Rattle and in C, and the worked numbers.
#![tactic(auto)]
