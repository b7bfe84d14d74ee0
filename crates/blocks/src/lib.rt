// Algorithm ROUTE_C, figure 4 of Chiu and Wu 1994, without code: what a message does at a node, its walk, and the laws of every walk; theorem 7 on good labels.
// The crates hop_networks and walk_networks have the code.
#![tactic(auto)]
