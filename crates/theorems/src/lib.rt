// Demands 2 and 3, without code: of the label bytes that labelling writes, the hop that is decided with them, and the walk that they lead; how long labelling
// may take; what changes for a site that moves from the older rule to ours; and that nothing changed for boards without draining nodes.
#![tactic(auto)]
