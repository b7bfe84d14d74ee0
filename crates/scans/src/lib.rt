// The five scans of Algorithm ROUTE and the hop before them, without code: what they pick at a node, and that on good labels every pick makes progress. The
// crate hop has the code that scans.
#![tactic(auto)]
