// What is promised of the listing's lines, without code: what holds of whatever the contracts of `printed` allow, and what all that is printed is.
#![tactic(auto)]
