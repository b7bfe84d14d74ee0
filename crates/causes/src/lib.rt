// Why a node is unsafe, without code: the round that marked it, the neighbours that it met the rule by, and that whoever follows these comes down to nodes
// that do not work. The crate why has the code that answers.
#![tactic(auto)]

// The neighbours that made a node unsafe, by their dimensions, which rise: two that do not work; or, of those that do not work or were marked in an earlier
// round, two (rule 2) or three (rule 3).
#[derive(Drop)]
pub enum Cause {
    Faulty(usize, usize),
    Two(usize, usize),
    Three(usize, usize, usize),
}
