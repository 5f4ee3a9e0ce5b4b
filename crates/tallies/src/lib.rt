// Tallies: what the accepting runs of a rule over a tape are worth, by verdict, by overdue visits and
// by shared nodes.
#![tactic(auto)]

pub mod laws;
pub mod measure;
pub mod overdue;
pub mod shared;
pub mod tally;
pub mod verdict;
