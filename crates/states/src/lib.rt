// Kinds of state: what any kind must show, the heap record and the valve record.
#![tactic(auto)]

pub mod answer;
pub mod heap;
pub mod state;
pub mod valve;
