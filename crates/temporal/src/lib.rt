// What a rule means. The definitions stand in specs/, and each theorem about them is the contract of
// a small function in `laws`; the code beside them says what an operator acts as.
#![tactic(auto)]

pub mod laws;
pub mod operators;
pub mod visits;
