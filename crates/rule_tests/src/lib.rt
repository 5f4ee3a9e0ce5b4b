// What operators act as, and the tallies' calls on edge values, run as tests.
#![tactic(auto)]

#[cfg(test)]
mod operators;
#[cfg(test)]
mod worths;
