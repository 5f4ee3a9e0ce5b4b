// Tapes: lists of states to read, to grow, and to look at through a window.
#![tactic(auto)]

pub mod cells;
pub mod iter;
pub mod log;
pub mod tape;
pub mod valve_log;
pub mod valve_tape;
pub mod window;
