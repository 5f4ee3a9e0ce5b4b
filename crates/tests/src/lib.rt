// Examples and limits of refusals, states and tapes, run as tests; the limits of a vocabulary; and
// callers whose proofs show that the tapes' promises tell what the lent memory holds.
#![tactic(auto)]

#[cfg(test)]
mod causes;
#[cfg(test)]
mod cell_tapes;
#[cfg(test)]
mod heap_records;
pub mod lenders;
#[cfg(test)]
mod seen;
#[cfg(test)]
mod valve_records;
#[cfg(test)]
mod valve_tapes;
pub mod vocabularies;
#[cfg(test)]
mod windows;
