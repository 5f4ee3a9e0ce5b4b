// What tests look at, and the records that they note.
use refusals::{Cause, Refusal};
use states::heap::HeapRecord;
use states::state::State;
use std::array;
use std::process::Abort;
use tapes::tape::Tape;

pub(crate) fn idle() -> Result<HeapRecord, Refusal> {
    HeapRecord::new(1_000, 400, 0, HeapRecord::IDLE)
}

pub(crate) fn refusing() -> Result<HeapRecord, Refusal> {
    HeapRecord::new(1_000, 400, 500, HeapRecord::REFUSED)
}

pub(crate) fn dispensed() -> Result<HeapRecord, Refusal> {
    HeapRecord::new(1_000, 400, 300, HeapRecord::DISPENSED)
}

// A tape's length, and the states at its first three places.
pub(crate) fn seen<T: Tape>(tape: &T) -> (usize, [Option<T::Item>; 3]) {
    (tape.len(), array::from_fn(|place| tape.at(place)))
}

// The refusal put together here, so that no test expects what the code under test made.
pub(crate) fn refused<T>(cause: Cause, place: usize) -> Result<T, Refusal> {
    Err(Refusal { cause, place })
}

// That the kind's constant and its method both have those words.
pub(crate) fn lists_words<S: State>(rt: &impl Abort, words: &str) {
    assert_eq!(rt; S::VOCABULARY, words);
    assert_eq!(rt; S::word_list(), words);
}
