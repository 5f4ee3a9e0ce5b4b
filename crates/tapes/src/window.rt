ghost use Rattle.std.specs.Prelude.{◌≡◌, length};
ghost use Rattle.std.specs.List.{between};
ghost use Rattle.tapes.specs.Windows.{Checked, Inside};

use crate::tape::Tape;
use refusals::{Cause, Refusal};
use std::ops::Range;

// A part of a tape, which is again a tape. That the part lies within the tape is not said by the type:
// with that a window of any tape could not stand in a closure's bound yet, as in `F: FnOnce(Window<T>)`.
#[derive(Drop)]
pub struct Window<T: Tape> {
    below: T,
    part: Range<usize>,
}

impl<T: Tape> Window<T> {
    // Whether the tape has such a part; refused with its start.
    pub fn check(below: &T, part: Range<usize>) -> Result<(), Refusal>
        ensures { Checked (length (T.Tape.states below.now)) part.start part.end result }
    {
        if part.start <= part.end && part.end <= below.len() {
            Ok(())
        } else {
            Err(Cause::BadWindow.at(part.start))
        }
    }

    // The window over a part that `check` has found.
    pub fn new(below: T, part: Range<usize>) -> Window<T>
        requires { Inside (length (T.Tape.states below)) part.start part.end }
        ensures { between result.part.start result.part.end (T.Tape.states result.below) ≡ between part.start part.end (T.Tape.states below) }
    {
        Window { below, part }
    }
}

impl<T: Tape> Tape for Window<T> {
    type Item = T::Item;

    ghost states = { λ w. between w.part.start w.part.end (T.Tape.states w.below) };

    // The end is within the tape below, but the type does not say so: hence `min`.
    fn len(&self) -> usize {
        let end = self.part.end.min(self.below.len());
        end.saturating_sub(self.part.start)
    }

    // A sum past the largest number is taken as that number, which is before no end.
    fn at(&self, place: usize) -> Option<T::Item> {
        let at = self.part.start.saturating_add(place);
        self.below.at(at).filter(|_| at < self.part.end)
    }
}
