ghost use Rattle.std.specs.Iterator.{YieldsFirst, YieldsLast, item_count};

use crate::tape::Tape;
use std::marker::Model;
use std::ops::Range;

// The states of a tape in order, from either end, seen as the list of those that are still to come.
#[derive(Drop)]
pub struct Iter<'a, T: Tape> {
    pub(crate) tape: &'a T,
    pub(crate) places: Range<usize>,
}

impl<'a, T: Tape> Model for Iter<'a, T> {
    ghost use Rattle.std.specs.Prelude.{◌≤◌, List, length};
    ghost use Rattle.std.specs.List.{between};

    ghost Value = { List T.Item };

    ghost view = { λ i. between i.places.start i.places.end (T.Tape.states i.tape.now) };

    ghost invariant = { λ i. (i.places.start ≤ i.places.end) × (i.places.end ≤ length (T.Tape.states i.tape.now)) };
}

impl<'a, T: Tape> Iterator for Iter<'a, T> {
    type Item = T::Item;

    ghost next_gives = { YieldsFirst (λ states. states) };

    ghost remaining = { item_count (λ states. states) };

    fn next(&mut self) -> Option<T::Item> {
        self.tape.at(self.places.next()?)
    }
}

impl<'a, T: Tape> DoubleEndedIterator for Iter<'a, T> {
    ghost next_back_gives = { YieldsLast (λ states. states) };

    #[tactic(auto, using(std::proofs::lemmas::List::Edits::between_more))]
    fn next_back(&mut self) -> Option<T::Item> {
        self.tape.at(self.places.next_back()?)
    }
}
