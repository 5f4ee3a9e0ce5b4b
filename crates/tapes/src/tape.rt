ghost use Rattle.std.specs.Prelude.{◌≡◌, ℕ, List, length, Result, ⊤};
ghost use Rattle.tapes.specs.Reading.{Found};
ghost use Rattle.tapes.specs.Growing.{Appends};
ghost use Rattle.refusals.specs.declared.Refusal.{Refusal};

use crate::iter::Iter;
use refusals::Refusal;
use states::state::State;

// A tape means a list of states of one kind; asking alters nothing.
pub trait Tape {
    type Item: State;

    ghost states: { Self → List Self.Item };

    fn len(&self) -> usize
        ensures { result ≡ length (states self.now) };

    // The state at a place, or nothing from the tape's end on.
    fn at(&self, place: usize) -> Option<Self::Item>
        ensures { Found (states self.now) place result };

    // The states in order.
    final fn iter(&self) -> Iter<'_, Self>
        ensures { result ≡ states self.now }
    {
        Iter {
            tape: self,
            places: 0..self.len(),
        }
    }
}

// A tape that grows at its end, up to a fixed capacity.
pub trait GrowingTape: Tape {
    ghost capacity: { Self → ℕ };

    // What an append does to the tape's memory, where the kind of tape says it.
    ghost writes: { Self → Self.Item → Self → Result (Unit {0}) Refusal → Type 0 } = { λ _ _ _ _. ⊤ };

    // The state goes to the end of the list; a full tape refuses it with its length, and stays as it is.
    fn append(&mut self, state: Self::Item) -> Result<(), Refusal>
        ensures kept { capacity self.new ≡ capacity self.old }
        ensures grown { Appends (capacity self.old) state (Self.Tape.states self.old) (Self.Tape.states self.new) result }
        ensures written { writes self.old state self.new result };
}
