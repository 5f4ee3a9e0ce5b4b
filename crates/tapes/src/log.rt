ghost use Rattle.std.specs.Prelude.{◌≡◌, ◌≤◌, [], length, slice_set};

use crate::cells::Cells;
use crate::tape::{GrowingTape, Tape};
use refusals::{Cause, Refusal};
use states::state::State;

// A growing tape of any kind of state over lent cells: the first `used` of them. The cells are the
// caller's, since the library has no heap.
#[derive(Drop)]
pub struct Log<'a, S> {
    cells: &'a mut [S],
    used: usize,
    ghost within: { used ≤ length cells.now },
}

impl<'a, S: State> Log<'a, S> {
    ghost use Rattle.tapes.specs.Lent.{cells_states, log_capacity, log_states};

    // The empty tape, with room for as many states as there are cells, of which it writes none.
    pub fn new(cells: &'a mut [S]) -> Log<'a, S>
        ensures empty { log_states result ≡ [] }
        ensures room { log_capacity result ≡ length cells.old }
        ensures untouched { result.cells.now ≡ cells.old }
        ensures lender { result.cells.ghost_name ≡ cells.entry.ghost_name }
    {
        Log { cells, used: 0 }
    }

    // The tape to read over the cells in use: they are the states that were appended.
    pub fn tape(&self) -> Cells<'_, S>
        ensures { cells_states result ≡ log_states self.now }
    {
        Cells::new(&self.cells[..self.used])
    }
}

impl<'a, S: State> Tape for Log<'a, S> {
    ghost use Rattle.tapes.specs.Lent.{log_states};

    type Item = S;

    ghost states = { log_states };

    fn len(&self) -> usize {
        self.tape().len()
    }

    fn at(&self, place: usize) -> Option<S> {
        self.tape().at(place)
    }
}

impl<'a, S: State> GrowingTape for Log<'a, S> {
    ghost use Rattle.tapes.specs.Growing.{Stores};
    ghost use Rattle.tapes.specs.Lent.{log_capacity, log_states};

    ghost capacity = { log_capacity };

    // It writes the cell after those in use, or none, and still borrows the same cells.
    ghost writes = { λ old state new result.
        Stores old.cells.now (slice_set old.cells.now (length (log_states old)) state) new.cells.now result
        × (new.cells.ghost_name ≡ old.cells.ghost_name) };

    fn append(&mut self, state: S) -> Result<(), Refusal> {
        let at = self.used;
        if at == self.cells.len() {
            return Err(Cause::TapeFull.at(at));
        }
        self.cells[at] = state;
        self.used = at + 1;
        Ok(())
    }
}
