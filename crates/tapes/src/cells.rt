ghost use Rattle.std.specs.Prelude.{◌≡◌};
ghost use Rattle.tapes.specs.Lent.{cells_states};

use crate::tape::Tape;
use states::state::State;

// A tape of any kind of state over lent cells, to read.
#[derive(Clone, Copy)]
pub struct Cells<'a, S> {
    cells: &'a [S],
}

impl<'a, S: State> Cells<'a, S> {
    // The tape of all the cells.
    pub fn new(cells: &'a [S]) -> Cells<'a, S>
        ensures { cells_states result ≡ cells.now }
    {
        Cells { cells }
    }
}

impl<'a, S: State> Tape for Cells<'a, S> {
    type Item = S;

    ghost states = { cells_states };

    fn len(&self) -> usize {
        self.cells.len()
    }

    fn at(&self, place: usize) -> Option<S> {
        self.cells.get(place).copied()
    }
}
