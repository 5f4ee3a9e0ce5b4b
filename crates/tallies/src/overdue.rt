ghost use Rattle.std.specs.Prelude.{◌≡◌, ◌≤◌};
ghost use Rattle.tallies.specs.Limits.{cap};

use crate::measure::Measure;
use temporal::visits::Visit;

// The smallest number of rejecting visits that a run has, capped; none without a run.
pub type Overdue = Option<Count>;

// A number of visits, at most the cap.
#[derive(Clone, Copy, PartialEq, Eq, PartialOrd, Ord, Debug)]
pub struct Count {
    number: u32,
    ghost small: { number ≤ cap },
}

impl Count {
    // The largest number; more visits are counted as so many.
    pub const CAP: u32 = u32::MAX;

    pub fn new(number: u32) -> Count
        ensures { result.number ≡ number }
    {
        Count { number }
    }

    pub fn number(&self) -> u32
        ensures value { result ≡ self.now.number }
        ensures capped { result ≤ Count.CAP }
    {
        self.number
    }
}

// Joining takes the smaller, combining adds; a rejecting visit weighs 1, any other 0.
impl Measure for Count {
    ghost use Rattle.tallies.specs.Overdue.{counts};
    ghost use Rattle.tallies.specs.OverdueLaws.{count_laws};

    ghost measures = { counts };

    ghost laws = { count_laws };

    fn unit() -> Count {
        Count { number: 0 }
    }

    fn join(self, other: Count) -> Count {
        self.min(other)
    }

    fn combine(self, other: Count) -> Count {
        Count {
            number: self.number.saturating_add(other.number),
        }
    }

    fn weight(visit: Visit) -> Count {
        Count {
            number: u32::from(!visit.accepting),
        }
    }
}
