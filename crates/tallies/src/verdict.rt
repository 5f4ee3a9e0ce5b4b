ghost use Rattle.std.specs.Prelude.{◌≡◌, Some};
ghost use Rattle.tallies.specs.Verdicts.{verdict_text, verdicts};
ghost use Rattle.tallies.specs.VerdictLaws.{verdict_laws};

use crate::tally::Tally;
use std::fmt;
use temporal::visits::Visit;

// Whether a tape has an accepting run.
#[derive(Clone, Copy, PartialEq, Eq, Debug)]
pub enum Verdict {
    No,
    Yes,
}

impl Verdict {
    // The verdict as it is printed.
    pub fn as_str(self) -> &'static str
        ensures { result.now ≡ verdict_text self }
    {
        match self {
            Verdict::No => "no",
            Verdict::Yes => "yes",
        }
    }
}

impl fmt::Display for Verdict {
    ghost output = { λ v. Some (verdict_text v) };

    fn fmt<W: fmt::Write>(&self, f: &mut fmt::Formatter<W>) -> fmt::Result {
        f.write_str(self.as_str())
    }
}

// No is none; yes is unit and every weight. Joining is or, combining is and.
impl Tally for Verdict {
    ghost worths = { verdicts };

    ghost laws = { verdict_laws };

    fn none() -> Verdict {
        Self::No
    }

    fn unit() -> Verdict {
        Self::Yes
    }

    fn join(self, other: Verdict) -> Verdict {
        match self {
            Verdict::No => other,
            Verdict::Yes => Verdict::Yes,
        }
    }

    fn combine(self, other: Verdict) -> Verdict {
        match self {
            Verdict::No => Verdict::No,
            Verdict::Yes => other,
        }
    }

    fn weight(_visit: Visit) -> Verdict {
        Self::unit()
    }
}
