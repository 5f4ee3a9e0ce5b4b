ghost use Rattle.std.specs.Prelude.{◌≡◌};
ghost use Rattle.tallies.specs.Measures.{MeasureLaws, Measures, with_none};
ghost use Rattle.tallies.specs.OptionLaws.{with_none_laws};

use crate::tally::Tally;
use temporal::visits::Visit;

// What a run comes to, by a tally that has such measures for its worths, and none apart from them. It
// has the calls of a tally but for `none`, and the laws that do not speak of it.
pub trait Measure: Copy {
    ghost measures: { Measures Self };

    fn unit() -> Self
        ensures { result ≡ measures.unit };

    fn join(self, other: Self) -> Self
        ensures { result ≡ measures.joined self other };

    fn combine(self, other: Self) -> Self
        ensures { result ≡ measures.combined self other };

    fn weight(visit: Visit) -> Self
        ensures { result ≡ measures.weighs visit };

    ghost laws: { MeasureLaws measures };
}

// Any measure, with none added, is a tally.
impl<X: Measure> Tally for Option<X> {
    ghost worths = { with_none X.Measure.measures };

    ghost laws = { with_none_laws X.Measure.laws };

    fn none() -> Option<X> {
        Self::None
    }

    fn unit() -> Option<X> {
        Some(X::unit())
    }

    fn join(self, other: Option<X>) -> Option<X> {
        match (self, other) {
            (Some(x), Some(y)) => Some(x.join(y)),
            (alone, None) | (None, alone) => alone,
        }
    }

    fn combine(self, other: Option<X>) -> Option<X> {
        Some(self?.combine(other?))
    }

    fn weight(visit: Visit) -> Option<X> {
        Some(X::weight(visit))
    }
}
