ghost use Rattle.std.specs.Prelude.{◌≡◌};
ghost use Rattle.temporal.specs.Tallies.{Laws, Worths};

use temporal::visits::Visit;

// A tally, by its worths: the implementing type. A run's worth combines the weights of its visits in
// order; the joint worth of several runs joins their worths in order, and is none without runs.
pub trait Tally: Copy {
    // None, unit, joining, combining and weights, as they are meant.
    ghost worths: { Worths Self };

    fn none() -> Self
        ensures { result ≡ worths.none };

    fn unit() -> Self
        ensures { result ≡ worths.unit };

    fn join(self, other: Self) -> Self
        ensures { result ≡ worths.joined self other };

    fn combine(self, other: Self) -> Self
        ensures { result ≡ worths.combined self other };

    fn weight(visit: Visit) -> Self
        ensures { result ≡ worths.weighs visit };

    ghost laws: { Laws worths };
}
