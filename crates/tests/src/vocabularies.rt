// Which vocabularies the law of a kind of state lets pass.
ghost use Rattle.tests.specs.Vocabularies.{Limits};

// The law on both sides of each of its limits.
pub fn vocabulary_limits()
    ensures { Limits }
{}
