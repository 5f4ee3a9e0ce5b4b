// The judged examples: what rules say of short heap tapes, as one joint fact about the definitions.
#![tactic(auto)]

ghost use Rattle.judged.specs.Judged.{Judged};

// Nine rules on tapes, each with its verdict, overdue count and shared nodes; and three standings.
pub fn examples_are_judged()
    ensures { Judged }
{}
