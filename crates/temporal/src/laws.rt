// The theorems about what rules mean. Each function does nothing: its contract is the theorem.
ghost use Rattle.temporal.specs.Statements.{EndIsVerdict, Meaning, NoneOnEmpty, NumberedInOrder, OwnOperatorsDecide, RunsAreInOrder, RunsAreListed, SetsGrow, SettledNeverTurns, VisitsAreOfNodes, WaitsAreInOrder};

// The nodes, operands first and left before right, are numbered from 0 without a gap.
pub fn nodes_are_numbered()
    ensures { NumberedInOrder }
{}

// The list of runs has exactly the accepting runs of the tape, each once, and in order.
pub fn runs_are_listed()
    ensures exactly { RunsAreListed }
    ensures ordered { RunsAreInOrder }
    ensures waiting { WaitsAreInOrder }
{}

// Every visit of an accepting run is of one of the rule's nodes.
pub fn visits_are_of_nodes()
    ensures { VisitsAreOfNodes }
{}

// A tape has an accepting run exactly when it has a first state and the formula holds there.
pub fn runs_tell_what_holds()
    ensures meaning { Meaning }
    ensures empty { NoneOnEmpty }
{}

// The set of accepting operators suffices exactly when the noted tape has an accepting run.
pub fn end_is_verdict()
    ensures { EndIsVerdict }
{}

// A larger set suffices where a smaller one does; sets that agree on the rule's own waiting operators
// suffice alike.
pub fn sets_suffice()
    ensures grow { SetsGrow }
    ensures own { OwnOperatorsDecide }
{}

// Kept stays kept and foretells yes, broken stays broken and foretells no, whatever states follow.
pub fn settled_never_turns()
    ensures { SettledNeverTurns }
{}
