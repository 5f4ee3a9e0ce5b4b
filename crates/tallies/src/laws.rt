// The theorems about tallies. Each function does nothing: its contract is the theorem.
ghost use Rattle.temporal.specs.Statements.{JointWorth};
ghost use Rattle.tallies.specs.Statements.{AllTell, SetsOfNodes};

use crate::tally::Tally;

// By every tally, the joint worth of the accepting runs of a tape is what a backward reading by the
// tally's own operations comes to.
pub fn joint_worth_is_read<W: Tally>()
    ensures { JointWorth W.Tally.worths }
{}

// The verdict is yes exactly when there is an accepting run; overdue is the least number of rejecting
// visits that one has, capped; shared nodes are those that every one visits.
pub fn tallies_tell()
    ensures { AllTell }
{}

// Node sets are sets: joining intersects, combining unites, and sets of the same nodes are equal.
pub fn node_sets_are_sets()
    ensures { SetsOfNodes }
{}
