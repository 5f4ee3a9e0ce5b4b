ghost use Rattle.std.specs.Prelude.{◌≡◌, ◌&&◌, nat_lt};
ghost use Rattle.tallies.specs.Limits.{most_nodes};
ghost use Rattle.tallies.specs.Shared.{has, node_sets};
ghost use Rattle.tallies.specs.SharedLaws.{node_set_laws};

use crate::measure::Measure;
use temporal::visits::Visit;

// The nodes that every run visits; none without a run.
pub type Shared = Option<NodeSet>;

// A set of nodes that a rule can have, by the bits of a number: the library has no heap.
#[derive(Clone, Copy, PartialEq, Eq, Debug)]
pub struct NodeSet {
    bits: u64,
}

impl NodeSet {
    // How many nodes a rule can have.
    pub const MOST_NODES: usize = 64;

    // Whether the node is in the set.
    pub fn contains(&self, node: usize) -> bool
        ensures { result ≡ nat_lt node most_nodes && has self.now node }
    {
        node < Self::MOST_NODES && (self.bits >> node) % 2 == 1
    }

    // The sum of 2 to the power of each node in the set: the number that has those bits.
    pub fn sum(&self) -> u64
        ensures { result ≡ self.now.bits }
    {
        self.bits
    }
}

// Joining intersects, combining unites; a visit weighs its own node.
impl Measure for NodeSet {
    ghost measures = { node_sets };

    ghost laws = { node_set_laws };

    fn unit() -> NodeSet {
        NodeSet { bits: 0 }
    }

    fn join(self, other: NodeSet) -> NodeSet {
        NodeSet {
            bits: self.bits & other.bits,
        }
    }

    fn combine(self, other: NodeSet) -> NodeSet {
        NodeSet {
            bits: self.bits | other.bits,
        }
    }

    fn weight(visit: Visit) -> NodeSet {
        let bits = if visit.node < Self::MOST_NODES {
            1 << visit.node
        } else {
            0
        };
        NodeSet { bits }
    }
}
