// A visit of a node, one step of a run: which node, and whether its operator is accepting there. An
// atom's visit counts as accepting.
#[derive(Clone, Copy, PartialEq, Eq, Debug)]
pub struct Visit {
    pub node: usize,
    pub accepting: bool,
}
