// Formulas as trees, and their worth straight from the definition: state by state, from the first one
// on, with no memory of what was found before. Good for short tapes only.
use states::answer::Answer;
use states::state::State;
use std::alloc::{AllocError, Global};
use tallies::tally::Tally;
use temporal::operators::{Binary, Form, Unary};
use temporal::visits::Visit;

#[derive(Drop)]
pub(crate) enum Formula {
    Atom(usize),
    Not(Box<Formula>),
    One(Unary, Box<Formula>),
    Two(Binary, Box<Formula>, Box<Formula>),
}

impl Formula {
    pub(crate) fn not(heap: Global, operand: Formula) -> Result<Formula, AllocError> {
        Ok(Formula::Not(Box::new(heap, operand)?))
    }

    pub(crate) fn one(
        heap: Global,
        operator: Unary,
        operand: Formula,
    ) -> Result<Formula, AllocError> {
        Ok(Formula::One(operator, Box::new(heap, operand)?))
    }

    pub(crate) fn two(
        heap: Global,
        operator: Binary,
        left: Formula,
        right: Formula,
    ) -> Result<Formula, AllocError> {
        let left = Box::new(heap, left)?;
        let right = Box::new(heap, right)?;
        Ok(Formula::Two(operator, left, right))
    }

    // How many nodes it has: each atom and each operator but `not`.
    fn nodes(&self) -> usize {
        match self {
            Formula::Atom(_) => 1,
            Formula::Not(operand) => operand.nodes(),
            Formula::One(_, operand) => operand.nodes().saturating_add(1),
            Formula::Two(_, left, right) => {
                left.nodes().saturating_add(right.nodes()).saturating_add(1)
            }
        }
    }

    // The joint worth of its accepting runs, of either sign, where its first node has that number.
    pub(crate) fn worth<S: State, W: Tally>(
        &self,
        negative: bool,
        first: usize,
        states: &[S],
    ) -> W {
        let [state, later @ ..] = states else {
            return W::none();
        };
        let node = first.saturating_add(self.nodes()).saturating_sub(1);
        let goes_on = !later.is_empty();
        match self {
            Formula::Atom(atom) => {
                let yes = state.answer(*atom) == Answer::Yes;
                alone(node, yes != negative)
            }
            Formula::Not(operand) => operand.worth(!negative, first, states),
            Formula::One(operator, operand) => {
                let awaited = goes_on.then_some(match operator {
                    Unary::Next => operand.worth(negative, first, later),
                    Unary::Always | Unary::Eventually => self.worth(negative, first, later),
                });
                let waiting = waiting_part(node, operator.accepting(negative), awaited);
                let worth: W = operand.worth(negative, first, states);
                formed(operator.form(negative), waiting, worth, worth)
            }
            Formula::Two(operator, left, right) => {
                let awaited = goes_on.then_some(self.worth(negative, first, later));
                let waiting = waiting_part(node, operator.accepting(negative), awaited);
                let middle = first.saturating_add(left.nodes());
                formed(
                    operator.form(negative),
                    waiting,
                    left.worth(operator.left_negative(negative), first, states),
                    right.worth(negative, middle, states),
                )
            }
        }
    }
}

// The visit of a node alone, if it counts.
fn alone<W: Tally>(node: usize, counts: bool) -> W {
    if counts {
        W::weight(Visit {
            node,
            accepting: true,
        })
    } else {
        W::none()
    }
}

// The visit of a waiting operator's node, and then what is awaited; at the last state, where nothing
// is, the visit alone, if it is accepting.
fn waiting_part<W: Tally>(node: usize, accepting: bool, awaited: Option<W>) -> W {
    match awaited {
        Some(awaited) => W::weight(Visit { node, accepting }).combine(awaited),
        None => alone(node, accepting),
    }
}

// A node of its waiting part and its operands.
fn formed<W: Tally>(form: Form, waiting: W, left: W, right: W) -> W {
    match form {
        Form::And => left.combine(right),
        Form::Or => left.join(right),
        Form::Next => waiting,
        Form::Always => waiting.combine(left),
        Form::Eventually => waiting.join(left),
        Form::Until => right.join(waiting.combine(left)),
        Form::Release => right.combine(waiting.join(left)),
    }
}
