ghost use Rattle.std.specs.Prelude.{◌≡◌};
ghost use Rattle.temporal.specs.Forms.{binary_accepts, binary_form, binary_waits, left_sign, unary_accepts, unary_form};

// The operators before one formula, but for `not`, which makes no node.
#[derive(Clone, Copy, PartialEq, Eq, Debug)]
pub enum Unary {
    Next,
    Always,
    Eventually,
}

// The operators between two formulas.
#[derive(Clone, Copy, PartialEq, Eq, Debug)]
pub enum Binary {
    And,
    Or,
    Implies,
    Until,
    Unless,
}

// What an operator acts as: how a node is made of its operands and, if it waits, its waiting part.
#[derive(Clone, Copy, PartialEq, Eq, Debug)]
pub enum Form {
    And,
    Or,
    Next, // and weak next
    Always,
    Eventually,
    Until, // and unless
    Release, // and strong release
}

impl Unary {
    // What the operator acts as, positive or negative.
    pub fn form(self, negative: bool) -> Form
        ensures { result ≡ unary_form self negative }
    {
        match (self, negative) {
            (Unary::Next, _) => Form::Next,
            (Unary::Always, false) => Form::Always,
            (Unary::Always, true) => Form::Eventually,
            (Unary::Eventually, false) => Form::Eventually,
            (Unary::Eventually, true) => Form::Always,
        }
    }

    // Whether it may still wait at the last state.
    pub fn accepting(self, negative: bool) -> bool
        ensures { result ≡ unary_accepts self negative }
    {
        match self {
            Unary::Always => !negative,
            Unary::Next | Unary::Eventually => negative,
        }
    }
}

impl Binary {
    // What the operator acts as, positive or negative.
    pub fn form(self, negative: bool) -> Form
        ensures { result ≡ binary_form self negative }
    {
        match (self, negative) {
            (Binary::And, false) => Form::And,
            (Binary::And, true) => Form::Or,
            (Binary::Or | Binary::Implies, false) => Form::Or,
            (Binary::Or | Binary::Implies, true) => Form::And,
            (Binary::Until | Binary::Unless, false) => Form::Until,
            (Binary::Until | Binary::Unless, true) => Form::Release,
        }
    }

    // Whether it waits at all.
    pub fn waits(self) -> bool
        ensures { result ≡ binary_waits self }
    {
        match self {
            Binary::And | Binary::Or | Binary::Implies => false,
            Binary::Until | Binary::Unless => true,
        }
    }

    // Whether it may still wait at the last state; said to be so where it does not wait.
    pub fn accepting(self, negative: bool) -> bool
        ensures { result ≡ binary_accepts self negative }
    {
        match self {
            Binary::And | Binary::Or | Binary::Implies => true,
            Binary::Until => negative,
            Binary::Unless => !negative,
        }
    }

    // Whether its left side is negative.
    pub fn left_negative(self, negative: bool) -> bool
        ensures { result ≡ left_sign self negative }
    {
        match self {
            Binary::Implies => !negative,
            Binary::And | Binary::Or | Binary::Until | Binary::Unless => negative,
        }
    }
}
