ghost use Rattle.std.specs.Prelude.{◌≡◌, Some};
ghost use Rattle.states.specs.Answers.{answer_text, answered, said};

use std::fmt;

// What a state answers when asked for an atom.
#[derive(Clone, Copy, PartialEq, Eq, Debug)]
pub enum Answer {
    Yes,
    No,
}

// Yes exactly if the fact is so.
impl From<bool> for Answer {
    ghost from_gives = { λ fact answer. (answer ≡ answered fact) × (said answer ≡ fact) };

    fn from(fact: bool) -> Answer {
        if fact { Answer::Yes } else { Answer::No }
    }
}

impl Answer {
    // The answer as it is printed.
    pub fn as_str(self) -> &'static str
        ensures { result.now ≡ answer_text self }
    {
        match self {
            Answer::Yes => "yes",
            Answer::No => "no",
        }
    }
}

impl fmt::Display for Answer {
    ghost output = { λ a. Some (answer_text a) };

    fn fmt<W: fmt::Write>(&self, f: &mut fmt::Formatter<W>) -> fmt::Result {
        f.write_str(self.as_str())
    }
}
