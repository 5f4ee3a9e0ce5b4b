ghost use Rattle.std.specs.Prelude.{◌≡◌, ℕ, ◌≤◌, true, false, List, length};
ghost use Rattle.states.specs.Answers.{answered};
ghost use Rattle.temporal.specs.Vocabulary.{lawful_vocabulary, listed_words};
ghost use Rattle.states.specs.declared.answer.Answer.{Answer};

use crate::answer::Answer;

// A kind of state: a vocabulary, and for each state a fixed answer to each atom. An atom is a word's
// place in the vocabulary.
pub trait State: Copy {
    // The words in order, one space between neighbours.
    const VOCABULARY: &'static str;

    // The words, each by its letters.
    ghost words: { List (List ℕ) };

    // The meaning of a state: its answer to each atom.
    ghost answers: { Self → ℕ → Answer };

    // The constant: generic code knows its value only by this promise.
    fn word_list() -> &'static str
        ensures { result.now ≡ listed_words words };

    fn answer(&self, atom: usize) -> Answer
        ensures { result ≡ answers self.now atom };

    ghost lawful: { lawful_vocabulary words ≡ true };

    // An atom past the vocabulary is answered no.
    ghost past: { (s : Self) (atom : ℕ) → length words ≤ atom → answers s atom ≡ answered false };
}
