ghost use Rattle.std.specs.Prelude.{◌≡◌, true, false, MatchResult, Some};
ghost use Rattle.refusals.specs.Causes.{By};
ghost use Rattle.states.specs.HeapLaw.{lawful_heap};

use crate::answer::Answer;
use crate::state::State;
use refusals::{Cause, Refusal};
use std::fmt;

// What the controller noted of its heap: bytes free, the largest free block, the bytes wanted, and
// what came of it. No record is unlawful: `new` is the only source. A kind of state is a struct of
// numbers: `new` is to be handed an outcome of 3, and to refuse it.
#[derive(Clone, Copy, PartialEq, Eq, Debug)]
pub struct HeapRecord {
    free: u32,
    largest: u32,
    wanted: u32,
    outcome: u8,
    ghost lawful: { lawful_heap free largest wanted outcome ≡ true },
}

impl HeapRecord {
    // The most bytes that can be free or wanted.
    pub const MOST_BYTES: u32 = 16_777_216;

    // The outcomes.
    pub const IDLE: u8 = 0;

    pub const DISPENSED: u8 = 1;

    pub const REFUSED: u8 = 2;

    // The record of these numbers, refused exactly if it would be unlawful.
    pub fn new(free: u32, largest: u32, wanted: u32, outcome: u8) -> Result<HeapRecord, Refusal>
        ensures { MatchResult result (λ h. (h.free ≡ free) × (h.largest ≡ largest) × (h.wanted ≡ wanted) × (h.outcome ≡ outcome)) (λ e. (lawful_heap free largest wanted outcome ≡ false) × By 9 0 e) }
    {
        let in_range = free <= Self::MOST_BYTES
            && wanted <= Self::MOST_BYTES
            && outcome <= Self::REFUSED;
        let block_lawful = largest <= free && (largest == 0) == (free == 0);
        let outcome_lawful = wanted > 0 || outcome == Self::IDLE;
        if in_range && block_lawful && outcome_lawful {
            Ok(HeapRecord {
                free,
                largest,
                wanted,
                outcome,
            })
        } else {
            Err(Cause::UnlawfulRecord.at(0))
        }
    }

    pub fn free(&self) -> u32
        ensures { result ≡ self.now.free }
    {
        self.free
    }

    pub fn largest(&self) -> u32
        ensures { result ≡ self.now.largest }
    {
        self.largest
    }

    pub fn wanted(&self) -> u32
        ensures { result ≡ self.now.wanted }
    {
        self.wanted
    }

    pub fn outcome(&self) -> u8
        ensures { result ≡ self.now.outcome }
    {
        self.outcome
    }
}

// The four numbers, as `1000/400/500/2`.
impl fmt::Display for HeapRecord {
    ghost use Rattle.states.specs.Heap.{heap_text};

    ghost output = { λ h. Some (heap_text h) };

    fn fmt<W: fmt::Write>(&self, f: &mut fmt::Formatter<W>) -> fmt::Result {
        let free = self.free;
        let largest = self.largest;
        let wanted = self.wanted;
        let outcome = self.outcome;
        write!(f, "{free}/{largest}/{wanted}/{outcome}")
    }
}

impl State for HeapRecord {
    ghost use Rattle.std.specs.Prelude.{refl};
    ghost use Rattle.states.specs.Atoms.{answers_by, no_past, words_of};
    ghost use Rattle.states.specs.Heap.{heap_atoms};

    const VOCABULARY: &'static str = "asked enough fits refused dispensed";

    ghost words = { words_of heap_atoms };

    ghost answers = { answers_by heap_atoms };

    ghost lawful = { refl };

    ghost past = { no_past heap_atoms };

    fn word_list() -> &'static str {
        Self::VOCABULARY
    }

    fn answer(&self, atom: usize) -> Answer {
        Answer::from(match atom {
            0 => self.wanted > 0,
            1 => self.free >= self.wanted,
            2 => self.largest >= self.wanted,
            3 => self.outcome == Self::REFUSED,
            4 => self.outcome == Self::DISPENSED,
            _ => false,
        })
    }
}
