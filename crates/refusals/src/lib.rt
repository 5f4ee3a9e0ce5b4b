// Why something was refused, and where: the closed list of causes, the part that each concerns,
// and the refusal that carries a cause to its place.
#![tactic(auto)]

ghost use Rattle.std.specs.Prelude.{◌≡◌, ◌≤◌, Some};
ghost use Rattle.refusals.specs.Causes.{line, number, part, part_text};
ghost use Rattle.refusals.specs.declared.Cause.{Cause};

use std::error::Error;
use std::fmt;

// Every cause there is; the comment beside each says what it means and which place it names.
#[derive(Clone, Copy, PartialEq, Eq, Debug)]
pub enum Cause {
    JobTooLong = 1, // the job exceeds 65,536 bytes: 65,536
    JobCutShort = 2, // the job ends inside a count or section: its length
    TextTooLong = 3, // the rule text exceeds 512 bytes: 512
    StrayByte = 4, // a piece begins with no letter and no bracket: that byte
    UnknownWord = 5, // a word is neither operator nor vocabulary: its first letter
    Ungrammatical = 6, // the grammar forbids the piece: its first byte; early end: the length
    TooDeep = 7, // a formula begins at depth 17: its first byte
    TooManyNodes = 8, // the piece is the 65th that makes a node: its first byte
    UnlawfulRecord = 9, // a heap record is unlawful: its number
    PartialRecord = 10, // valve bytes are no multiple of three: how many they are
    PumpTooLarge = 11, // a pump byte exceeds 1: the record's number
    BadWindow = 12, // a window starts past its end or ends past its tape: its start
    TooFewCells = 13, // there are fewer cells than nodes: the number of cells
    TooManyWaits = 14, // a watch's rule has over nine waiting operators: how many
    TapeFull = 15, // the tape is full: its length
    TrailingBytes = 16, // bytes follow the last section: the first of them
}

// What a cause is found in.
#[derive(Clone, Copy, PartialEq, Eq, Debug)]
pub enum Part {
    Text,
    Record,
    Tape,
    Window,
    Reader,
    Watch,
    Job,
}

// A cause at a place; places count from 0.
#[derive(Clone, Copy, PartialEq, Eq, Debug)]
pub struct Refusal {
    pub cause: Cause,
    pub place: usize,
}

impl Cause {
    // The cause's number, from 1 to 16, which no other cause has.
    pub fn number(self) -> u8
        ensures value { result ≡ number self }
        ensures listed { (1 ≤ result) × (result ≤ 16) }
        ensures own { (other : Cause) → number other ≡ result → other ≡ self }
    {
        self as u8
    }

    // The part that the cause concerns.
    pub fn part(self) -> Part
        ensures { result ≡ part self }
    {
        match self {
            Cause::TextTooLong
            | Cause::StrayByte
            | Cause::UnknownWord
            | Cause::Ungrammatical
            | Cause::TooDeep
            | Cause::TooManyNodes => Part::Text,
            Cause::UnlawfulRecord | Cause::PumpTooLarge => Part::Record,
            Cause::PartialRecord | Cause::TapeFull => Part::Tape,
            Cause::BadWindow => Part::Window,
            Cause::TooFewCells => Part::Reader,
            Cause::TooManyWaits => Part::Watch,
            Cause::JobTooLong | Cause::JobCutShort | Cause::TrailingBytes => Part::Job,
        }
    }

    // The refusal by this cause, at that place.
    pub fn at(self, place: usize) -> Refusal
        ensures { (result.cause ≡ self) × (result.place ≡ place) }
    {
        Refusal { cause: self, place }
    }
}

impl Part {
    // The part as it is printed.
    pub fn as_str(self) -> &'static str
        ensures { result.now ≡ part_text self }
    {
        match self {
            Part::Text => "text",
            Part::Record => "record",
            Part::Tape => "tape",
            Part::Window => "window",
            Part::Reader => "reader",
            Part::Watch => "watch",
            Part::Job => "job",
        }
    }
}

impl fmt::Display for Part {
    ghost output = { λ p. Some (part_text p) };

    fn fmt<W: fmt::Write>(&self, f: &mut fmt::Formatter<W>) -> fmt::Result {
        f.write_str(self.as_str())
    }
}

// `refused 15 at 3 in tape`: number, place and part.
impl fmt::Display for Refusal {
    ghost output = { λ e. Some (line (number e.cause) e.place (part e.cause)) };

    fn fmt<W: fmt::Write>(&self, f: &mut fmt::Formatter<W>) -> fmt::Result {
        let number = self.cause.number();
        let place = self.place;
        let part = self.cause.part();
        write!(f, "refused {number} at {place} in {part}")
    }
}

impl Error for Refusal {}
