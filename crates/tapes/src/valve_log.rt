ghost use Rattle.std.specs.Prelude.{◌≡◌, ◌*◌, ◌/◌, ◌≤◌, [], length, take};
ghost use Rattle.tapes.specs.Valves.{Encodes, LawfulPumps, written};

use crate::tape::{GrowingTape, Tape};
use crate::valve_tape::ValveTape;
use refusals::{Cause, Refusal};
use states::valve::ValveRecord;

// A growing tape of valve records over lent bytes, three a record: the first `used` records. It is
// apart from `Log`, which stores states as they are.
#[derive(Drop)]
pub struct ValveLog<'a> {
    bytes: &'a mut [u8],
    used: usize,
    ghost within: { used ≤ length bytes.now / 3 },
    ghost lawful: { LawfulPumps used bytes.now },
}

impl<'a> ValveLog<'a> {
    ghost use Rattle.tapes.specs.Lent.{valve_tape_states, valve_log_states, valve_log_capacity};

    // The empty tape, with room for a third as many records as there are bytes, rounded down. It
    // writes none of them.
    pub fn new(bytes: &'a mut [u8]) -> ValveLog<'a>
        ensures empty { valve_log_states result ≡ [] }
        ensures room { valve_log_capacity result ≡ length bytes.old / 3 }
        ensures untouched { result.bytes.now ≡ bytes.old }
        ensures lender { result.bytes.ghost_name ≡ bytes.entry.ghost_name }
    {
        ValveLog { bytes, used: 0 }
    }

    // The tape to read over the bytes in use: they encode the records that were appended.
    pub fn tape(&self) -> ValveTape<'_>
        ensures front { result.bytes.now ≡ take (3 * length (valve_log_states self.now)) self.now.bytes.now }
        ensures same { valve_tape_states result ≡ valve_log_states self.now }
        ensures encodes { Encodes result.bytes.now (valve_log_states self.now) }
    {
        ValveTape {
            bytes: &self.bytes[..3 * self.used],
        }
    }
}

impl<'a> Tape for ValveLog<'a> {
    ghost use Rattle.tapes.specs.Lent.{valve_log_states};

    type Item = ValveRecord;

    ghost states = { valve_log_states };

    fn len(&self) -> usize {
        self.tape().len()
    }

    fn at(&self, place: usize) -> Option<ValveRecord> {
        self.tape().at(place)
    }
}

impl<'a> GrowingTape for ValveLog<'a> {
    ghost use Rattle.tapes.specs.Growing.{Stores};
    ghost use Rattle.tapes.specs.Lent.{valve_log_states, valve_log_capacity};

    ghost capacity = { valve_log_capacity };

    // It writes the three bytes after those in use, or none, and still borrows the same bytes.
    ghost writes = { λ old state new result.
        Stores old.bytes.now (written old.bytes.now (length (valve_log_states old)) state) new.bytes.now result
        × (new.bytes.ghost_name ≡ old.bytes.ghost_name) };

    fn append(&mut self, state: ValveRecord) -> Result<(), Refusal> {
        let place = self.used;
        if place == self.bytes.len() / 3 {
            return Err(Cause::TapeFull.at(place));
        }
        let record: [u8; 3] = state.into();
        self.bytes[3 * place..3 * place + 3].copy_from_slice(&record);
        self.used = place + 1;
        Ok(())
    }
}
