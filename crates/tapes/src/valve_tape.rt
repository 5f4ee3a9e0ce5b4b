ghost use Rattle.std.specs.Prelude.{◌≡◌, ◌/◌, ◌%◌, ◌<◌, List, length, MatchOption, MatchResult};
ghost use Rattle.states.specs.declared.valve.ValveRecord.{ValveRecord};
ghost use Rattle.tapes.specs.Valves.{Encodes, LawfulPumps, Unreadable, pump_at};

use crate::tape::Tape;
use refusals::{Cause, Refusal};
use states::valve::ValveRecord;

// A tape of valve records over lent bytes, three a record, to read. It is made by `new` or by a
// growing tape.
#[derive(Clone, Copy)]
pub struct ValveTape<'a> {
    pub(crate) bytes: &'a [u8],
    ghost whole: { length bytes.now % 3 ≡ 0 },
    ghost lawful: { LawfulPumps (length bytes.now / 3) bytes.now },
}

impl<'a> ValveTape<'a> {
    ghost use Rattle.tapes.specs.Lent.{valve_tape_states};

    // The tape of all the bytes. They are refused with their number if it is no multiple of three, or
    // else with the number of the first record whose pump byte exceeds 1. Bytes that encode records
    // are read back as those.
    pub fn new(bytes: &'a [u8]) -> Result<ValveTape<'a>, Refusal>
        ensures made { MatchResult result (λ t. (t.bytes.now ≡ bytes.now) × Encodes bytes.now (valve_tape_states t)) (Unreadable bytes.now) }
        ensures read_back { (records : List ValveRecord) → Encodes bytes.now records → MatchResult result (λ t. valve_tape_states t ≡ records) (λ _. ⊥) }
    {
        if bytes.len() % 3 != 0 {
            return Err(Cause::PartialRecord.at(bytes.len()));
        }
        match first_unlawful(bytes) {
            Some(place) => Err(Cause::PumpTooLarge.at(place)),
            None => Ok(ValveTape { bytes }),
        }
    }
}

impl<'a> Tape for ValveTape<'a> {
    ghost use Rattle.tapes.specs.Lent.{valve_tape_states};

    type Item = ValveRecord;

    ghost states = { valve_tape_states };

    fn len(&self) -> usize {
        self.bytes.len() / 3
    }

    fn at(&self, place: usize) -> Option<ValveRecord> {
        let (records, _) = self.bytes.as_chunks::<3>();
        let record = records.get(place)?;
        Some(ValveRecord::try_from(*record).unwrap())
    }
}

// The number of the first whole record whose pump byte exceeds 1.
fn first_unlawful(bytes: &[u8]) -> Option<usize>
    ensures { MatchOption result (LawfulPumps (length bytes.now / 3) bytes.now) (λ k. (k < length bytes.now / 3) × (1 < pump_at bytes.now k) × LawfulPumps k bytes.now) }
{
    let (records, _) = bytes.as_chunks::<3>();
    records.iter().position(|[_, _, pump]| *pump > 1)
}
