ghost use Rattle.std.specs.Prelude.{◌≡◌, ◌<◌, ◌≤◌, MatchResult};
ghost use Rattle.refusals.specs.Causes.{By};

use crate::answer::Answer;
use crate::state::State;
use refusals::{Cause, Refusal};

// What the controller noted of its valves: sixteen valve bits, and whether the pump ran (0 or 1). A
// kind of state is a struct of numbers: `new` is to be handed a pump byte of 2, and to refuse it.
#[derive(Clone, Copy, PartialEq, Eq, Debug)]
pub struct ValveRecord {
    bits: u16,
    pump: u8,
    ghost lawful: { pump ≤ 1 },
}

impl ValveRecord {
    // The record of these numbers, refused exactly if the pump byte exceeds 1.
    pub fn new(bits: u16, pump: u8) -> Result<ValveRecord, Refusal>
        ensures { MatchResult result (λ v. (v.bits ≡ bits) × (v.pump ≡ pump)) (λ e. (1 < pump) × By 11 0 e) }
    {
        if pump <= 1 {
            Ok(ValveRecord { bits, pump })
        } else {
            Err(Cause::PumpTooLarge.at(0))
        }
    }

    pub fn bits(&self) -> u16
        ensures { result ≡ self.now.bits }
    {
        self.bits
    }

    pub fn pump(&self) -> u8
        ensures { result ≡ self.now.pump }
    {
        self.pump
    }
}

// Its three bytes: the valve bits, high byte first, then the pump.
impl From<ValveRecord> for [u8; 3] {
    ghost use Rattle.states.specs.Valve.{encoded};

    ghost from_gives = { λ v bytes. bytes ≡ encoded v };

    fn from(record: ValveRecord) -> [u8; 3] {
        let [high, low] = record.bits.to_be_bytes();
        [high, low, record.pump]
    }
}

// The record of three bytes, refused exactly if the pump byte exceeds 1.
impl TryFrom<[u8; 3]> for ValveRecord {
    ghost use Rattle.states.specs.Valve.{Decodes};

    type Error = Refusal;

    ghost try_from_gives = { Decodes };

    fn try_from(bytes: [u8; 3]) -> Result<ValveRecord, Refusal> {
        let [high, low, pump] = bytes;
        ValveRecord::new(u16::from_be_bytes([high, low]), pump)
    }
}

impl State for ValveRecord {
    ghost use Rattle.std.specs.Prelude.{refl};
    ghost use Rattle.states.specs.Atoms.{answers_by, no_past, words_of};
    ghost use Rattle.states.specs.Valve.{valve_atoms};

    const VOCABULARY: &'static str = "pumping open";

    ghost words = { words_of valve_atoms };

    ghost answers = { answers_by valve_atoms };

    ghost lawful = { refl };

    ghost past = { no_past valve_atoms };

    fn word_list() -> &'static str {
        Self::VOCABULARY
    }

    fn answer(&self, atom: usize) -> Answer {
        Answer::from(match atom {
            0 => self.pump == 1,
            1 => self.bits > 0,
            _ => false,
        })
    }
}
