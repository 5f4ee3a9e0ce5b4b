// What a caller knows of the memory that it lent to a growing tape.
ghost use Rattle.std.specs.Prelude.{◌≡◌, ◌<◌, ◌≤◌, length, Some, None, slice_set};
ghost use Rattle.tapes.specs.Valves.{written};

use states::state::State;
use states::valve::ValveRecord;
use tapes::log::Log;
use tapes::tape::{GrowingTape, Tape};
use tapes::valve_log::ValveLog;
use tapes::valve_tape::ValveTape;

// A state noted in fresh cells stands in the first of them, if there is one, and the others stay.
pub fn note_first<S: State>(cells: &mut [S], state: S)
    ensures { 0 < length cells.old → cells.new ≡ slice_set cells.old 0 state }
{
    let mut log = Log::new(cells);
    let _ = log.append(state);
}

// A record noted in fresh bytes stands in the first three of them, if there are so many, and the
// others stay.
pub fn note_valve(bytes: &mut [u8], state: ValveRecord)
    ensures noted { 3 ≤ length bytes.old → bytes.new ≡ written bytes.old 0 state }
    ensures refused { length bytes.old < 3 → bytes.new ≡ bytes.old }
{
    let mut log = ValveLog::new(bytes);
    let _ = log.append(state);
}

// It is read back from those bytes alone.
pub fn note_and_read(bytes: &mut [u8], state: ValveRecord) -> Option<ValveRecord>
    ensures read { 3 ≤ length bytes.old → result ≡ Some state }
    ensures none { length bytes.old < 3 → result ≡ None }
    ensures noted { 3 ≤ length bytes.old → bytes.new ≡ written bytes.old 0 state }
    ensures refused { length bytes.old < 3 → bytes.new ≡ bytes.old }
{
    if bytes.len() < 3 {
        return None;
    }
    note_valve(bytes, state);
    ValveTape::new(&bytes[..3]).ok()?.at(0)
}
