// Valve tapes over bytes, to read and to grow.
use crate::seen::{refused, seen};
use refusals::{Cause, Refusal};
use states::valve::ValveRecord;
use std::test::Fail;
use tapes::tape::{GrowingTape, Tape};
use tapes::valve_log::ValveLog;
use tapes::valve_tape::ValveTape;

// How many records the bytes encode, or why they are refused.
fn records(bytes: &[u8]) -> Result<usize, Refusal> {
    Ok(ValveTape::new(bytes)?.len())
}

#[test]
fn bytes_come_in_threes(rt: HostRuntime) {
    let bytes = [0; 7];
    for (whole, count) in [(0, 0), (3, 1), (6, 2)] {
        assert_eq!(rt; records(&bytes[0..whole]), Ok(count));
    }
    for partial in [1, 2, 4, 5, 7] {
        assert_eq!(rt;
            records(&bytes[0..partial]),
            refused(Cause::PartialRecord, partial)
        );
    }
}

#[test]
fn the_first_pump_byte_above_one_is_refused(rt: HostRuntime) {
    assert_eq!(rt; records(&[9, 9, 1, 9, 9, 0]), Ok(2));
    assert_eq!(rt;
        records(&[0, 0, 2, 0, 0, 3]),
        refused(Cause::PumpTooLarge, 0)
    );
    assert_eq!(rt;
        records(&[0, 0, 1, 0, 0, 2]),
        refused(Cause::PumpTooLarge, 1)
    );
    assert_eq!(rt; records(&[0, 0, 255]), refused(Cause::PumpTooLarge, 0));
    assert_eq!(rt; records(&[0, 0, 2, 0]), refused(Cause::PartialRecord, 4));
}

#[test]
fn the_high_byte_comes_first(rt: HostRuntime) -> Result<(), Fail> {
    let bytes = [0x12, 0x34, 1, 0x00, 0xff, 0];
    let tape = ValveTape::new(&bytes)?;
    let first = ValveRecord::new(0x1234, 1)?;
    let second = ValveRecord::new(0x00ff, 0)?;
    assert_eq!(rt; seen(&tape), (2, [Some(first), Some(second), None]));
    assert_eq!(rt; tape.at(usize::MAX), None);
    Ok(())
}

#[test]
fn five_bytes_have_room_for_one_record(rt: HostRuntime) -> Result<(), Fail> {
    let record = ValveRecord::new(0x1234, 1)?;
    let mut bytes = [7; 5];
    let mut log = ValveLog::new(&mut bytes);
    assert_eq!(rt; seen(&log), (0, [None, None, None]));
    log.append(record)?;
    assert_eq!(rt; log.append(record), refused(Cause::TapeFull, 1));
    assert_eq!(rt; seen(&log), (1, [Some(record), None, None]));
    assert_eq!(rt; bytes, [0x12, 0x34, 1, 7, 7]);
    Ok(())
}

#[test]
fn two_bytes_have_room_for_none(rt: HostRuntime) -> Result<(), Fail> {
    let record = ValveRecord::new(0x1234, 1)?;
    let mut bytes = [7; 2];
    let mut log = ValveLog::new(&mut bytes);
    assert_eq!(rt; log.append(record), refused(Cause::TapeFull, 0));
    assert_eq!(rt; seen(&log), (0, [None, None, None]));
    assert_eq!(rt; bytes, [7, 7]);
    Ok(())
}

#[test]
fn what_was_appended_is_read_back(rt: HostRuntime) -> Result<(), Fail> {
    let first = ValveRecord::new(0xff00, 0)?;
    let second = ValveRecord::new(0x0001, 1)?;
    let mut bytes = [9; 6];
    let mut log = ValveLog::new(&mut bytes);
    log.append(first)?;
    log.append(second)?;
    assert_eq!(rt; seen(&log.tape()), (2, [Some(first), Some(second), None]));
    assert_eq!(rt;
        seen(&ValveTape::new(&bytes)?),
        (2, [Some(first), Some(second), None])
    );
    Ok(())
}
