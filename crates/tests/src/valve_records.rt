// A valve record's law on both sides of its limit, and the answers of its atoms.
use crate::seen::{lists_words, refused};
use refusals::Cause;
use states::answer::Answer;
use states::state::State;
use states::valve::ValveRecord;
use std::test::Fail;

#[test]
fn the_pump_is_zero_or_one(rt: HostRuntime) -> Result<(), Fail> {
    for pump in 0..2 {
        let record = ValveRecord::new(0xabcd, pump)?;
        assert_eq!(rt; record.bits(), 0xabcd);
        assert_eq!(rt; record.pump(), pump);
    }
    assert_eq!(rt; ValveRecord::new(0, 2), refused(Cause::PumpTooLarge, 0));
    assert_eq!(rt; ValveRecord::new(0, 255), refused(Cause::PumpTooLarge, 0));
    Ok(())
}

#[test]
fn atoms_go_by_pump_and_bits(rt: HostRuntime) -> Result<(), Fail> {
    let rows = [
        ((0, 0), (Answer::No, Answer::No)),
        ((0, 1), (Answer::Yes, Answer::No)),
        ((1, 0), (Answer::No, Answer::Yes)),
        ((0x8000, 0), (Answer::No, Answer::Yes)),
        ((0xffff, 1), (Answer::Yes, Answer::Yes)),
    ];
    for ((bits, pump), (pumping, open)) in rows {
        let record = ValveRecord::new(bits, pump)?;
        assert_eq!(rt; record.answer(0), pumping);
        assert_eq!(rt; record.answer(1), open);
        assert_eq!(rt; record.answer(2), Answer::No);
        assert_eq!(rt; record.answer(usize::MAX), Answer::No);
    }
    Ok(())
}

#[test]
fn the_vocabulary_is_listed(rt: HostRuntime) {
    lists_words::<ValveRecord>(&rt, "pumping open");
}

#[test]
fn a_record_has_three_bytes(rt: HostRuntime) -> Result<(), Fail> {
    let record = ValveRecord::new(0x1234, 1)?;
    let bytes: [u8; 3] = record.into();
    assert_eq!(rt; bytes, [0x12, 0x34, 1]);
    assert_eq!(rt; ValveRecord::try_from(bytes), Ok(record));
    assert_eq!(rt;
        ValveRecord::try_from([0, 0, 2]),
        refused(Cause::PumpTooLarge, 0)
    );
    assert_eq!(rt;
        ValveRecord::try_from([0xff, 0xff, 0]),
        ValveRecord::new(0xffff, 0)
    );
    Ok(())
}

#[test]
fn answers_are_printed(rt: HostRuntime) -> Result<(), Fail> {
    let text = format!(in rt.alloc(); "{} {}", Answer::from(true), Answer::from(false))?;
    assert_eq!(rt; text.as_str(), "yes no");
    Ok(())
}
