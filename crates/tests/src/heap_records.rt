// A heap record's law on both sides of each of its limits, and the answers of its atoms.
use crate::seen::{lists_words, refused};
use refusals::Cause;
use states::answer::Answer;
use states::heap::HeapRecord;
use states::state::State;
use std::array;
use std::test::Fail;

#[test]
fn lawful_records_are_made(rt: HostRuntime) -> Result<(), Fail> {
    let lawful = [
        (0, 0, 0, 0),
        (1_000, 400, 0, 0),
        (1_000, 400, 500, 2),
        (1_000, 400, 300, 1),
        (16_777_216, 1, 0, 0),
        (16_777_216, 16_777_216, 16_777_216, 2),
        (0, 0, 1, 0),
        (0, 0, 1, 1),
        (0, 0, 1, 2),
        (1, 1, 0, 0),
    ];
    for (free, largest, wanted, outcome) in lawful {
        let record = HeapRecord::new(free, largest, wanted, outcome)?;
        assert_eq!(rt; record.free(), free);
        assert_eq!(rt; record.largest(), largest);
        assert_eq!(rt; record.wanted(), wanted);
        assert_eq!(rt; record.outcome(), outcome);
    }
    Ok(())
}

#[test]
fn unlawful_records_are_refused(rt: HostRuntime) {
    let unlawful = [
        (16_777_217, 1, 0, 0),
        (u32::MAX, 1, 0, 0),
        (0, 0, 16_777_217, 2),
        (0, 0, u32::MAX, 0),
        (1, 2, 0, 0),
        (400, 401, 0, 0),
        (1, 0, 0, 0),
        (0, 1, 0, 0),
        (1, 1, 0, 1),
        (1, 1, 0, 2),
        (1, 1, 0, 3),
        (1, 1, 1, 3),
        (1, 1, 1, 255),
    ];
    for (free, largest, wanted, outcome) in unlawful {
        assert_eq!(rt;
            HeapRecord::new(free, largest, wanted, outcome),
            refused(Cause::UnlawfulRecord, 0)
        );
    }
}

// The atoms answered yes, of those numbered 0 to 7.
fn yes(record: HeapRecord) -> [bool; 8] {
    array::from_fn(|atom| record.answer(atom) == Answer::Yes)
}

#[test]
fn atoms_go_by_the_numbers(rt: HostRuntime) -> Result<(), Fail> {
    // asked, enough, fits, refused, dispensed; then three past the vocabulary
    let rows = [
        ((1_000, 400, 0, 0), [false, true, true, false, false]),
        ((1_000, 400, 500, 2), [true, true, false, true, false]),
        ((1_000, 400, 300, 1), [true, true, true, false, true]),
        ((1_000, 400, 1_000, 0), [true, true, false, false, false]),
        ((1_000, 400, 1_001, 0), [true, false, false, false, false]),
        ((1_000, 400, 400, 1), [true, true, true, false, true]),
        ((1_000, 400, 401, 1), [true, true, false, false, true]),
        ((0, 0, 0, 0), [false, true, true, false, false]),
        ((0, 0, 1, 2), [true, false, false, true, false]),
    ];
    for ((free, largest, wanted, outcome), [asked, enough, fits, refused, dispensed]) in rows {
        let record = HeapRecord::new(free, largest, wanted, outcome)?;
        let expected = [asked, enough, fits, refused, dispensed, false, false, false];
        assert_eq!(rt; yes(record), expected);
        assert_eq!(rt; record.answer(usize::MAX), Answer::No);
    }
    Ok(())
}

#[test]
fn the_vocabulary_is_listed(rt: HostRuntime) {
    lists_words::<HeapRecord>(&rt, "asked enough fits refused dispensed");
}

#[test]
fn the_four_numbers_are_printed(rt: HostRuntime) -> Result<(), Fail> {
    let record = HeapRecord::new(16_777_216, 400, 500, 2)?;
    let text = format!(in rt.alloc(); "{record}")?;
    assert_eq!(rt; text.as_str(), "16777216/400/500/2");
    Ok(())
}
