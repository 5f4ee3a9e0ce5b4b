// Each cause's number and part.
use crate::seen::refused;
use refusals::{Cause, Refusal};
use std::test::Fail;

#[test]
fn each_cause_has_its_number_and_part(rt: HostRuntime) {
    let listed = [
        (Cause::JobTooLong, 1, "job"),
        (Cause::JobCutShort, 2, "job"),
        (Cause::TextTooLong, 3, "text"),
        (Cause::StrayByte, 4, "text"),
        (Cause::UnknownWord, 5, "text"),
        (Cause::Ungrammatical, 6, "text"),
        (Cause::TooDeep, 7, "text"),
        (Cause::TooManyNodes, 8, "text"),
        (Cause::UnlawfulRecord, 9, "record"),
        (Cause::PartialRecord, 10, "tape"),
        (Cause::PumpTooLarge, 11, "record"),
        (Cause::BadWindow, 12, "window"),
        (Cause::TooFewCells, 13, "reader"),
        (Cause::TooManyWaits, 14, "watch"),
        (Cause::TapeFull, 15, "tape"),
        (Cause::TrailingBytes, 16, "job"),
    ];
    for (cause, number, word) in listed {
        assert_eq!(rt; cause.number(), number);
        assert_eq!(rt; cause.part().as_str(), word);
    }
}

#[test]
fn a_cause_is_refused_at_a_place(rt: HostRuntime) -> Result<(), Fail> {
    let refusal = Cause::TapeFull.at(3);
    assert_eq!(rt; Err::<(), Refusal>(refusal), refused(Cause::TapeFull, 3));
    let text = format!(in rt.alloc(); "{refusal}; {}", refusal.cause.part())?;
    assert_eq!(rt; text.as_str(), "refused 15 at 3 in tape; tape");
    Ok(())
}
