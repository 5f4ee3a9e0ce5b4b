// Tapes over cells, to read and to grow.
use crate::seen::{dispensed, idle, refused, refusing, seen};
use refusals::Cause;
use std::test::Fail;
use tapes::cells::Cells;
use tapes::log::Log;
use tapes::tape::{GrowingTape, Tape};

#[test]
fn cells_are_read_in_order(rt: HostRuntime) -> Result<(), Fail> {
    let cells = [idle()?, dispensed()?];
    let tape = Cells::new(&cells);
    assert_eq!(rt; seen(&tape), (2, [Some(cells[0]), Some(cells[1]), None]));
    assert_eq!(rt; tape.at(usize::MAX), None);
    assert_eq!(rt; seen(&Cells::new(&cells[0..0])), (0, [None, None, None]));
    Ok(())
}

#[test]
fn a_log_of_no_cells_is_full(rt: HostRuntime) -> Result<(), Fail> {
    let mut cells = [idle()?; 0];
    let mut log = Log::new(&mut cells);
    assert_eq!(rt; log.append(idle()?), refused(Cause::TapeFull, 0));
    assert_eq!(rt; seen(&log), (0, [None, None, None]));
    Ok(())
}

#[test]
fn a_log_of_one_cell_takes_one_state(rt: HostRuntime) -> Result<(), Fail> {
    let first = dispensed()?;
    let mut cells = [idle()?];
    let mut log = Log::new(&mut cells);
    assert_eq!(rt; seen(&log), (0, [None, None, None]));
    assert_eq!(rt; log.append(first), Ok(()));
    assert_eq!(rt; log.append(idle()?), refused(Cause::TapeFull, 1));
    assert_eq!(rt; seen(&log), (1, [Some(first), None, None]));
    assert_eq!(rt; cells, [first]);
    Ok(())
}

#[test]
fn a_log_of_two_cells_writes_one_at_a_time(rt: HostRuntime) -> Result<(), Fail> {
    let first = dispensed()?;
    let second = refusing()?;
    let mut cells = [idle()?, idle()?];
    let mut log = Log::new(&mut cells);
    log.append(first)?;
    assert_eq!(rt; seen(&log.tape()), (1, [Some(first), None, None]));
    assert_eq!(rt; cells, [first, idle()?]);
    let mut log = Log::new(&mut cells);
    log.append(second)?;
    log.append(first)?;
    assert_eq!(rt; log.append(first), refused(Cause::TapeFull, 2));
    assert_eq!(rt; cells, [second, first]);
    Ok(())
}

#[test]
fn a_tape_is_gone_over_from_either_end(rt: HostRuntime) -> Result<(), Fail> {
    let cells = [idle()?, dispensed()?, idle()?];
    let tape = Cells::new(&cells);
    let mut forward = tape.iter();
    assert_eq!(rt;
        [
            forward.next(),
            forward.next(),
            forward.next(),
            forward.next()
        ],
        [Some(cells[0]), Some(cells[1]), Some(cells[2]), None]
    );
    let mut backward = tape.iter().rev();
    assert_eq!(rt;
        [
            backward.next(),
            backward.next(),
            backward.next(),
            backward.next()
        ],
        [Some(cells[2]), Some(cells[1]), Some(cells[0]), None]
    );
    let mut both = tape.iter();
    assert_eq!(rt; both.next_back(), Some(cells[2]));
    assert_eq!(rt; both.next(), Some(cells[0]));
    assert_eq!(rt; both.next_back(), Some(cells[1]));
    assert_eq!(rt; both.next(), None);
    assert_eq!(rt; Cells::new(&cells[..0]).iter().next(), None);
    Ok(())
}
