// Windows over tapes to read and to grow, and over windows.
use crate::seen::{dispensed, idle, refused, refusing, seen};
use refusals::Cause;
use states::valve::ValveRecord;
use std::test::Fail;
use tapes::cells::Cells;
use tapes::log::Log;
use tapes::tape::{GrowingTape, Tape};
use tapes::valve_tape::ValveTape;
use tapes::window::Window;

#[test]
fn bounds_are_checked(rt: HostRuntime) -> Result<(), Fail> {
    let cells = [idle()?; 3];
    let tape = Cells::new(&cells);
    for (start, end) in [(0, 0), (0, 3), (1, 2), (2, 2), (3, 3)] {
        assert_eq!(rt; Window::check(&tape, start..end), Ok(()));
    }
    for (start, end) in [(0, 4), (2, 1), (3, 4), (4, 4), (4, 3)] {
        assert_eq!(rt;
            Window::check(&tape, start..end),
            refused(Cause::BadWindow, start)
        );
    }
    for (start, end) in [(0, usize::MAX), (usize::MAX, 0), (usize::MAX, usize::MAX)] {
        assert_eq!(rt;
            Window::check(&tape, start..end),
            refused(Cause::BadWindow, start)
        );
    }
    Ok(())
}

#[test]
fn a_window_is_that_part(rt: HostRuntime) -> Result<(), Fail> {
    let first = idle()?;
    let second = refusing()?;
    let third = dispensed()?;
    let cells = [first, second, third];
    let tape = Cells::new(&cells);
    Window::check(&tape, 1..3)?;
    let window = Window::new(tape, 1..3);
    assert_eq!(rt; seen(&window), (2, [Some(second), Some(third), None]));
    assert_eq!(rt; window.at(usize::MAX), None);
    assert_eq!(rt; Window::check(&window, 0..3), refused(Cause::BadWindow, 0));
    Window::check(&window, 1..2)?;
    let inner = Window::new(window, 1..2);
    assert_eq!(rt; seen(&inner), (1, [Some(third), None, None]));
    Ok(())
}

#[test]
fn a_growing_tape_has_windows(rt: HostRuntime) -> Result<(), Fail> {
    let first = idle()?;
    let second = refusing()?;
    let mut cells = [first; 3];
    let mut log = Log::new(&mut cells);
    log.append(first)?;
    log.append(second)?;
    assert_eq!(rt; Window::check(&log, 1..3), refused(Cause::BadWindow, 1));
    let tape = log.tape();
    Window::check(&tape, 1..2)?;
    assert_eq!(rt;
        seen(&Window::new(tape, 1..2)),
        (1, [Some(second), None, None])
    );
    Ok(())
}

#[test]
fn an_empty_window_has_no_state(rt: HostRuntime) -> Result<(), Fail> {
    let bytes = [0, 1, 1];
    let tape = ValveTape::new(&bytes)?;
    Window::check(&tape, 0..1)?;
    let all = Window::new(tape, 0..1);
    assert_eq!(rt;
        seen(&all),
        (1, [Some(ValveRecord::new(1, 1)?), None, None])
    );
    Window::check(&tape, 1..1)?;
    assert_eq!(rt; seen(&Window::new(tape, 1..1)), (0, [None, None, None]));
    Ok(())
}

#[test]
fn a_window_takes_a_growing_tape_along(rt: HostRuntime) -> Result<(), Fail> {
    let first = idle()?;
    let second = refusing()?;
    let mut cells = [first; 3];
    let mut log = Log::new(&mut cells);
    log.append(first)?;
    log.append(second)?;
    Window::check(&log, 1..2)?;
    assert_eq!(rt;
        seen(&Window::new(log, 1..2)),
        (1, [Some(second), None, None])
    );
    Ok(())
}

// That a window of any tape can stand in a closure's bound.
fn asked<T: Tape + Drop, F: FnOnce(Window<T>) -> usize>(window: Window<T>, ask: F) -> usize
    requires { F.IsAlwaysCallable ask }
{
    ask(window)
}

#[test]
fn a_window_is_handed_to_a_closure(rt: HostRuntime) -> Result<(), Fail> {
    let cells = [idle()?; 3];
    let tape = Cells::new(&cells);
    Window::check(&tape, 1..3)?;
    assert_eq!(rt; asked(Window::new(tape, 1..3), |window| window.len()), 2);
    Ok(())
}
