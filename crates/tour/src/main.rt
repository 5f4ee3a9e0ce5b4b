// A tour of the parts at work: a heap tape grows until it is full, a window looks at part of it, and
// valve records go into bytes and come back.
#![tactic(auto)]

use refusals::Refusal;
use states::heap::HeapRecord;
use states::state::State;
use states::valve::ValveRecord;
use std::io;
use tapes::log::Log;
use tapes::tape::{GrowingTape, Tape};
use tapes::valve_log::ValveLog;
use tapes::valve_tape::ValveTape;
use tapes::window::Window;

// A line for each state: the answer to each word of its kind.
fn show_states<T: Tape>(rt: &impl Print, tape: &T) -> io::Result<()> {
    for (place, state) in tape.iter().enumerate() {
        print!(rt; "  {place}:")?;
        for (atom, word) in T::Item::word_list().split(' ').enumerate() {
            print!(rt; " {word} {}", state.answer(atom))?;
        }
        println!(rt)?;
    }
    Ok(())
}

// A line for why something was refused, if it was.
fn show_refusal<T: Drop>(rt: &impl Print, outcome: Result<T, Refusal>) -> io::Result<()> {
    match outcome {
        Ok(_) => Ok(()),
        Err(refusal) => println!(rt; "  {refusal}"),
    }
}

// Notes the records one by one, and tells what came of each.
fn note_all(rt: &impl Print, log: &mut Log<HeapRecord>, records: &[HeapRecord]) -> io::Result<()> {
    for record in records {
        match log.append(*record) {
            Ok(()) => println!(rt; "  {record}: noted")?,
            Err(refusal) => println!(rt; "  {record}: {refusal}")?,
        }
    }
    Ok(())
}

fn show_heap(rt: &impl Print) -> anyhow::Result<()> {
    let idle = HeapRecord::new(1_000, 400, 0, HeapRecord::IDLE)?;
    let refused = HeapRecord::new(1_000, 400, 500, HeapRecord::REFUSED)?;
    let dispensed = HeapRecord::new(1_000, 400, 300, HeapRecord::DISPENSED)?;
    println!(rt; "heap tape over three cells")?;
    let mut cells = [idle; 3];
    let mut log = Log::new(&mut cells);
    note_all(rt, &mut log, &[refused, idle, dispensed, refused])?;
    show_states(rt, &log)?;
    println!(rt; "window from 1 to 3")?;
    Window::check(&log, 1..3)?;
    show_states(rt, &Window::new(log.tape(), 1..3))?;
    println!(rt; "window from 2 to 4")?;
    show_refusal(rt, Window::check(&log, 2..4))?;
    Ok(())
}

fn show_valves(rt: &impl Print) -> anyhow::Result<()> {
    println!(rt; "valve tape over eight bytes")?;
    let mut bytes = [0xff; 8];
    let mut log = ValveLog::new(&mut bytes);
    log.append(ValveRecord::new(0x1234, 1)?)?;
    log.append(ValveRecord::new(0, 1)?)?;
    show_refusal(rt, log.append(ValveRecord::new(1, 0)?))?;
    print!(rt; "  bytes:")?;
    for byte in bytes {
        print!(rt; " {byte:02x}")?;
    }
    println!(rt)?;
    show_states(rt, &ValveTape::new(&bytes[0..6])?)?;
    show_refusal(rt, ValveTape::new(&bytes))?;
    Ok(())
}

// A record of each kind that is refused.
fn show_refused_records(rt: &impl Print) -> io::Result<()> {
    println!(rt; "unlawful records")?;
    show_refusal(rt, HeapRecord::new(1_000, 1_001, 0, HeapRecord::IDLE))?;
    show_refusal(rt, ValveRecord::new(0, 2))?;
    Ok(())
}

fn run(rt: &impl Print) -> anyhow::Result<()> {
    show_heap(rt)?;
    show_valves(rt)?;
    show_refused_records(rt)?;
    Ok(())
}

fn main(rt: HostRuntime) -> anyhow::Result<()> {
    run(&rt)
}
