// The judged examples: rules on short heap tapes, each with its verdict, overdue count and shared
// nodes.
use crate::formula::Formula;
use refusals::Refusal;
use states::heap::HeapRecord;
use std::{fmt, io};
use tallies::overdue::Overdue;
use tallies::shared::Shared;
use tallies::verdict::Verdict;
use temporal::operators::{Binary, Unary};

// What a tally comes to; none is printed as `-`.
#[derive(Clone, Copy)]
struct Worth(Option<u64>);

impl fmt::Display for Worth {
    fn fmt<W: fmt::Write>(&self, f: &mut fmt::Formatter<W>) -> fmt::Result {
        match self.0 {
            Some(number) => write!(f, "{number}"),
            None => f.write_str("-"),
        }
    }
}

// A line for one rule on one tape.
fn show_row(
    rt: &impl Print,
    rule: &str,
    formula: &Formula,
    tape: &str,
    states: &[HeapRecord],
) -> io::Result<()> {
    let verdict: Verdict = formula.worth(false, 0, states);
    let overdue: Overdue = formula.worth(false, 0, states);
    let shared: Shared = formula.worth(false, 0, states);
    let overdue = Worth(overdue.map(|count| u64::from(count.number())));
    let shared = Worth(shared.map(|nodes| nodes.sum()));
    println!(rt; "  {rule} on {tape}: {verdict} {overdue} {shared}")
}

pub(crate) fn show_judged(rt: &HostRuntime) -> anyhow::Result<()> {
    let heap = rt.alloc();
    // The heap record's atoms that the rules name.
    let enough = 1;
    let refused = 3;
    let dispensed = 4;
    let q = HeapRecord::new(1_000, 400, 0, HeapRecord::IDLE)?;
    let r = HeapRecord::new(1_000, 400, 500, HeapRecord::REFUSED)?;
    let d = HeapRecord::new(1_000, 400, 300, HeapRecord::DISPENSED)?;
    println!(rt; "judged examples: verdict, overdue, shared")?;
    let rule = "eventually dispensed";
    let eventually = Formula::one(heap, Unary::Eventually, Formula::Atom(dispensed))?;
    show_row(rt, rule, &eventually, "q q d", &[q, q, d])?;
    show_row(rt, rule, &eventually, "d q", &[d, q])?;
    show_row(rt, rule, &eventually, "q", &[q])?;
    let next = Formula::one(heap, Unary::Next, Formula::Atom(dispensed))?;
    show_row(rt, "next dispensed", &next, "d", &[d])?;
    let weak_next = Formula::not(heap, next)?;
    show_row(rt, "not next dispensed", &weak_next, "d", &[d])?;
    let rule = "always (refused implies eventually dispensed)";
    let implies = Formula::two(heap, Binary::Implies, Formula::Atom(refused), eventually)?;
    let answered = Formula::one(heap, Unary::Always, implies)?;
    show_row(rt, rule, &answered, "r d", &[r, d])?;
    show_row(rt, rule, &answered, "r r d", &[r, r, d])?;
    show_row(rt, rule, &answered, "d r", &[d, r])?;
    let until = Formula::two(
        heap,
        Binary::Until,
        Formula::Atom(enough),
        Formula::Atom(dispensed),
    )?;
    let released = Formula::not(heap, until)?;
    show_row(
        rt,
        "not (enough until dispensed)",
        &released,
        "r q",
        &[r, q],
    )?;
    Ok(())
}
