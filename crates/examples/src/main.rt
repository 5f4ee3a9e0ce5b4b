// The judged examples: rules on short heap tapes, computed and printed.
#![tactic(auto)]

mod formula;
mod judged;

use crate::judged::show_judged;

fn main(rt: HostRuntime) -> anyhow::Result<()> {
    show_judged(&rt)
}
