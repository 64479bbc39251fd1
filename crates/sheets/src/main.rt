//! Writes and reads sheets by hand: a script on standard input, one line for each record or question.
//! With a number as its argument it measures instead how long the largest sheet takes, so many times.
#![tactic(auto)]

use std::env;

mod desk;
mod filling;
mod line;
mod listing;
mod speed;
mod stage;

fn main(rt: HostRuntime) -> anyhow::Result<()> {
    let mut args = env::args(&rt)?;
    let _ = args.next();
    match args.next() {
        Some(times) => speed::measure(&rt, times.as_str()),
        None => desk::follow(&rt),
    }
}
