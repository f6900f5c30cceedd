// How the cost of the calls grows with the work. Without an argument a small run says what comes out; with the argument
// `times` the full one says how long each piece of work takes, and how many times as long as the one before.
#![tactic(auto)]

mod auditing;
mod growing;
mod judging;
mod loading;
mod meter;
mod searching;
mod studies;
mod texts;
mod wheel;
mod words;

use crate::meter::Meter;
use std::env;

fn run(rt: &HostRuntime, timed: bool) -> anyhow::Result<()> {
    let mut meter = Meter::new(rt, timed);
    judging::series(&mut meter)?;
    searching::computed(&mut meter)?;
    searching::listed(&mut meter)?;
    auditing::series(&mut meter)?;
    growing::series(&mut meter)?;
    loading::series(&mut meter)
}

// Whether the first argument is `times`.
fn wants_times(rt: &HostRuntime) -> anyhow::Result<bool> {
    let first = env::args(rt)?.nth(1);
    Ok(first.is_some_and(|word| word.as_str() == "times"))
}

fn main(rt: HostRuntime) -> anyhow::Result<()> {
    let timed = wants_times(&rt)?;
    run(&rt, timed)
}
