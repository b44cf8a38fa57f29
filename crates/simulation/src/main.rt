//! Simulates a mirror that loses everything but what its disks and its metadata files keep.
//!
//! `simulation [--seeds FROM COUNT] [--events N]` runs COUNT seeds (50) from FROM (1) on, for N events (200) each, and prints that every
//! promise was kept, and on standard error how often what came. `simulation --replay FILE` runs the events of a file. At a promise that
//! is broken it prints which, and a list of events that breaks it, and ends with status 1.
#![tactic(auto)]

mod arguments;
mod broken;
mod checking;
mod choosing;
mod contents;
mod counts;
mod disk;
mod ending;
mod event;
mod file;
mod flushing;
mod housekeeping;
mod kept;
mod machine;
mod mirror;
mod nodes;
mod plan;
mod process;
mod promises;
mod random;
mod reconnecting;
mod replaying;
mod rows;
mod running;
mod saved;
mod settling;
mod shortening;
mod starting;
mod stepping;
mod trouble;
mod wire;
mod world;

use anyhow::bail;
use arguments::{EVENTS, FIRST_SEED, Order, SEEDS, order_of};
use broken::Stopped;
use counts::Counts;
use event::Event;
use plan::Plan;
use replaying::{Script, script_of};
use rows::ROWS;
use running::{replay, run_seed};
use shortening::shorten;
use std::rt::Files;
use std::{env, fs};

const HELP: &str = "\
simulation [--seeds FROM COUNT] [--events N]
simulation --rows
simulation --replay FILE

Simulates a mirror of two nodes in one thread, by seeds: writes, reads and flushes, lost links, disks and metadata files that
fail, kills and power cuts at any call, and the next start from what they leave. After each event it checks what is promised.
docs/SIMULATION.md says what that is. COUNT is 50, FROM is 1, and N is 200 if none are given. How often what came goes to
standard error. At a promise that is broken it prints the events that break it, as --replay reads them, and ends with status 1.
--rows runs some worked rows once for each call that a node makes in them, of its disk or its file: it fails there, or the
process stops, or the machine loses power. Without words it runs both.";

fn main(rt: HostRuntime) -> anyhow::Result<()> {
    let words = env::args(&rt)?.collect::<Vec<String>>(rt.alloc())?;
    match order_of(words.as_slice()) {
        Some(Order::Help) => {
            println!(rt; "{HELP}")?;
            Ok(())
        }
        Some(Order::All) => {
            run_rows(&rt)?;
            run_seeds(&rt, FIRST_SEED, SEEDS, EVENTS)
        }
        Some(Order::Rows) => run_rows(&rt),
        Some(Order::Replay { file }) => replay_file(&rt, file),
        Some(
            Order::Seeds {
                from,
                count,
                events,
            },
        ) => run_seeds(&rt, from, count, events),
        None => bail!(
            "usage: simulation [--seeds FROM COUNT] [--events N], simulation --rows, or simulation --replay FILE"
        ),
    }
}

// Stops the worked rows at each call, and prints in how many runs.
fn run_rows<R: Print + AllocGlobal>(rt: &R) -> anyhow::Result<()> {
    for row in &ROWS {
        match row.stop_everywhere(rt.alloc()) {
            Ok(runs) => println!(rt; "{}: {runs} runs: every promise was kept", row.name)?,
            Err(failure) => bail!("{}: {failure}", row.name),
        }
    }
    Ok(())
}

// Runs seeds, and prints what came of them.
fn run_seeds<R: Print + Eprint + AllocGlobal>(
    rt: &R,
    from: u64,
    count: u64,
    events: u64,
) -> anyhow::Result<()> {
    let mut counts = Counts::new(rt.alloc());
    for seed in from..from.saturating_add(count) {
        run_one(rt, seed, events, &mut counts)?;
    }
    counts.sort();
    println!(rt; "{count} seeds from {from} on, {events} events each: every promise was kept")?;
    eprint!(rt; "{counts}")?;
    Ok(())
}

// Runs a seed, and counts what came. If it breaks a promise, it prints by which events, and returns an error.
fn run_one<R: Print + AllocGlobal>(
    rt: &R,
    seed: u64,
    events: u64,
    counts: &mut Counts,
) -> anyhow::Result<()> {
    let mut done = Vec::new(rt.alloc());
    let (plan, result) = run_seed(rt.alloc(), seed, events, counts, &mut done);
    match result {
        Ok(()) => Ok(()),
        Err(Stopped::NoMemory) => bail!("out of memory"),
        Err(stopped) => {
            println!(rt; "# seed {seed}: {stopped}, after {} events", done.len())?;
            tell_failure(rt, plan, &mut done)
        }
    }
}

// Shortens a list of events that breaks a promise, prints it, and returns an error.
fn tell_failure<R: Print + AllocGlobal>(
    rt: &R,
    plan: Plan,
    events: &mut Vec<Event>,
) -> anyhow::Result<()> {
    shorten(rt.alloc(), plan, events)?;
    if let Err(stopped) = replay(rt.alloc(), plan, events.as_slice()) {
        println!(rt; "# {stopped}, by these {} events:", events.len())?;
    }
    println!(rt; "{plan}")?;
    for event in events.iter() {
        println!(rt; "{event}")?;
    }
    bail!("a promise was broken")
}

// Runs the events of a file.
fn replay_file<R: Print + AllocGlobal + Files>(rt: &R, file: &str) -> anyhow::Result<()> {
    let text = fs::read_to_string(rt, file)?;
    match script_of(rt.alloc(), text.as_str())? {
        Some(script) => replay_script(rt, &script),
        None => bail!("{file} has a line that is no event and no plan"),
    }
}

// Runs the events of a script.
fn replay_script<R: Print + AllocGlobal>(rt: &R, script: &Script) -> anyhow::Result<()> {
    let Some(plan) = script.plan else {
        bail!("the events have no plan");
    };
    match replay(rt.alloc(), plan, script.events.as_slice()) {
        Ok(()) => {
            println!(rt; "{} events: every promise was kept", script.events.len())?;
            Ok(())
        }
        Err(stopped) => {
            println!(rt; "{stopped}")?;
            bail!("a promise was broken")
        }
    }
}
