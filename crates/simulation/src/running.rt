//! Running a seed, or a list of events.
use crate::broken::Stopped;
use crate::choosing::Mood;
use crate::counts::Counts;
use crate::ending::finish;
use crate::event::Event;
use crate::kept::{Primary, Secondary};
use crate::mirror::Mirror;
use crate::nodes::{PrimaryNode, SecondaryNode};
use crate::plan::Plan;
use crate::random::Random;
use crate::starting::start;
use crate::stepping::step;
use std::alloc::Global;

/// Runs a seed for `events` events, and to the end. Counts what came, and adds the events to `done`. Returns the plan of the seed.
pub(crate) fn run_seed(
    alloc: Global,
    seed: u64,
    events: u64,
    counts: &mut Counts,
    done: &mut Vec<Event>,
) -> (Plan, Result<(), Stopped>) {
    let mut random = Random::new(seed);
    let plan = Plan::of_seed(&mut random);
    let result = match Mirror::<Primary, Secondary>::new(alloc, plan) {
        Ok(mut mirror) => live_and_count(&mut mirror, &mut random, events, counts, done),
        Err(stopped) => Err(stopped),
    };
    (plan, result)
}

// Goes on for `events` events, and to the end, and counts what came.
fn live_and_count<P: PrimaryNode, S: SecondaryNode>(
    mirror: &mut Mirror<P, S>,
    random: &mut Random,
    events: u64,
    counts: &mut Counts,
    done: &mut Vec<Event>,
) -> Result<(), Stopped> {
    let result = live(mirror, random, events, done);
    counts.add_all(&mirror.world.counts)?;
    result
}

// Goes on for `events` events, and to the end.
fn live<P: PrimaryNode, S: SecondaryNode>(
    mirror: &mut Mirror<P, S>,
    random: &mut Random,
    events: u64,
    done: &mut Vec<Event>,
) -> Result<(), Stopped> {
    start(mirror)?;
    let mood = Mood::pick(random);
    for _ in 0..events {
        let event = mood.choose(&mirror.world.plan, mirror.are_running(), random);
        done.push(event)?;
        step(mirror, event)?;
    }
    finish(mirror)
}

/// Runs a list of events, and to the end. An error says why it ended early.
pub(crate) fn replay(alloc: Global, plan: Plan, events: &[Event]) -> Result<(), Stopped> {
    match Mirror::<Primary, Secondary>::new(alloc, plan) {
        Ok(mut mirror) => follow_to_the_end(&mut mirror, events),
        Err(stopped) => Err(stopped),
    }
}

// Does these events, and goes on to the end.
fn follow_to_the_end<P: PrimaryNode, S: SecondaryNode>(
    mirror: &mut Mirror<P, S>,
    events: &[Event],
) -> Result<(), Stopped> {
    start(mirror)?;
    follow(mirror, events)?;
    finish(mirror)
}

/// Does these events.
pub(crate) fn follow<P: PrimaryNode, S: SecondaryNode>(
    mirror: &mut Mirror<P, S>,
    events: &[Event],
) -> Result<(), Stopped> {
    for event in events {
        step(mirror, *event)?;
    }
    Ok(())
}
