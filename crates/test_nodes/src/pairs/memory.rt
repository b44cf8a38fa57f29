//! Worked examples that pass also if a request for memory is refused. With ample memory none is; the script
//! `checks/refused_memory` refuses each request in turn.
use crate::pairs::events::{Given, Line};
use crate::pairs::resyncs::{BLOCK_PASSED_OVER, BLOCK_UNDER_WAY, RESYNC, UNHEARD_END};
use crate::pairs::rows::{EPOCHS, LOCAL_FAULT, Part, WRITE};
use crate::pairs::seen::{Seen, holds, let_go};
use blocks::{Refusal, Reply, Settings};
use pair::{Event, Pair, run};
use std::alloc::{AllocError, Global};
use std::io::Print;
use std::process::Abort;
use std::test::Fail;

/// How many requests for memory were refused. One request is refused at most: what was refused is done again, and is
/// not refused again.
#[derive(Drop)]
struct Refusals {
    met: u32,
}

impl Refusals {
    /// Records a refusal.
    fn note(&mut self, rt: &impl Abort) {
        assert_eq!(rt; self.met, 0, "memory is refused a second time");
        self.met = 1;
    }
}

/// The events of a part of a row, each as a list of its own.
type Events = Vec<[Event; 1]>;

/// Takes a pair through a row, and prints how many refusals it met.
fn runs(rt: &(impl Abort + AllocGlobal + Print), row: &'static [Part]) -> Result<(), Fail> {
    let mut refusals = Refusals { met: 0 };
    let events = made(rt, rt.alloc(), row, &mut refusals)?;
    begins(rt, row, &events, &mut refusals)?;
    let met = refusals.met;
    println!(rt; "refusals met: {met}")?;
    Ok(())
}

/// Takes a new pair through a row. The functions that take it by value do not return early, so that none has to drop
/// it.
fn begins(
    rt: &(impl Abort + AllocGlobal),
    row: &'static [Part],
    events: &[Events],
    refusals: &mut Refusals,
) -> Result<(), Refusal> {
    let pair = fresh(rt, rt.alloc(), refusals)?;
    goes(rt, pair, row, events, refusals);
    Ok(())
}

/// Takes the pair through a row.
fn goes(
    rt: &(impl Abort + AllocGlobal),
    mut pair: Pair,
    row: &'static [Part],
    events: &[Events],
    refusals: &mut Refusals,
) {
    for (part, events) in row.iter().zip(events) {
        pair = goes_on(rt, pair, part.lines, events, refusals);
        holds(rt, &mut pair, &part.after);
    }
    let_go(pair);
}

/// Takes the pair through a part of the row.
fn goes_on(
    rt: &(impl Abort + AllocGlobal),
    mut pair: Pair,
    lines: &'static [Line],
    events: &[[Event; 1]],
    refusals: &mut Refusals,
) -> Pair {
    for (line, event) in lines.iter().zip(events) {
        pair = answers(rt, pair, *line, event, refusals);
    }
    pair
}

/// Makes a pair with nothing done.
fn fresh(rt: &impl Abort, alloc: Global, refusals: &mut Refusals) -> Result<Pair, Refusal> {
    match Pair::fresh(alloc, Settings::STANDARD) {
        Err(Refusal::NoMemory) => refusals.note(rt),
        made => return made,
    }
    Pair::fresh(alloc, Settings::STANDARD)
}

/// Makes the events of a row with their contents.
fn made(
    rt: &impl Abort,
    alloc: Global,
    row: &'static [Part],
    refusals: &mut Refusals,
) -> Result<Vec<Events>, AllocError> {
    match row_events(alloc, row) {
        Err(AllocError) => refusals.note(rt),
        made => return made,
    }
    row_events(alloc, row)
}

fn row_events(alloc: Global, row: &'static [Part]) -> Result<Vec<Events>, AllocError> {
    let mut events = Vec::new(alloc);
    for part in row {
        events.push(part_events(alloc, part.lines)?)?;
    }
    Ok(events)
}

fn part_events(alloc: Global, lines: &'static [Line]) -> Result<Events, AllocError> {
    let mut events = Vec::new(alloc);
    for (given, _) in lines {
        events.push([given.event(alloc)?])?;
    }
    Ok(events)
}

/// Takes the pair through one event. Checks that the reply is the line's.
fn answers(
    rt: &(impl Abort + AllocGlobal),
    pair: Pair,
    (given, outcome): Line,
    event: &[Event; 1],
    refusals: &mut Refusals,
) -> Pair {
    let (pair, reply) = done(rt, pair, given, event, refusals);
    assert_eq!(rt; reply, Some(outcome.reply()), "{given:?}");
    pair
}

/// Gives the pair an event. If memory is refused, nothing has changed, and the event is given again.
fn done(
    rt: &(impl Abort + AllocGlobal),
    mut pair: Pair,
    given: Given,
    event: &[Event; 1],
    refusals: &mut Refusals,
) -> (Pair, Option<Reply>) {
    let may_run_out_of_memory = takes_memory(&pair, given);
    let before = Seen::of(&mut pair);
    let (mut pair, reply) = reply_to(rt, pair, event);
    if !is_out_of_memory(reply) {
        return (pair, reply);
    }
    refusals.note(rt);
    assert!(rt;
        reply.is_none() || may_run_out_of_memory,
        "{given:?} takes no memory"
    );
    assert_eq!(rt; Seen::of(&mut pair), before, "{given:?}");
    reply_to(rt, pair, event)
}

/// Gives the pair one event. Returns no reply if there was no memory to reply at all.
fn reply_to(
    rt: &(impl Abort + AllocGlobal),
    pair: Pair,
    event: &[Event; 1],
) -> (Pair, Option<Reply>) {
    match run(rt.alloc(), pair, event) {
        Ok((pair, replies)) => (pair, Some(only(rt, &replies))),
        Err((pair, refusal)) => {
            assert_eq!(rt; refusal, Refusal::NoMemory);
            (pair, None)
        }
    }
}

/// Returns the reply to one event.
fn only(rt: &impl Abort, replies: &[Reply]) -> Reply {
    assert_eq!(rt; replies.len(), 1);
    replies[0]
}

fn is_out_of_memory(reply: Option<Reply>) -> bool {
    matches!(reply, None | Some(Reply::Refused(Refusal::NoMemory)))
}

/// Returns whether the step of an event may take memory. What a disk does and what a close does takes none. Nor does an
/// acknowledgement that the primary takes after the stream has begun: its room was made before.
fn takes_memory(pair: &Pair, given: Given) -> bool {
    match given {
        Given::Local(_)
        | Given::LocalFault(_, _)
        | Given::Peer(_)
        | Given::PeerFault(_, _)
        | Given::ClosePrimary
        | Given::CloseSecondary => false,
        Given::AckIn => !pair.primary().is_established(),
        Given::Open(_, _)
        | Given::Submit(_, _, _)
        | Given::Send
        | Given::Receive
        | Given::AckOut
        | Given::Resync
        | Given::ResyncFault => true,
    }
}

#[test]
fn a_write_under_protocol_c_with_refused_memory(rt: HostRuntime) -> Result<(), Fail> {
    runs(&rt, &WRITE)
}

#[test]
fn epochs_in_order_with_refused_memory(rt: HostRuntime) -> Result<(), Fail> {
    runs(&rt, &EPOCHS)
}

#[test]
fn a_resync_of_marked_blocks_with_refused_memory(rt: HostRuntime) -> Result<(), Fail> {
    runs(&rt, &RESYNC)
}

#[test]
fn a_resync_whose_end_is_unheard_with_refused_memory(rt: HostRuntime) -> Result<(), Fail> {
    runs(&rt, &UNHEARD_END)
}

#[test]
fn a_write_beside_a_block_under_way_with_refused_memory(rt: HostRuntime) -> Result<(), Fail> {
    runs(&rt, &BLOCK_UNDER_WAY)
}

#[test]
fn a_write_that_a_resync_passes_over_with_refused_memory(rt: HostRuntime) -> Result<(), Fail> {
    runs(&rt, &BLOCK_PASSED_OVER)
}

#[test]
fn a_local_fault_with_refused_memory(rt: HostRuntime) -> Result<(), Fail> {
    runs(&rt, &LOCAL_FAULT)
}
