//! Worked rows that are stopped, and whose calls fail, at each call in turn.
use crate::broken::Stopped;
use crate::ending::finish;
use crate::event::{Event, Node};
use crate::kept::{Primary, Secondary};
use crate::mirror::Mirror;
use crate::nodes::{PrimaryNode, SecondaryNode};
use crate::plan::Plan;
use crate::replaying::events_of;
use crate::running::follow;
use crate::starting::start;
use blocks::{Protocol, Settings};
use std::alloc::Global;
use std::fmt;

/// Blocks of the rows' devices.
const BLOCKS: u32 = 8;

/// By how many numbers a call that stops does a part.
const PARTS: u64 = 4;

/// How many seeds say what a power cut leaves.
const READINGS: u64 = 4;

/// How many troubles each node has in a row.
const TROUBLES: u64 = 1 + 2 * PARTS + READINGS;

/// A worked row: what it shows, its events as `--replay` reads them, and what has come about after these if nothing troubles them, as it is
/// counted.
#[derive(Clone, Copy)]
pub(crate) struct Row {
    pub(crate) name: &'static str,
    events: &'static str,
    reaches: &'static str,
}

/// What befalls a node in a row.
#[derive(Clone, Copy, Debug)]
pub(crate) enum Trouble {
    /// A call of its metadata file fails.
    FileFails,
    /// A call of its disk fails, and by a number a part of it is done.
    DiskFails(u64),
    /// Its process stops in a call, and by a number a part of it is done.
    Stops(u64),
    /// Its machine loses power in a call: this seed says what is left.
    LosesPower(u64),
}

/// When what befalls which node.
#[derive(Clone, Copy, Debug)]
pub(crate) struct Place {
    node: Node,
    trouble: Trouble,
    /// After this many calls of the node.
    after: u64,
}

/// Why a row fails.
#[derive(Clone, Copy)]
pub(crate) enum Failure {
    /// It has a line that spells no event, or there is no memory to read it.
    Unread,
    /// It does not reach what it is for.
    Misses,
    /// It ends early, though nothing troubles it.
    Ends(Stopped),
    /// It ends early with a trouble.
    EndsIn(Place, Stopped),
}

/// The rows.
pub(crate) const ROWS: [Row; 6] = [
    Row {
        name: "one write",
        events: "\
send 8
receive 8
ack-out 8
ack-in 8
write 2 1
write-next 1
send 1
receive 1
apply-next 1
ack-out 1
ack-in 1",
        reaches: "writes that were accepted",
    },
    Row {
        name: "epochs are applied in order",
        events: "\
send 8
receive 8
ack-out 8
ack-in 8
write 0 1
write 1 1
write-next 1
write-next 1
send 1
send 1
receive 1
receive 1
apply-next 1
ack-out 1
ack-in 1
write 2 1
send 1
send 1
receive 1
receive 1
apply-next 1
apply-next 1
ack-out 1
ack-in 1
ack-out 1
ack-in 1
ack-out 1
ack-in 1
write-next 1",
        reaches: "writes that were accepted",
    },
    Row {
        name: "a resync of two blocks",
        events: "\
send 8
receive 8
ack-out 8
ack-in 8
close 0
close 1
write 3 1
write 6 1
write-next 1
write-next 1
reconnect
send 8
receive 8
ack-out 8
ack-in 8
send 1
receive 1
resync-next 1
send 1
receive 1
apply-next 1
ack-out 1
ack-in 1
resync-next 1
send 1
send 1
receive 1
receive 1
apply-next 1
ack-out 1
ack-out 1
ack-in 1
ack-in 1
send 1
send 1
receive 1
receive 1",
        reaches: "copies that ended",
    },
    Row {
        name: "an unfinished end leads to a full resync",
        events: "\
send 8
receive 8
ack-out 8
ack-in 8
close 0
close 1
write 3 1
write 6 1
write-next 1
write-next 1
reconnect
send 8
receive 8
ack-out 8
ack-in 8
send 1
receive 1
resync-next 1
send 1
receive 1
apply-next 1
ack-out 1
ack-in 1
resync-next 1
send 1
send 1
receive 1
receive 1
apply-next 1
ack-out 1
ack-out 1
ack-in 1
ack-in 1
close 0
close 1
reconnect
send 8
receive 8
ack-out 8
ack-in 8",
        reaches: "connections that copy all",
    },
    Row {
        name: "a write beside a block under way",
        events: "\
send 8
receive 8
ack-out 8
ack-in 8
close 0
close 1
write 3 1
write 6 1
write-next 1
write-next 1
reconnect
send 8
receive 8
ack-out 8
ack-in 8
resync-next 1
write 2 2
write 6 1
send 1
send 1
send 1
receive 1
receive 1
receive 1
apply-next 1
ack-out 1
ack-in 1
resync-next 1",
        reaches: "connections that copy what is marked",
    },
    Row {
        name: "a local fault",
        events: "\
send 8
receive 8
ack-out 8
ack-in 8
write 2 2
fail-disk 0 0 1 1
write-next 1
read 2 1
read 3 1
write 3 1
write-next 1",
        reaches: "writes that the local disk failed",
    },
];

impl Row {
    /// Runs the row once for each call that either node makes in it, of its disk or of its file, for each trouble that it may have there;
    /// after it everything is started again, comes to rest, and has what was promised. Returns how many runs there were.
    pub(crate) fn stop_everywhere(&self, alloc: Global) -> Result<u64, Failure> {
        match events_of(alloc, self.events) {
            Ok(Some(events)) => stop_everywhere(alloc, events.as_slice(), self.reaches),
            _ => Err(Failure::Unread),
        }
    }
}

// Runs these events for each call and each trouble, if they reach what they are for. Returns how many runs there were.
fn stop_everywhere(alloc: Global, events: &[Event], reaches: &str) -> Result<u64, Failure> {
    match reaches_it(alloc, events, reaches) {
        Ok(true) => {}
        Ok(false) => return Err(Failure::Misses),
        Err(stopped) => return Err(Failure::Ends(stopped)),
    }
    let mut runs = 0u64;
    for node in [Node::Primary, Node::Secondary] {
        for number in 0..TROUBLES {
            let more = stop_at_each_call(alloc, events, node, trouble_of(number))?;
            runs = runs.saturating_add(more);
        }
    }
    Ok(runs)
}

// Runs these events for each call until the trouble is behind all of them. Returns how many runs there were.
fn stop_at_each_call(
    alloc: Global,
    events: &[Event],
    node: Node,
    trouble: Trouble,
) -> Result<u64, Failure> {
    for after in 0..u64::MAX {
        let place = Place {
            node,
            trouble,
            after,
        };
        match run(alloc, events, place) {
            Ok(true) => {}
            Ok(false) => return Ok(after.saturating_add(1)),
            Err(stopped) => return Err(Failure::EndsIn(place, stopped)),
        }
    }
    Ok(u64::MAX)
}

// Runs these events with no trouble. Returns whether they reach what they are for.
fn reaches_it(alloc: Global, events: &[Event], reaches: &str) -> Result<bool, Stopped> {
    match Mirror::<Primary, Secondary>::new(alloc, plan()) {
        Ok(mut mirror) => reaches_over(&mut mirror, events, reaches),
        Err(stopped) => Err(stopped),
    }
}

// Runs these events over new disks. Returns whether they reach what they are for.
fn reaches_over<P: PrimaryNode, S: SecondaryNode>(
    mirror: &mut Mirror<P, S>,
    events: &[Event],
    reaches: &str,
) -> Result<bool, Stopped> {
    start(mirror)?;
    follow(mirror, events)?;
    Ok(mirror.world.counts.has(reaches))
}

// Runs these events with a trouble. Returns whether it was met.
fn run(alloc: Global, events: &[Event], place: Place) -> Result<bool, Stopped> {
    match Mirror::<Primary, Secondary>::new(alloc, plan()) {
        Ok(mut mirror) => run_over(&mut mirror, events, place),
        Err(stopped) => Err(stopped),
    }
}

// Runs these events over new disks with a trouble, starts everything again and has it come to rest. Returns whether the trouble was met.
fn run_over<P: PrimaryNode, S: SecondaryNode>(
    mirror: &mut Mirror<P, S>,
    events: &[Event],
    place: Place,
) -> Result<bool, Stopped> {
    start(mirror)?;
    let begun = mirror.world.machine(place.node).process.calls();
    follow(mirror, &[place.event(), Event::Start])?;
    follow(mirror, events)?;
    let calls = mirror.world.machine(place.node).process.calls();
    if let Trouble::LosesPower(seed) = place.trouble {
        let node = place.node;
        follow(mirror, &[Event::CutPower { node, seed }])?;
    }
    follow(mirror, &[Event::Start])?;
    finish(mirror)?;
    Ok(calls.saturating_sub(begun) > place.after)
}

// Returns the plan of every row.
fn plan() -> Plan {
    Plan {
        settings: Settings {
            protocol: Protocol::C,
            blocks: BLOCKS,
            ..Settings::STANDARD
        },
        is_one_machine: false,
    }
}

// Returns the trouble of a number below `TROUBLES`.
fn trouble_of(number: u64) -> Trouble {
    if number == 0 {
        Trouble::FileFails
    } else if number <= PARTS {
        Trouble::DiskFails(number)
    } else if number <= 2 * PARTS {
        Trouble::Stops(number)
    } else {
        Trouble::LosesPower(number)
    }
}

impl Place {
    // Returns the event by which the trouble comes.
    fn event(self) -> Event {
        let Place {
            node,
            trouble,
            after,
        } = self;
        match trouble {
            Trouble::FileFails => Event::FailFile {
                node,
                after,
                count: 1,
            },
            Trouble::DiskFails(part) => Event::FailDisk {
                node,
                after,
                count: 1,
                part,
            },
            Trouble::Stops(part) | Trouble::LosesPower(part) => Event::Stop { node, after, part },
        }
    }
}

impl fmt::Display for Failure {
    fn fmt<W: fmt::Write>(&self, f: &mut fmt::Formatter<W>) -> fmt::Result {
        match self {
            Failure::Unread => f.write_str("its events cannot be read"),
            Failure::Misses => f.write_str("it does not reach what it is for"),
            Failure::Ends(stopped) => write!(f, "{stopped}"),
            Failure::EndsIn(place, stopped) => write!(f, "{place:?}: {stopped}"),
        }
    }
}
