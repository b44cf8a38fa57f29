//! Which event comes next.
use crate::event::{Event, Node, Step};
use crate::plan::Plan;
use crate::random::Random;
use blocks::EXTENT_BLOCKS;

/// How often something troubles a node or the link.
#[derive(Clone, Copy)]
pub(crate) struct Mood {
    /// Of a thousand events.
    troubles: u64,
}

impl Mood {
    /// Returns a mood: some seeds are calm, and others are not.
    pub(crate) fn pick(random: &mut Random) -> Mood {
        Mood {
            troubles: match random.below(3) {
                0 => 4,
                1 => 20,
                _ => 60,
            },
        }
    }

    /// Returns the next event, where both nodes run or not: one for which there is an occasion, most of the time.
    pub(crate) fn choose(&self, plan: &Plan, are_running: bool, random: &mut Random) -> Event {
        if !are_running && random.one_in(3) {
            return Event::Start;
        }
        if random.below(1000) < self.troubles {
            return trouble(plan, random);
        }
        match random.below(100) {
            0..=19 => write(plan, random),
            20..=21 => read(plan, random),
            22..=27 => Event::Flush,
            28..=39 => house(plan, random),
            40..=92 => steps(random),
            93..=97 => Event::Reconnect,
            _ => Event::Work {
                rounds: random.between(1, 300),
            },
        }
    }
}

// Returns a write.
fn write(plan: &Plan, random: &mut Random) -> Event {
    let count = if random.one_in(2) {
        1
    } else {
        random.between(1, 32)
    };
    let first = place(plan, random, count);
    Event::Write { first, count }
}

// Returns a read.
fn read(plan: &Plan, random: &mut Random) -> Event {
    let count = random.between(1, 8);
    let first = place(plan, random, count);
    Event::Read { first, count }
}

// Returns the first of `count` blocks inside an extent: near its beginning, or now and then at its end.
fn place(plan: &Plan, random: &mut Random, count: u64) -> u64 {
    let extent = random.below(plan.extents());
    let begin = extent.saturating_mul(EXTENT_BLOCKS);
    let end = plan.blocks().min(begin.saturating_add(EXTENT_BLOCKS));
    if random.one_in(8) {
        return end.saturating_sub(count);
    }
    let offset = random.below(if plan.is_large() { 4 } else { 40 });
    begin.saturating_add(offset)
}

// Returns a step of the housekeeping, where extents may leave.
fn house(plan: &Plan, random: &mut Random) -> Event {
    if plan.is_large() {
        Event::House {
            most: random.between(1, 6),
        }
    } else {
        steps(random)
    }
}

// Returns steps of a node.
fn steps(random: &mut Random) -> Event {
    let step = match random.below(8) {
        0 | 1 => Step::Send,
        2 => Step::AckIn,
        3 => Step::WriteNext,
        4 => Step::ResyncNext,
        5 => Step::Receive,
        6 => Step::ApplyNext,
        _ => Step::AckOut,
    };
    let times = if random.one_in(2) {
        random.between(1, 3)
    } else {
        random.between(1, 24)
    };
    Event::Steps { step, times }
}

// Returns something that troubles a node or the link.
fn trouble(plan: &Plan, random: &mut Random) -> Event {
    let node = if random.one_in(2) {
        Node::Primary
    } else {
        Node::Secondary
    };
    match random.below(70) {
        0..=19 => Event::Cut {
            there: random.below(6),
            back: random.below(6),
        },
        20..=29 => Event::Close(node),
        30..=39 => Event::FailDisk {
            node,
            after: random.below(12),
            count: random.between(1, 6),
            part: random.next(),
        },
        40..=41 => Event::FailFile {
            node,
            after: random.below(24),
            count: random.between(1, 2),
        },
        42..=43 => Event::End,
        44..=45 => Event::Start,
        _ => stop(plan, node, random),
    }
}

// Returns something that stops a node, less often on a large device, where a start copies much.
fn stop(plan: &Plan, node: Node, random: &mut Random) -> Event {
    if plan.is_large() && !random.one_in(4) {
        return Event::Flush;
    }
    match random.below(3) {
        0 => Event::Kill(node),
        1 => Event::Stop {
            node,
            after: random.below(20),
            part: random.next(),
        },
        _ => Event::CutPower {
            node,
            seed: random.next(),
        },
    }
}
