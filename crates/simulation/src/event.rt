//! The events of a simulation, and how they are spelled.
use crate::plan::WORDS;
use std::fmt;

/// A node.
#[derive(Clone, Copy, Debug, PartialEq, Eq)]
pub(crate) enum Node {
    Primary,
    Secondary,
}

/// A step of a node, as a thread of a role does it.
#[derive(Clone, Copy, PartialEq, Eq)]
pub(crate) enum Step {
    /// The primary sends a frame.
    Send,
    /// The primary takes a frame.
    AckIn,
    /// The primary's disk does a write.
    WriteNext,
    /// The primary reads a block for a resync.
    ResyncNext,
    /// The secondary takes a frame.
    Receive,
    /// The secondary's disk does an item.
    ApplyNext,
    /// The secondary sends a frame.
    AckOut,
}

/// What happens. An event for which there is no occasion does nothing, so that any list of them can be run.
#[derive(Clone, Copy)]
pub(crate) enum Event {
    /// A client writes these blocks.
    Write {
        first: u64,
        count: u64,
    },
    /// A client reads these blocks.
    Read {
        first: u64,
        count: u64,
    },
    /// A client asks for stable storage or, if one does, that goes on by a step.
    Flush,
    /// A node does a step, up to `times` times.
    Steps {
        step: Step,
        times: u64,
    },
    /// Both nodes do all of their steps, for up to `rounds` rounds.
    Work {
        rounds: u64,
    },
    /// The link breaks: only the first frames of each direction that are on their way still arrive.
    Cut {
        there: u64,
        back: u64,
    },
    /// A node closes its end.
    Close(Node),
    /// Both ends open again, if they are closed or the link is broken.
    Reconnect,
    /// The housekeeping goes on by a step: up to `most` extents are prepared, both disks are synced, and those extents leave the metadata.
    House {
        most: u64,
    },
    /// Calls of a node's disk fail.
    FailDisk {
        node: Node,
        after: u64,
        count: u64,
        part: u64,
    },
    /// Calls of a node's metadata file fail.
    FailFile {
        node: Node,
        after: u64,
        count: u64,
    },
    /// A node's process stops in the middle of a call.
    Stop {
        node: Node,
        after: u64,
        part: u64,
    },
    /// A node's process stops between two calls.
    Kill(Node),
    /// The machine of a node loses power.
    CutPower {
        node: Node,
        seed: u64,
    },
    /// A session begins, over what the last one left.
    Start,
    /// Both nodes end as they are told to.
    End,
}

impl Node {
    // Returns the node of a number.
    fn of_number(number: u64) -> Option<Node> {
        match number {
            0 => Some(Node::Primary),
            1 => Some(Node::Secondary),
            _ => None,
        }
    }

    // Returns the node's number.
    fn number(self) -> u64 {
        match self {
            Node::Primary => 0,
            Node::Secondary => 1,
        }
    }
}

impl Step {
    // Returns the step that a word spells.
    fn of_word(word: &str) -> Option<Step> {
        match word {
            "send" => Some(Step::Send),
            "ack-in" => Some(Step::AckIn),
            "write-next" => Some(Step::WriteNext),
            "resync-next" => Some(Step::ResyncNext),
            "receive" => Some(Step::Receive),
            "apply-next" => Some(Step::ApplyNext),
            "ack-out" => Some(Step::AckOut),
            _ => None,
        }
    }

    /// Returns the word that spells the step.
    pub(crate) fn word(self) -> &'static str {
        match self {
            Step::Send => "send",
            Step::AckIn => "ack-in",
            Step::WriteNext => "write-next",
            Step::ResyncNext => "resync-next",
            Step::Receive => "receive",
            Step::ApplyNext => "apply-next",
            Step::AckOut => "ack-out",
        }
    }
}

impl Event {
    /// Returns the event that a word and numbers spell, as `Display` writes them.
    pub(crate) fn of_words(word: &str, numbers: [u64; WORDS]) -> Option<Event> {
        let [first, second, third, fourth, ..] = numbers;
        if let Some(step) = Step::of_word(word) {
            return Some(Event::Steps { step, times: first });
        }
        match word {
            "write" => Some(Event::Write {
                first,
                count: second,
            }),
            "read" => Some(Event::Read {
                first,
                count: second,
            }),
            "flush" => Some(Event::Flush),
            "work" => Some(Event::Work { rounds: first }),
            "cut" => Some(Event::Cut {
                there: first,
                back: second,
            }),
            "reconnect" => Some(Event::Reconnect),
            "house" => Some(Event::House { most: first }),
            "start" => Some(Event::Start),
            "end" => Some(Event::End),
            _ => match Node::of_number(first) {
                Some(node) => Event::of_trouble(word, node, second, third, fourth),
                None => None,
            },
        }
    }

    // Returns the event of a node's trouble.
    fn of_trouble(word: &str, node: Node, second: u64, third: u64, fourth: u64) -> Option<Event> {
        match word {
            "fail-disk" => Some(Event::FailDisk {
                node,
                after: second,
                count: third,
                part: fourth,
            }),
            "fail-file" => Some(Event::FailFile {
                node,
                after: second,
                count: third,
            }),
            "stop" => Some(Event::Stop {
                node,
                after: second,
                part: third,
            }),
            "close" => Some(Event::Close(node)),
            "kill" => Some(Event::Kill(node)),
            "cut-power" => Some(Event::CutPower { node, seed: second }),
            _ => None,
        }
    }

    /// Returns the word that spells the kind of event.
    pub(crate) fn word(&self) -> &'static str {
        match self {
            Event::Write { .. } => "write",
            Event::Read { .. } => "read",
            Event::Flush => "flush",
            Event::Steps { step, .. } => step.word(),
            Event::Work { .. } => "work",
            Event::Cut { .. } => "cut",
            Event::Close(_) => "close",
            Event::Reconnect => "reconnect",
            Event::House { .. } => "house",
            Event::FailDisk { .. } => "fail-disk",
            Event::FailFile { .. } => "fail-file",
            Event::Stop { .. } => "stop",
            Event::Kill(_) => "kill",
            Event::CutPower { .. } => "cut-power",
            Event::Start => "start",
            Event::End => "end",
        }
    }
}

impl fmt::Display for Event {
    fn fmt<W: fmt::Write>(&self, f: &mut fmt::Formatter<W>) -> fmt::Result {
        f.write_str(self.word())?;
        match *self {
            Event::Write { first, count } | Event::Read { first, count } => write!(
                f,
                " {first} {count}"
            ),
            Event::Flush | Event::Reconnect | Event::Start | Event::End => Ok(()),
            Event::Steps { times, .. } => write!(f, " {times}"),
            Event::Work { rounds } => write!(f, " {rounds}"),
            Event::Cut { there, back } => write!(f, " {there} {back}"),
            Event::House { most } => write!(f, " {most}"),
            Event::Close(node) | Event::Kill(node) => {
                let node = node.number();
                write!(f, " {node}")
            }
            Event::FailDisk {
                node,
                after,
                count,
                part,
            } => {
                let node = node.number();
                write!(f, " {node} {after} {count} {part}")
            }
            Event::FailFile { node, after, count } => {
                let node = node.number();
                write!(f, " {node} {after} {count}")
            }
            Event::Stop { node, after, part } => {
                let node = node.number();
                write!(f, " {node} {after} {part}")
            }
            Event::CutPower { node, seed } => {
                let node = node.number();
                write!(f, " {node} {seed}")
            }
        }
    }
}
