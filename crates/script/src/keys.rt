//! The keys of `pair`.
use blocks::{Protocol, Settings, Tuple};
use program_values::decimal;

/// The generation identifiers of a disk that no key names: its first generation, and none before it.
const FIRST: Tuple = Tuple {
    current: 1,
    bitmap: 0,
    first_historical: 0,
    second_historical: 0,
};

/// What a pair is made with.
#[derive(Clone, Copy)]
pub(crate) struct Keys {
    /// The settings; the default of each that no key names.
    pub(crate) settings: Settings,
    /// The primary's generation identifiers.
    pub(crate) own: Tuple,
    /// The secondary's.
    pub(crate) peer: Tuple,
}

impl Keys {
    /// Returns the values of a pair without keys: the default settings, and both tuples 1,0,0,0.
    pub(crate) fn standard() -> Keys {
        Given::nothing().or_standard()
    }

    /// Parses `KEY=VALUE` words, separated by one space.
    pub(crate) fn parse(words: &str) -> Option<Keys> {
        let mut given = Given::nothing();
        for word in words.split(' ') {
            let (name, value) = word.split_once('=')?;
            given.add(name, value)?;
        }
        Some(given.or_standard())
    }
}

/// The values that a line gives, by their keys. They stand apart from the defaults, so that a key that is given again is
/// seen also where its value is the default.
#[derive(Clone, Copy)]
struct Given {
    protocol: Option<Protocol>,
    blocks: Option<u32>,
    max_epoch: Option<u32>,
    slots: Option<u32>,
    backlog: Option<u32>,
    link: Option<u32>,
    pending: Option<u32>,
    own: Option<Tuple>,
    peer: Option<Tuple>,
}

impl Given {
    /// Returns the values of a line without keys.
    fn nothing() -> Given {
        Given {
            protocol: None,
            blocks: None,
            max_epoch: None,
            slots: None,
            backlog: None,
            link: None,
            pending: None,
            own: None,
            peer: None,
        }
    }

    /// Adds the value of the key with this name. `None` if there is no such key, if it was given before, or if the value
    /// is none of its own: then the line is no command.
    fn add(&mut self, name: &str, value: &str) -> Option<()> {
        match name {
            "protocol" => fill(&mut self.protocol, protocol(value)?),
            "blocks" => fill(&mut self.blocks, setting(value)?),
            "max_epoch" => fill(&mut self.max_epoch, setting(value)?),
            "slots" => fill(&mut self.slots, setting(value)?),
            "backlog" => fill(&mut self.backlog, setting(value)?),
            "link" => fill(&mut self.link, setting(value)?),
            "pending" => fill(&mut self.pending, setting(value)?),
            "own" => fill(&mut self.own, tuple(value)?),
            "peer" => fill(&mut self.peer, tuple(value)?),
            _ => None,
        }
    }

    /// Returns what a pair is made with: what the line gives, and the default of all else.
    fn or_standard(self) -> Keys {
        let standard = Settings::STANDARD;
        Keys {
            settings: Settings {
                protocol: self.protocol.unwrap_or(standard.protocol),
                blocks: self.blocks.unwrap_or(standard.blocks),
                max_epoch: self.max_epoch.unwrap_or(standard.max_epoch),
                slots: self.slots.unwrap_or(standard.slots),
                backlog: self.backlog.unwrap_or(standard.backlog),
                link: self.link.unwrap_or(standard.link),
                pending: self.pending.unwrap_or(standard.pending),
            },
            own: self.own.unwrap_or(FIRST),
            peer: self.peer.unwrap_or(FIRST),
        }
    }
}

/// Puts a value into an empty place. `None` if the place has one already: of two values for one key neither is meant
/// more than the other.
fn fill<T: Copy>(place: &mut Option<T>, value: T) -> Option<()> {
    if place.is_some() {
        return None;
    }
    *place = Some(value);
    Some(())
}

fn protocol(value: &str) -> Option<Protocol> {
    match value {
        "A" => Some(Protocol::A),
        "B" => Some(Protocol::B),
        "C" => Some(Protocol::C),
        _ => None,
    }
}

/// Parses a number. One of more than 32 bits becomes the greatest of 32 bits, which is as far out of every range.
fn setting(value: &str) -> Option<u32> {
    let number = decimal(value)?;
    Some(u32::try_from(number).unwrap_or(u32::MAX))
}

/// Parses `a,b,c,d`: the current identifier, the bitmap's and the two historical ones.
fn tuple(value: &str) -> Option<Tuple> {
    let (current, rest) = value.split_once(',')?;
    let (bitmap, rest) = rest.split_once(',')?;
    let (first, second) = rest.split_once(',')?;
    Some(Tuple {
        current: decimal(current)?,
        bitmap: decimal(bitmap)?,
        first_historical: decimal(first)?,
        second_historical: decimal(second)?,
    })
}
