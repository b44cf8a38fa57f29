//! What the words of the program ask for.

/// The first seed that is run if none is given.
pub(crate) const FIRST_SEED: u64 = 1;

/// Seeds that are run if no number is given.
pub(crate) const SEEDS: u64 = 50;

/// Events of a seed if no number is given.
pub(crate) const EVENTS: u64 = 200;

/// What the words of the program ask for.
#[derive(Clone, Copy)]
pub(crate) enum Order<'a> {
    /// To say what the program does.
    Help,
    /// To run the worked rows, and seeds.
    All,
    /// To run the worked rows.
    Rows,
    /// To run the events of a file.
    Replay { file: &'a str },
    /// To run seeds.
    Seeds { from: u64, count: u64, events: u64 },
}

/// Returns what the words after the program's name ask for; `None` if they spell nothing.
pub(crate) fn order_of(words: &[String]) -> Option<Order<'_>> {
    if words.len() <= 1 {
        return Some(Order::All);
    }
    let (mut from, mut count, mut events) = (FIRST_SEED, SEEDS, EVENTS);
    let mut place = 1usize;
    for _ in 0..words.len() {
        let Some(word) = words.get(place) else {
            break;
        };
        match word.as_str() {
            "--help" => return Some(Order::Help),
            "--rows" => return Some(Order::Rows),
            "--replay" => {
                let file = words.get(place.saturating_add(1))?.as_str();
                return Some(Order::Replay { file });
            }
            "--seeds" => {
                from = number(words, place.saturating_add(1))?;
                count = number(words, place.saturating_add(2))?;
                place = place.saturating_add(3);
            }
            "--events" => {
                events = number(words, place.saturating_add(1))?;
                place = place.saturating_add(2);
            }
            _ => return None,
        }
    }
    Some(Order::Seeds {
        from,
        count,
        events,
    })
}

// Returns the number that a word spells.
fn number(words: &[String], place: usize) -> Option<u64> {
    words.get(place)?.as_str().parse::<u64>().ok()
}
