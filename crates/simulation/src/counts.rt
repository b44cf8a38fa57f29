//! How often something came.
use std::alloc::{AllocError, Global};
use std::fmt;

/// How often what a word names came.
#[derive(Clone, Copy)]
struct Count {
    word: &'static str,
    times: u64,
}

/// How often what each word names came.
#[derive(Drop)]
pub(crate) struct Counts {
    counts: Vec<Count>,
}

impl Counts {
    /// Returns counts of none.
    pub(crate) fn new(alloc: Global) -> Counts {
        Counts {
            counts: Vec::new(alloc),
        }
    }

    /// Counts one of a word.
    pub(crate) fn note(&mut self, word: &'static str) -> Result<(), AllocError> {
        self.add(word, 1)
    }

    /// Returns whether a word was counted.
    pub(crate) fn has(&self, word: &str) -> bool {
        self.counts.iter().any(|count| count.word == word)
    }

    /// Adds all counts of another run.
    pub(crate) fn add_all(&mut self, other: &Counts) -> Result<(), AllocError> {
        for count in other.counts.iter() {
            self.add(count.word, count.times)?;
        }
        Ok(())
    }

    /// Adds to the count of a word.
    fn add(&mut self, word: &'static str, times: u64) -> Result<(), AllocError> {
        for count in self.counts.iter_mut() {
            if count.word == word {
                count.times = count.times.saturating_add(times);
                return Ok(());
            }
        }
        self.counts.push(Count { word, times })?;
        Ok(())
    }

    /// Puts the counts in the order of their words.
    pub(crate) fn sort(&mut self) {
        self.counts
            .sort_unstable_by(|one, other| one.word.cmp(other.word));
    }
}

impl fmt::Display for Counts {
    fn fmt<W: fmt::Write>(&self, f: &mut fmt::Formatter<W>) -> fmt::Result {
        for count in self.counts.iter() {
            let Count { word, times } = *count;
            write!(f, "  {times} {word}\n")?;
        }
        Ok(())
    }
}
