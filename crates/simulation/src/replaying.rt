//! Reading a list of events.
use crate::event::Event;
use crate::plan::{Plan, WORDS};
use std::alloc::{AllocError, Global};
use std::str::SplitAsciiWhitespace;

/// A list of events and its plan, if it names one.
#[derive(Drop)]
pub(crate) struct Script {
    pub(crate) plan: Option<Plan>,
    pub(crate) events: Vec<Event>,
}

/// Returns the plan and the events that the lines of a text spell; `None` if a line spells none. Lines that begin with `#` are skipped.
pub(crate) fn script_of(alloc: Global, text: &str) -> Result<Option<Script>, AllocError> {
    let mut script = Script {
        plan: None,
        events: Vec::new(alloc),
    };
    match add_lines(&mut script, text) {
        Ok(true) => Ok(Some(script)),
        Ok(false) => Ok(None),
        Err(failed) => Err(failed),
    }
}

/// Returns the events that the lines of a text spell; `None` if a line spells none.
pub(crate) fn events_of(alloc: Global, text: &str) -> Result<Option<Vec<Event>>, AllocError> {
    match script_of(alloc, text) {
        Ok(Some(script)) => Ok(Some(script.events)),
        Ok(None) => Ok(None),
        Err(failed) => Err(failed),
    }
}

// Adds what the lines of a text spell. Returns whether each spells something or is skipped.
fn add_lines(script: &mut Script, text: &str) -> Result<bool, AllocError> {
    for line in text.lines() {
        if !add_line(script, line)? {
            return Ok(false);
        }
    }
    Ok(true)
}

// Adds what a line spells. Returns whether it spells something or is skipped.
fn add_line(script: &mut Script, line: &str) -> Result<bool, AllocError> {
    let mut words = line.split_ascii_whitespace();
    let word = words.next().unwrap_or("");
    if word.is_empty() || word.starts_with("#") {
        return Ok(true);
    }
    let numbers = numbers_of(words);
    if word == "plan" {
        script.plan = Plan::of_words(numbers);
        return Ok(script.plan.is_some());
    }
    match Event::of_words(word, numbers) {
        Some(event) => script.events.push(event)?,
        None => return Ok(false),
    }
    Ok(true)
}

// Returns the numbers that words spell, up to one that spells none; those that are missing are 0.
fn numbers_of(words: SplitAsciiWhitespace<'_>) -> [u64; WORDS] {
    let mut numbers = [0u64; WORDS];
    for (number, word) in numbers.iter_mut().zip(words) {
        match word.parse::<u64>() {
            Ok(spelled) => *number = spelled,
            Err(_) => break,
        }
    }
    numbers
}
