//! Feeds both nodes of a mirror with bytes that no node sent: the recorded streams of a session, in which bytes are
//! changed, cut, doubled and swapped.
//!
//! `test_foreign_bytes [SEED [FRAMES]]`: damages the streams by the seed (1) until FRAMES (1,000) frames were taken. It
//! prints how many, and fails at a reply that no frame may have. With seed 0 the streams are not damaged.
#![tactic(auto)]

mod damage;
mod feed;
mod nodes;
mod record;

use blocks::Refusal;
use damage::damaged;
use feed::{Fed, feed_primary, feed_secondary};
use rand_core::SeedableRng;
use rand_xoshiro::Xoshiro256PlusPlus;
use record::Recorded;
use std::alloc::Global;
use std::env;
use std::sync::Wait;
use std::time::Clock;

const SEED: u64 = 1;

const FRAMES: u64 = 1_000;

fn main(rt: HostRuntime) -> anyhow::Result<()> {
    let (seed, frames) = asked(&rt)?;
    let taken = feed_all(rt, rt.alloc(), seed, frames)?;
    println!(rt; "seed {seed}: {frames} frames or more, each with a reply that it may have")?;
    eprintln!(rt; "{taken} frames")?;
    Ok(())
}

// Returns the seed and the number of frames that the program's words give.
fn asked(rt: &HostRuntime) -> anyhow::Result<(u64, u64)> {
    let words = env::args(rt)?.collect::<Vec<String>>(rt.alloc())?;
    read(words.get(1), words.get(2))
}

fn read(seed: Option<&String>, frames: Option<&String>) -> anyhow::Result<(u64, u64)> {
    Ok((number(seed, SEED)?, number(frames, FRAMES)?))
}

fn number(word: Option<&String>, standard: u64) -> anyhow::Result<u64> {
    match word {
        Some(word) => Ok(word.as_str().parse::<u64>()?),
        None => Ok(standard),
    }
}

// Feeds both nodes until this many frames were taken. Returns how many.
fn feed_all<R: Wait + Clock + Copy + Drop>(
    rt: R,
    alloc: Global,
    seed: u64,
    frames: u64,
) -> anyhow::Result<u64> {
    match Recorded::new(rt, alloc) {
        Ok(recorded) => feed_recorded(rt, alloc, &recorded, seed, frames),
        Err(refusal) => Err(refusal.into()),
    }
}

fn feed_recorded<R: Wait + Clock + Copy + Drop>(
    rt: R,
    alloc: Global,
    recorded: &Recorded,
    seed: u64,
    frames: u64,
) -> anyhow::Result<u64> {
    let mut random = Xoshiro256PlusPlus::seed_from_u64(seed);
    let mut taken = 0u64;
    for _ in 0..frames {
        if taken >= frames {
            break;
        }
        let fed = feed_both(rt, alloc, recorded, &mut random, seed != 0)?;
        if !fed.is_sound {
            anyhow::bail!("a reply that no frame may have, after {taken} frames of seed {seed}");
        }
        taken = taken.saturating_add(fed.frames);
    }
    // A round may have no frame that is taken, as where a stream is damaged at its first byte.
    if taken < frames {
        anyhow::bail!("only {taken} of {frames} frames of seed {seed} were taken");
    }
    Ok(taken)
}

// Feeds each node once. Damages both streams before it feeds the first one.
fn feed_both<R: Wait + Clock + Copy + Drop>(
    rt: R,
    alloc: Global,
    recorded: &Recorded,
    random: &mut Xoshiro256PlusPlus,
    is_damaged: bool,
) -> Result<Fed, Refusal> {
    let there = damaged(alloc, &recorded.there, random, is_damaged)?;
    match damaged(alloc, &recorded.back, random, is_damaged) {
        Ok(back) => feed_streams(rt, alloc, &there, &back),
        Err(error) => Err(error.into()),
    }
}

fn feed_streams<R: Wait + Clock + Copy + Drop>(
    rt: R,
    alloc: Global,
    there: &Vec<u8>,
    back: &Vec<u8>,
) -> Result<Fed, Refusal> {
    let secondary = feed_secondary(rt, alloc, there)?;
    let primary = feed_primary(rt, alloc, back)?;
    Ok(secondary.and(primary))
}
