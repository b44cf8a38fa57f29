//! Tests that a secondary takes the frames that arrived whole, wherever the connection is lost.
use crate::nodes::{RowSecondary, disk, new_secondary};
use crate::pumping::ends::{LostReader, LostWriter};
use crate::pumping::receiver::{open_secondary, take_frames};
use crate::pumping::sender::sent_bytes;
use blocks::Refusal;
use pumps::{Buffer, PumpEnd, pump_in, pump_out};
use session_api::Bell;
use std::alloc::Global;
use std::io::Read;
use std::process::Abort;
use std::sync::Wait;
use std::sync::atomic::AtomicBool;
use std::time::Clock;
use thread_link::{PieceIn, PieceOut, RuledOut, frame_row, row};

/// The bytes of a hello (12, 16 and 40), of a write of one block (4,128) and of a barrier (16).
const ALL_BYTES: usize = 4_212;

/// Returns how many frames are whole within the first `count` bytes.
fn whole_frames(count: usize) -> u32 {
    match count {
        0..12 => 0,
        12..28 => 1,
        28..68 => 2,
        68..4_196 => 3,
        4_196..4_212 => 4,
        _ => 5,
    }
}

/// How a pump ends, and how many frames come.
type Taken = (PumpEnd, Result<u32, Refusal>);

/// Has a secondary take what a reader gives. Returns how the pump ends, and how many frames come.
fn taken<R: Wait + Clock + Drop, D: Read>(
    rt: &R,
    buffer: &mut Buffer,
    reader: &mut D,
    outward: &mut PieceOut<R>,
    secondary: &mut RowSecondary<R>,
) -> Taken {
    let stop = AtomicBool::new(false);
    let end = pump_in(rt, outward, reader, buffer, &stop, &Bell::new());
    (end, take_frames(secondary))
}

/// Checks that a secondary takes the wanted number of frames from a reader, and then finds nothing.
fn takes<R: Wait + Clock + Copy + Drop + Abort, D: Read>(
    rt: R,
    alloc: Global,
    buffer: &mut Buffer,
    reader: &mut D,
    wanted: Taken,
) {
    let (back, _) = frame_row(rt, alloc, 1).expect(&rt, "a row");
    let mut secondary = new_secondary(&rt, alloc, disk(&rt, alloc), 8);
    let mut outward = open_secondary(rt, alloc, &mut secondary, RuledOut::new(back));
    let found = taken(&rt, buffer, reader, &mut outward, &mut secondary);
    check_taken(&rt, found, wanted);
}

fn check_taken(rt: &impl Abort, found: Taken, wanted: Taken) {
    assert_eq!(rt; found, wanted);
}

/// Returns the bytes that a writer gets if it fails after `left` of them.
fn written<R: Wait + Clock>(
    rt: &R,
    alloc: Global,
    buffer: &mut Buffer,
    (outward, inward): (&mut PieceOut<R>, &mut PieceIn<R>),
    bytes: &[u8],
    left: usize,
) -> Vec<u8> {
    let stop = AtomicBool::new(false);
    let mut all = bytes;
    let _ = pump_in(rt, outward, &mut all, buffer, &stop, &Bell::new());
    let mut writer = LostWriter {
        stop: &stop,
        left,
        got: Vec::new(alloc),
    };
    let _ = pump_out(rt, inward, &mut writer, buffer, &stop, &Bell::new());
    writer.got
}

/// Returns the bytes that arrive over a connection that is lost after `left` of them.
fn arrived<R: Wait + Clock + Copy + Drop + Abort>(
    rt: R,
    alloc: Global,
    buffer: &mut Buffer,
    bytes: &[u8],
    left: usize,
) -> Vec<u8> {
    let (mut outward, mut inward) = row(rt, alloc, 8).expect(&rt, "a row");
    let ends = (&mut outward, &mut inward);
    let got = written(&rt, alloc, buffer, ends, bytes, left);
    assert!(&rt; got.len() == left && bytes.starts_with(&got));
    got
}

/// Returns all bytes that the primary sends.
fn all_bytes<R: Wait + Copy + Drop + Abort>(rt: R, alloc: Global) -> Vec<u8> {
    let sent = sent_bytes(rt, alloc);
    assert_eq!(&rt; sent.len(), ALL_BYTES);
    sent
}

/// Checks what comes if the reader of the secondary's pump fails after each byte.
fn reading_is_lost<R: Wait + Clock + Copy + Drop + Abort>(rt: R, alloc: Global) {
    let sent = all_bytes(rt, alloc);
    let bytes = sent.as_slice();
    let mut buffer = Buffer::new(alloc).expect(&rt, "memory");
    for count in 0..=bytes.len() {
        let mut reader = LostReader {
            rest: &bytes[..count],
        };
        let wanted = (PumpEnd::Failed, Ok(whole_frames(count)));
        takes(rt, alloc, &mut buffer, &mut reader, wanted);
    }
}

/// Checks what comes if the writer of the primary's pump fails after each byte.
fn writing_is_lost<R: Wait + Clock + Copy + Drop + Abort>(rt: R, alloc: Global) {
    let sent = all_bytes(rt, alloc);
    let bytes = sent.as_slice();
    let mut buffer = Buffer::new(alloc).expect(&rt, "memory");
    for count in 0..=bytes.len() {
        let got = arrived(rt, alloc, &mut buffer, bytes, count);
        let mut reader = got.as_slice();
        let wanted = (PumpEnd::EndOfInput, Ok(whole_frames(count)));
        takes(rt, alloc, &mut buffer, &mut reader, wanted);
    }
}

#[test]
fn a_read_fails_after_each_byte(rt: HostRuntime) {
    reading_is_lost(rt, rt.alloc());
}

#[test]
fn a_write_fails_after_each_byte(rt: HostRuntime) {
    writing_is_lost(rt, rt.alloc());
}
