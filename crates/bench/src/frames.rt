//! The rate at which a decoder takes a stream of DATA frames in small pieces, beside a plain copy of the same bytes,
//! and the rate at which acknowledgements are encoded and decoded.
ghost use Rattle.std.specs.Prelude.{◌<◌, ◌≤◌};

use blocks::Block;
use bytes::Bytes;
use packets::{Acknowledgement, Decoder, Packet, encode, read};
use std::alloc::Global;
use std::time::{Duration, Instant};

/// Bytes of a piece, about what one packet of a network carries.
const PIECE_BYTES: usize = 1400;

/// Bytes of block data in a stream: 64 MiB.
const DATA_BYTES: usize = 64 << 20;

/// Returns a stream of 64 MiB of block data, in frames of `blocks` blocks.
fn stream_of(alloc: Global, blocks: usize) -> anyhow::Result<Vec<u8>>
    requires some { 0 < blocks }
    requires few { blocks ≤ 32 }
{
    let contents = Vec::from_elem(alloc, 0x5Au8, 4096 * blocks)?;
    let packet = Packet::Data {
        first: Block(0),
        number: 1,
        place: 0,
        contents: Bytes::copy_from_slice(alloc, &contents)?,
    };
    let frame = encode(&packet)?;
    let (front, end) = frame.parts();
    let mut stream = Vec::new(alloc);
    for _ in 0..DATA_BYTES / (4096 * blocks) {
        stream.extend_from_slice(front)?;
        stream.extend_from_slice(end)?;
    }
    Ok(stream)
}

/// Feeds a stream to a decoder in pieces. Returns the number of packets.
fn decode_pieces(alloc: Global, stream: &[u8]) -> anyhow::Result<u64> {
    let mut decoder = Decoder::new(alloc);
    let mut packets = Vec::new(alloc);
    let mut count: u64 = 0;
    for piece in stream.chunks(PIECE_BYTES) {
        decoder.feed(piece, &mut packets)?;
        count = count.saturating_add(packets.len() as u64);
        packets.clear();
    }
    Ok(count)
}

/// Copies a stream piece by piece into a buffer that has room for it.
fn copy_pieces(buffer: &mut Vec<u8>, stream: &[u8]) -> anyhow::Result<()> {
    buffer.clear();
    for piece in stream.chunks(PIECE_BYTES) {
        buffer.extend_from_slice(piece)?;
    }
    Ok(())
}

/// Returns the bytes in a microsecond, which are megabytes in a second; 0 if the clock shows no time.
fn rate(bytes: usize, time: Duration) -> u128 {
    match time.as_micros() {
        0 => 0,
        micros => bytes as u128 / micros,
    }
}

/// Returns how long a copy of a stream takes. A first copy makes the buffer's memory present.
fn time_copy(rt: &HostRuntime, stream: &[u8]) -> anyhow::Result<Duration> {
    let mut buffer = Vec::with_capacity(rt.alloc(), stream.len())?;
    copy_pieces(&mut buffer, stream)?;
    let start = Instant::now(rt)?;
    copy_pieces(&mut buffer, stream)?;
    Ok(start.elapsed(rt)?)
}

/// Returns how many packets are decoded from a stream, and how long that takes.
fn time_decoder(rt: &HostRuntime, stream: &[u8]) -> anyhow::Result<(u64, Duration)> {
    let start = Instant::now(rt)?;
    let count = decode_pieces(rt.alloc(), stream)?;
    Ok((count, start.elapsed(rt)?))
}

fn measure(rt: &HostRuntime, blocks: usize) -> anyhow::Result<()>
    requires some { 0 < blocks }
    requires few { blocks ≤ 32 }
{
    let stream = stream_of(rt.alloc(), blocks)?;
    let copied = time_copy(rt, &stream)?;
    let (count, decoded) = time_decoder(rt, &stream)?;
    println!(rt; "blocks in a frame: {blocks}, packets: {count}")?;
    eprintln!(rt;
        "blocks in a frame: {blocks}, decoded {} MB/s, copied {} MB/s",
        rate(stream.len(), decoded),
        rate(stream.len(), copied)
    )?;
    Ok(())
}

/// Returns how many there are in a second if `count` took this time; 0 if the clock shows no time.
fn frequency(count: u32, time: Duration) -> u128 {
    match time.as_micros() {
        0 => 0,
        micros => u128::from(count) * 1_000_000 / micros,
    }
}

/// Encodes this number of acknowledgements and decodes each frame. Returns how many were read as acknowledgements.
fn acknowledge(acknowledgements: u32) -> anyhow::Result<u32> {
    let mut count: u32 = 0;
    for place in 0..acknowledgements {
        let frame = encode(&Packet::WriteAck(Acknowledgement {
            first: Block(2),
            number: 1,
            count: 1,
            place,
        }))?;
        if matches!(read(frame, None)?, Packet::WriteAck(_)) {
            count = count.saturating_add(1);
        }
    }
    Ok(count)
}

fn measure_acknowledgements(rt: &HostRuntime, acknowledgements: u32) -> anyhow::Result<()> {
    let start = Instant::now(rt)?;
    let count = acknowledge(acknowledgements)?;
    let time = start.elapsed(rt)?;
    println!(rt; "acknowledgements: {count}")?;
    eprintln!(rt;
        "acknowledgements: {} a second encoded and decoded",
        frequency(count, time)
    )?;
    Ok(())
}

/// Measures frames of few blocks and of many, and this number of acknowledgements.
pub(crate) fn measure_all(rt: &HostRuntime, acknowledgements: u32) -> anyhow::Result<()> {
    measure(rt, 1)?;
    measure(rt, 8)?;
    measure(rt, 32)?;
    measure_acknowledgements(rt, acknowledgements)
}
