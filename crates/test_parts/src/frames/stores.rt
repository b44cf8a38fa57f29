//! Tests of disks in memory, of the ranges of blocks that they are written by, and of the settings.
ghost use Rattle.std.specs.Prelude.{◌≡◌};

use blocks::{
    BLOCK_BYTES, Block, FaultStore, MemStore, Range, Refusal, Settings, Store, StoreFault,
};
use std::alloc::Global;
use std::process::Abort;

/// The first block and the block count on a device of 2,048 blocks, and the range that they make.
static RANGES: [(u64, u64, Result<(u64, u64), Refusal>); 6] = [
    (2016, 32, Ok((2016, 32))),
    (0, 33, Err(Refusal::BadRange)),
    (0, 0, Err(Refusal::BadRange)),
    (2048, 1, Err(Refusal::BadRange)),
    (2047, 2, Err(Refusal::BadRange)),
    (1023, 2, Err(Refusal::BadRange)),
];

#[test]
fn ranges_stay_inside_the_device_and_one_extent(rt: HostRuntime) {
    for (first, count, wanted) in &RANGES {
        let range = match Range::new(*first, *count, 2048) {
            Ok(range) => Ok((range.first.0, range.count)),
            Err(refusal) => Err(refusal),
        };
        assert_eq!(rt; range, *wanted, "{first} {count}");
    }
}

/// How many bytes an image has, and how many blocks its disk has.
static IMAGES: [(usize, Result<u32, Refusal>); 4] = [
    (8192, Ok(2)),
    (0, Err(Refusal::BadSetting)),
    (4095, Err(Refusal::BadSetting)),
    (8193, Err(Refusal::BadSetting)),
];

#[test]
fn an_image_is_whole_blocks(rt: HostRuntime) {
    for (length, wanted) in &IMAGES {
        let image = Vec::from_elem(rt.alloc(), 7u8, *length).expect(&rt, "memory");
        let blocks = match MemStore::from_image(image) {
            Ok(disk) => Ok(disk.blocks()),
            Err(refusal) => Err(refusal),
        };
        assert_eq!(rt; blocks, *wanted, "{length} bytes");
    }
}

#[test]
fn settings_have_ranges(rt: HostRuntime) {
    let none = Settings {
        blocks: 0,
        ..Settings::STANDARD
    };
    let checked = (Settings::default().check(), none.check());
    assert_eq!(rt; checked, (Ok(()), Err(Refusal::BadSetting)));
}

/// A call of a disk of 8 blocks.
enum Step {
    /// The first block, how many, and the byte that fills them.
    Write(u64, u64, u8),
    /// A block, and the byte that fills it if it can be read.
    Read(u64, u8),
}

/// A step, and whether it works. A read that works also finds the byte.
type Row = (Step, Result<bool, StoreFault>);

fn write(
    rt: &impl Abort,
    alloc: Global,
    disk: &mut impl Store,
    (first, count, byte): (u64, u64, u8),
) -> Result<bool, StoreFault> {
    let range = Range::new(first, count, disk.blocks()).expect(rt, "a range");
    let length = range.count as usize * BLOCK_BYTES;
    let bytes = Vec::from_elem(alloc, byte, length).expect(rt, "memory");
    disk.write(range, &bytes)?;
    Ok(true)
}

fn read(
    rt: &impl Abort,
    alloc: Global,
    disk: &mut impl Store,
    (block, byte): (u64, u8),
) -> Result<bool, StoreFault> {
    assert!(rt; block < u64::from(disk.blocks()));
    let mut bytes = Vec::from_elem(alloc, 1u8, BLOCK_BYTES).expect(rt, "memory");
    disk.read(Block(block), &mut bytes)?;
    Ok(bytes.iter().all(|x| *x == byte))
}

fn goes(rt: &impl Abort, alloc: Global, disk: &mut impl Store, rows: &'static [Row]) {
    for (i, (step, wanted)) in rows.iter().enumerate() {
        let answer = match step {
            Step::Write(first, count, byte) => write(rt, alloc, disk, (*first, *count, *byte)),
            Step::Read(block, byte) => read(rt, alloc, disk, (*block, *byte)),
        };
        assert_eq!(rt; answer, *wanted, "step {i}");
    }
}

static KEPT: [Row; 4] = [
    (Step::Write(2, 1, 0xAA), Ok(true)),
    (Step::Read(1, 0), Ok(true)),
    (Step::Read(2, 0xAA), Ok(true)),
    (Step::Read(3, 0), Ok(true)),
];

#[test]
fn a_disk_keeps_what_was_written(rt: HostRuntime) {
    let mut disk = MemStore::zeroed(rt.alloc(), 8).expect(&rt, "memory");
    assert_eq!(rt; disk.blocks(), 8);
    goes(&rt, rt.alloc(), &mut disk, &KEPT);
}

/// The first read fails, and so does the second write, which keeps its first block.
static ARMED: [Row; 6] = [
    (Step::Read(2, 0), Err(StoreFault)),
    (Step::Write(0, 1, 0xAA), Ok(true)),
    (Step::Write(2, 2, 0xAA), Err(StoreFault)),
    (Step::Read(2, 0xAA), Ok(true)),
    (Step::Read(3, 0), Ok(true)),
    (Step::Write(2, 2, 0xAA), Ok(true)),
];

/// Arms the disk, and checks that it fails as armed.
fn fails_where_it_is_armed(rt: &impl Abort, alloc: Global, disk: &mut FaultStore) {
    disk.arm_after(1, 1);
    disk.arm_read();
    assert_eq!(rt; disk.blocks(), 8);
    goes(rt, alloc, disk, &ARMED);
}

#[test]
fn a_disk_fails_where_it_is_armed(rt: HostRuntime) {
    let disk = MemStore::zeroed(rt.alloc(), 8).expect(&rt, "memory");
    fails_where_it_is_armed(&rt, rt.alloc(), &mut FaultStore::new(disk));
}
