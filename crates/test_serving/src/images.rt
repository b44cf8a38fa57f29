//! Tests of a disk over an image file, and of its lock, by whole calls over files of their own. No contract says what a file holds.
use blocks::{BLOCK_BYTES, Block, Range, Refusal, Store, StoreFault};
use file_store::FileStore;
use image_store::{Disk, ImageLock, OpenFault, SyncHandle, open_image};
use recorded_file::OpenedFile;
use serving::AnyContents;
use std::alloc::{AllocError, Global};
use std::cell::Cell;
use std::fs::{File, Files, OpenFile, OpenOptions};
use std::os::unix::fs::{FileExt, symlink};
use std::process::Abort;
use std::sync::Arc;
use std::{fs, io, thread};

// Makes an image of this length: `blocks` blocks, block `n` filled with `n + 1`, and zeros after them.
fn image(alloc: Global, blocks: u8, length: usize) -> Result<Vec<u8>, AllocError> {
    let mut bytes = Vec::new(alloc);
    for block in 0..blocks {
        bytes.extend_from_slice(&[block.wrapping_add(1); BLOCK_BYTES])?;
    }
    bytes.resize(length, 0)?;
    Ok(bytes)
}

// Opens an image of this many blocks as a disk.
fn open<H: Files<File = File>>(
    rt: &H,
    path: &str,
    blocks: u32,
) -> Result<(FileStore<File, AnyContents>, SyncHandle<File>), OpenFault> {
    let (store, shared) = open_image::<H, AnyContents>(rt, path, blocks)?;
    Ok((store, SyncHandle::of(shared, Disk::Local)))
}

// Makes a file of such an image.
fn make_image(rt: &(impl Abort + Files + AllocGlobal), path: &str, blocks: u8, length: usize) {
    let bytes = image(rt.alloc(), blocks, length).expect(rt, "memory");
    fs::write(rt, path, bytes.as_slice()).expect(rt, "a file");
}

// Returns whether the file has one block for each of these bytes, filled with it.
fn is_image(rt: &(impl Files + AllocGlobal), path: &str, fills: &[u8]) -> io::Result<bool> {
    let image = fs::read(rt, path)?;
    let mut is_alike = image.len() / BLOCK_BYTES == fills.len() && image.len() % BLOCK_BYTES == 0;
    for (place, byte) in image.iter().enumerate() {
        is_alike &= Some(byte) == fills.get(place / BLOCK_BYTES);
    }
    Ok(is_alike)
}

// Returns the byte that fills the block, if there is such a block, filled with one byte.
fn fill_of<F: FileExt>(store: &mut FileStore<F, AnyContents>, block: usize) -> Option<u8> {
    let block = block as u64;
    if block >= u64::from(store.blocks()) {
        return None;
    }
    let mut buffer = [0u8; BLOCK_BYTES];
    store.read(Block(block), &mut buffer).ok()?;
    let fill = buffer[0];
    buffer.iter().all(|byte| *byte == fill).then_some(fill)
}

// Returns whether the store has one block for each of these bytes, filled with it.
fn is_held<F: FileExt>(store: &mut FileStore<F, AnyContents>, fills: &[u8]) -> bool {
    let mut is_alike = store.blocks() as usize == fills.len();
    for (block, fill) in fills.iter().enumerate() {
        is_alike &= fill_of(store, block) == Some(*fill);
    }
    is_alike
}

// Writes two blocks from this one on, filled with these bytes.
fn put_two<F: FileExt>(
    store: &mut FileStore<F, AnyContents>,
    first: u64,
    fills: [u8; 2],
) -> Result<Result<(), StoreFault>, Refusal> {
    let range = Range::new(first, 2, store.blocks())?;
    let mut bytes = [fills[0]; 8192];
    bytes[BLOCK_BYTES..].fill(fills[1]);
    Ok(store.write(range, &bytes))
}

// Checks the result of a write of two blocks.
fn puts<F: FileExt>(
    rt: &impl Abort,
    store: &mut FileStore<F, AnyContents>,
    (first, fills): (u64, [u8; 2]),
    wanted: Result<(), StoreFault>,
) {
    assert_eq!(rt; put_two(store, first, fills), Ok(wanted));
}

// What a write changes is read back, and is in the file as soon as the write has returned.
#[test]
fn a_write_is_in_the_file(rt: HostRuntime) {
    make_image(&rt, "written", 4, 16_384);
    let (mut store, sync) = open(&rt, "written", 4).expect(&rt, "a store");
    assert!(rt; is_held(&mut store, &[1, 2, 3, 4]));
    puts(&rt, &mut store, (1, [170, 187]), Ok(()));
    assert!(rt; is_held(&mut store, &[1, 170, 187, 4]));
    assert!(rt; is_image(&rt, "written", &[1, 170, 187, 4]).expect(&rt, "an image"));
    sync.sync(1).expect(&rt, "a flush");
    let (mut again, _) = open(&rt, "written", 4).expect(&rt, "a store");
    assert!(rt; is_held(&mut again, &[1, 170, 187, 4]));
    fs::remove_file(&rt, "written").expect(&rt, "a file");
}

// Zeros are in the file, whether it had data in their place, in none of it, or in a part of it.
#[test]
fn zeros_are_in_a_sparse_file(rt: HostRuntime) {
    make_image(&rt, "sparse", 2, 8192);
    let file = OpenOptions::new().write(true).open(&rt, "sparse");
    let file = file.expect(&rt, "a file");
    file.set_len(32_768).expect(&rt, "a file of 8 blocks");
    let (mut store, _) = open(&rt, "sparse", 8).expect(&rt, "a store");
    puts(&rt, &mut store, (6, [7, 8]), Ok(()));
    puts(&rt, &mut store, (1, [0, 0]), Ok(()));
    puts(&rt, &mut store, (3, [0, 0]), Ok(()));
    puts(&rt, &mut store, (5, [0, 0]), Ok(()));
    assert!(rt; is_held(&mut store, &[1, 0, 0, 0, 0, 0, 0, 8]));
    check_image(&rt, "sparse", &[1, 0, 0, 0, 0, 0, 0, 8], true);
    fs::remove_file(&rt, "sparse").expect(&rt, "a file");
}

// A block above 4 GiB is at its place in the file, which is sparse below it.
#[test]
fn a_high_block_is_at_its_place(rt: HostRuntime) {
    fs::write(&rt, "high", &[1]).expect(&rt, "a file");
    let file = OpenOptions::new()
        .read(true)
        .write(true)
        .open(&rt, "high")
        .expect(&rt, "a file");
    file.write_all_at(&[0], 5_368_709_119)
        .expect(&rt, "a file of 5 GiB");
    let (mut store, _) = open(&rt, "high", 1_310_720).expect(&rt, "a store");
    puts(&rt, &mut store, (1_310_718, [170, 187]), Ok(()));
    assert_eq!(rt; fill_of(&mut store, 1_310_718), Some(170));
    let mut found = [0u8; BLOCK_BYTES];
    file.read_exact_at(&mut found, 5_368_705_024)
        .expect(&rt, "a block");
    assert!(rt; found.iter().all(|byte| *byte == 187));
    fs::remove_file(&rt, "high").expect(&rt, "a file");
}

// Checks that a device of five blocks refuses an image of this length.
fn refuses(rt: &(impl Abort + Files<File = File> + AllocGlobal), blocks: u8, length: usize) {
    make_image(rt, "other_length", blocks, length);
    let length = length as u64;
    let fault = match open(rt, "other_length", 5) {
        Ok(_) => None,
        Err(fault) => Some(fault),
    };
    assert!(rt;
        matches!(&fault, Some(OpenFault::WrongLength { found, wanted: 20_480 }) if *found == length)
    );
    let file = fs::metadata(rt, "other_length").expect(rt, "a file");
    assert_eq!(rt; file.len(), length);
}

// A file that is shorter or longer than the device is refused, with both lengths, and stays as it was.
#[test]
fn another_length_is_refused(rt: HostRuntime) {
    for (blocks, length) in [(3, 12_289), (4, 16_384), (6, 24_576)] {
        refuses(&rt, blocks, length);
    }
    let fault = OpenFault::WrongLength {
        found: 12_289,
        wanted: 16_384,
    };
    let text = format!(in rt.alloc(); "{fault}").expect(&rt, "memory");
    let wanted = "the image has 12289 bytes, and an image of this device has 16384 (see --blocks)";
    assert_eq!(rt; text.as_str(), wanted);
    fs::remove_file(&rt, "other_length").expect(&rt, "a file");
}

// A file that does not exist is not created.
#[test]
fn a_missing_file_is_unread(rt: HostRuntime) {
    let fault = match open(&rt, "no_image", 4) {
        Ok(_) => None,
        Err(fault) => Some(fault),
    };
    assert!(rt;
        matches!(&fault, Some(OpenFault::Unread(error)) if error.kind() == io::ErrorKind::NotFound)
    );
    assert!(rt; fs::metadata(&rt, "no_image").is_err());
}

// Returns why the image at this path is not locked.
fn lock_fault(rt: &impl Files<File = File>, path: &str) -> Option<OpenFault> {
    match ImageLock::take(rt, path) {
        Ok(_) => None,
        Err(fault) => Some(fault),
    }
}

// An image has one lock, whatever path names it, and is free again once that is dropped. The locked image still opens
// as a disk. A file that does not exist is not created, and what is no file is no image.
#[test]
fn an_image_is_locked_once(rt: HostRuntime) {
    make_image(&rt, "locked", 1, 4096);
    symlink(&rt, "locked", "locked_link").expect(&rt, "a link");
    let lock = ImageLock::take(&rt, "locked").expect(&rt, "a lock");
    for path in ["locked", "./locked", "locked_link"] {
        assert!(rt;
            matches!(&lock_fault(&rt, path), Some(OpenFault::InUse)),
            "{path}"
        );
    }
    assert!(rt; open(&rt, "locked", 1).is_ok());
    assert!(rt; lock.is_unchanged(&rt, "locked_link", 4096));
    assert!(rt; !lock.is_unchanged(&rt, "locked_link", 8192));
    drop(lock);
    assert!(rt; lock_fault(&rt, "locked_link").is_none());
    assert!(rt;
        matches!(&lock_fault(&rt, "no_image"), Some(OpenFault::Unread(error)) if error.kind() == io::ErrorKind::NotFound)
    );
    assert!(rt; fs::metadata(&rt, "no_image").is_err());
    assert!(rt; matches!(&lock_fault(&rt, "/dev/null"), Some(OpenFault::NotAFile)));
    fs::remove_file(&rt, "locked_link").expect(&rt, "a link");
    fs::remove_file(&rt, "locked").expect(&rt, "a file");
}

// A lock is kept on a file. It tells if another file has taken its place.
#[test]
fn a_replaced_image_is_noticed(rt: HostRuntime) {
    make_image(&rt, "replaced", 1, 4096);
    make_image(&rt, "replacing", 1, 4096);
    let lock = ImageLock::take(&rt, "replaced").expect(&rt, "a lock");
    assert!(rt; lock.is_unchanged(&rt, "replaced", 4096));
    fs::rename(&rt, "replacing", "replaced").expect(&rt, "a file");
    assert!(rt; !lock.is_unchanged(&rt, "replaced", 4096));
    fs::remove_file(&rt, "replaced").expect(&rt, "a file");
    assert!(rt; !lock.is_unchanged(&rt, "replaced", 4096));
}

// Makes a file of 16 MiB of zeros.
fn make_large(rt: &(impl Abort + Files<File = File>)) {
    let file = fs::create(rt, "large").expect(rt, "a file");
    file.set_len(16_777_216).expect(rt, "a file of 16 MiB");
}

// A device of 16 MiB opens, and its last blocks are written.
#[test]
fn a_large_image_opens(rt: HostRuntime) {
    make_large(&rt);
    let (mut store, _) = open(&rt, "large", 4096).expect(&rt, "a store");
    puts(&rt, &mut store, (4094, [5, 6]), Ok(()));
    for (block, fill) in [(0, 0), (4093, 0), (4094, 5), (4095, 6)] {
        assert_eq!(rt; fill_of(&mut store, block), Some(fill));
    }
    let file = fs::metadata(&rt, "large").expect(&rt, "a file");
    assert_eq!(rt; file.len(), 16_777_216);
    fs::remove_file(&rt, "large").expect(&rt, "a file");
}

// A thread has the store while others make the file durable.
#[test]
fn a_flush_needs_no_store(rt: HostRuntime) {
    make_image(&rt, "flushed", 4, 16_384);
    let (store, sync) = open(&rt, "flushed", 4).expect(&rt, "a store");
    let sync = Arc::new(rt.alloc(), sync).expect(&rt, "memory");
    let theirs = Arc::try_clone(&sync).expect(&rt, "a second handle");
    let child = thread::spawn(&rt, move || {
        let mut store = store;
        let is_put = put_two(&mut store, 2, [51, 68]) == Ok(Ok(()));
        is_put && theirs.sync(1).is_ok()
    })
    .expect(&rt, "a thread");
    sync.sync(1).expect(&rt, "a flush");
    assert!(rt; child.join(&rt));
    assert!(rt; is_image(&rt, "flushed", &[1, 2, 51, 68]).expect(&rt, "an image"));
    fs::remove_file(&rt, "flushed").expect(&rt, "a file");
}

// A file in which one write writes a third of its bytes. Later ones fail, up to the write `passes_from`.
#[derive(Drop)]
struct FailingFile {
    file: File,
    writes: Cell<u32>,
    short_write: u32,
    passes_from: u32,
}

impl FileExt for FailingFile {
    fn read_at(&self, buf: &mut [u8], offset: u64) -> io::Result<usize> {
        self.file.read_at(buf, offset)
    }

    fn write_at(&self, buf: &[u8], offset: u64) -> io::Result<usize> {
        let write = self.writes.get();
        self.writes.set(write.wrapping_add(1));
        if write < self.short_write || write >= self.passes_from {
            self.file.write_at(buf, offset)
        } else if write == self.short_write {
            self.file.write_at(&buf[..buf.len() / 3], offset)
        } else {
            Err(io::Error::from(io::ErrorKind::Other))
        }
    }
}

// Makes a store of four blocks of zeros whose second write fails in the middle, over a file whose writes pass again
// from `passes_from` on.
fn failing_store(
    rt: &(impl Abort + Files<File = File> + AllocGlobal),
    path: &str,
    passes_from: u32,
) -> FileStore<FailingFile, AnyContents> {
    make_image(rt, path, 0, 16_384);
    let file = fs::OpenOptions::new().read(true).write(true).open(rt, path);
    let file = FailingFile {
        file: file.expect(rt, "a file"),
        writes: Cell::new(0),
        short_write: 1,
        passes_from,
    };
    FileStore::over(OpenedFile::of(file), 4)
}

// Checks that the file at this path has one block for each of these bytes, filled with it, or that it does not if
// `is_wanted` is false.
fn check_image(rt: &(impl Abort + Files + AllocGlobal), path: &str, fills: &[u8], is_wanted: bool) {
    let is_found = is_image(rt, path, fills).expect(rt, "an image");
    assert_eq!(rt; is_found, is_wanted);
}

// Checks that the next write mends what a failed one left, and removes the file.
fn is_mended(
    rt: &(impl Abort + Files<File = File> + AllocGlobal),
    path: &str,
    mut store: FileStore<FailingFile, AnyContents>,
) {
    puts(rt, &mut store, (1, [170, 187]), Ok(()));
    assert!(rt; is_held(&mut store, &[7, 170, 187, 0]));
    check_image(rt, path, &[7, 170, 187, 0], true);
    fs::remove_file(rt, path).expect(rt, "a file");
}

// A write that fails in the middle is tried once more, block by block: what the file then takes, it has.
#[test]
fn a_failed_write_is_tried_again(rt: HostRuntime) {
    let mut store = failing_store(&rt, "tried_again", 3);
    puts(&rt, &mut store, (0, [7, 8]), Ok(()));
    puts(&rt, &mut store, (1, [170, 187]), Err(StoreFault));
    assert!(rt; is_held(&mut store, &[7, 170, 187, 0]));
    assert!(rt; !store.is_torn());
    is_mended(&rt, "tried_again", store);
}

// If the file does not take its blocks then either, the store tells that one of them is partly new. The other one is as it was.
#[test]
fn a_torn_block_is_told(rt: HostRuntime) {
    let mut store = failing_store(&rt, "torn", 5);
    puts(&rt, &mut store, (0, [7, 8]), Ok(()));
    puts(&rt, &mut store, (1, [170, 187]), Err(StoreFault));
    assert_eq!(rt; fill_of(&mut store, 0), Some(7));
    assert_eq!(rt; fill_of(&mut store, 1), None);
    assert_eq!(rt; fill_of(&mut store, 2), Some(0));
    assert!(rt; store.is_torn());
    is_mended(&rt, "torn", store);
}

// A write that the file refuses at once leaves it as it was, and it is not torn.
#[test]
fn a_refused_write_changes_nothing(rt: HostRuntime) {
    make_image(&rt, "refused", 4, 16_384);
    let file = fs::OpenOptions::new()
        .read(true)
        .open(&rt, "refused")
        .expect(&rt, "a file");
    let mut store = FileStore::<File, AnyContents>::over(OpenedFile::of(file), 4);
    puts(&rt, &mut store, (1, [170, 187]), Err(StoreFault));
    assert!(rt; is_held(&mut store, &[1, 2, 3, 4]));
    assert!(rt; !store.is_torn());
    fs::remove_file(&rt, "refused").expect(&rt, "a file");
}
