//! Tests over a file in memory.
use crate::{
    AfterCrash, AnyBytes, BootId, CleanEnd, FileFault, Header, Identifiers, MAX_MARKS, MemoryFile,
    Metadata, MetadataFault, MetadataFile, SparseBytes, Trouble, create, open,
};
use blocks::{Block, Extent, Tuple};
use std::alloc::Global;
use std::process::Abort;

type File = MetadataFile<MemoryFile, AnyBytes>;

const BLOCKS: u64 = 2000;

/// The blocks of a device with three extents more than one write enters.
const WIDE_BLOCKS: u64 = 4_197_376;

/// The calls of an open before the first call of anything else.
const OPEN_CALLS: u64 = 6;

const HEADER: Header = Header {
    blocks: BLOCKS,
    pair: 0x1122_3344_5566_7788,
    node: 7,
};

const BOOT: BootId = BootId {
    high: 0x0f1e_2d3c_4b5a_6978,
    low: 0x8796_a5b4_c3d2_e1f0,
};

const END: CleanEnd = CleanEnd {
    device: 0x801,
    inode: 0x1_0002,
    size: 0x7d_0000,
    seconds: 0x6553_f100,
    nanoseconds: 999_999_999,
};

// The header's bytes by the table of docs/FORMATS.md, written out by hand. `sha256sum` over the first 40 begins with f974f5547ea23dfa.
const HEADER_BYTES: [u8; 48] = [
    0x44, 0x52, 0x42, 0x44, 0x50, 0x41, 0x49, 0x52, 0, 0, 0, 1, 0, 0, 0x10, 0, 0, 0, 0, 0, 0, 0,
    0x07, 0xd0, 0x11, 0x22, 0x33, 0x44, 0x55, 0x66, 0x77, 0x88, 0, 0, 0, 0, 0, 0, 0, 7, 0xf9, 0x74,
    0xf5, 0x54, 0x7e, 0xa2, 0x3d, 0xfa,
];

// The slot's bytes, likewise. `sha256sum` over the first 120 begins with a340b468a35708f7.
const SLOT_BYTES: [u8; 128] = [
    0, 0, 0, 0, 0, 0, 0, 5, 0, 0, 0, 0, 0, 0, 0, 4, 0, 0, 0, 0, 0, 0, 0, 3, 0, 0, 0, 0, 0, 0, 0, 2,
    0, 0, 0, 0, 0, 0, 0, 1, 0, 0, 0, 0, 0, 0, 0, 1, 0x0f, 0x1e, 0x2d, 0x3c, 0x4b, 0x5a, 0x69, 0x78,
    0x87, 0x96, 0xa5, 0xb4, 0xc3, 0xd2, 0xe1, 0xf0, 0, 0, 0, 0, 0, 0, 0, 9, 0, 0, 0, 0, 0, 0, 0, 1,
    0, 0, 0, 0, 0, 0, 0x08, 0x01, 0, 0, 0, 0, 0, 0x01, 0x00, 0x02, 0, 0, 0, 0, 0, 0x7d, 0, 0, 0, 0,
    0, 0, 0x65, 0x53, 0xf1, 0x00, 0, 0, 0, 0, 0x3b, 0x9a, 0xc9, 0xff, 0xa3, 0x40, 0xb4, 0x68, 0xa3,
    0x57, 0x08, 0xf7,
];

fn first() -> Identifiers {
    Identifiers {
        tuple: Tuple::new(5, 4, 3, 2),
        is_primary: true,
        is_consistent: true,
        boot: BOOT,
        secondary_of: 9,
        clean_end: Some(END),
    }
}

fn second() -> Identifiers {
    Identifiers {
        tuple: Tuple::new(6, 5, 3, 2),
        is_primary: false,
        is_consistent: false,
        boot: BOOT,
        secondary_of: 0,
        clean_end: None,
    }
}

fn file_of(rt: &impl Abort, alloc: Global, bytes: &SparseBytes, trouble: Trouble) -> File {
    MetadataFile::over(MemoryFile::new(alloc, bytes, trouble).expect(rt, "memory"))
}

fn opened(rt: &impl Abort, alloc: Global, bytes: &SparseBytes, trouble: Trouble) -> Metadata<File> {
    match open(alloc, file_of(rt, alloc, bytes, trouble), None) {
        Ok(metadata) => metadata,
        Err((_fault, _file)) => panic!(rt; "the file is refused"),
    }
}

fn refusal(
    rt: &impl Abort,
    alloc: Global,
    bytes: &SparseBytes,
    asked: Option<u64>,
) -> Option<MetadataFault> {
    match open(alloc, file_of(rt, alloc, bytes, Trouble::Never), asked) {
        Ok(_metadata) => None,
        Err((fault, _file)) => Some(fault),
    }
}

// The bytes of a file that was created and never used.
fn created(rt: &impl Abort, alloc: Global) -> SparseBytes {
    let file = file_of(rt, alloc, &SparseBytes::new(alloc), Trouble::Never);
    match create(alloc, file, HEADER, &first()) {
        Ok(metadata) => left(rt, metadata, AfterCrash::Lost),
        Err((_fault, _file)) => panic!(rt; "the file is not created"),
    }
}

// What a crash now leaves.
fn left(rt: &impl Abort, metadata: Metadata<File>, reading: AfterCrash) -> SparseBytes {
    let file = metadata.into_file().into_raw();
    file.after_crash(reading).expect(rt, "memory")
}

fn is_entered(rt: &impl Abort, metadata: &Metadata<File>, extent: u64) -> bool {
    assert!(rt; extent < metadata.extents());
    metadata.is_entered(Extent(extent))
}

// The marks of the blocks 0 to 7.
fn marks(rt: &impl Abort, metadata: &mut Metadata<File>) -> [u8; 8] {
    let mut found = [0u8; 8];
    assert!(rt; metadata.header().blocks == BLOCKS);
    metadata.marks(Block(0), &mut found).expect(rt, "marks");
    found
}

#[derive(Clone, Copy, Debug, PartialEq, Eq)]
enum Call {
    EnterAll,
    Enter,
    Leave,
    Mark,
    Unmark,
    Sync,
    Save,
}

const CALLS: [Call; 7] = [
    Call::EnterAll,
    Call::Enter,
    Call::Leave,
    Call::Mark,
    Call::Unmark,
    Call::Sync,
    Call::Save,
];

const READINGS: [AfterCrash; 5] = [
    AfterCrash::Lost,
    AfterCrash::Kept,
    AfterCrash::Half,
    AfterCrash::Torn(0),
    AfterCrash::Torn(255),
];

// Enters all extents, enters extent 1, leaves extent 0, marks the blocks 4 and 5, unmarks the blocks 3 and 4, syncs, or saves the second identifiers.
fn run(rt: &impl Abort, metadata: &mut Metadata<File>, call: Call) -> Result<(), MetadataFault> {
    assert!(rt; metadata.extents() == 2);
    assert!(rt; metadata.header().blocks == BLOCKS);
    match call {
        Call::EnterAll => metadata.enter_all(),
        Call::Enter => metadata.enter(Extent(1)),
        Call::Leave => metadata.leave(Extent(0)),
        Call::Mark => metadata.mark(Block(4), 2),
        Call::Unmark => metadata.unmark(Block(3), 2),
        Call::Sync => metadata.sync(),
        Call::Save => metadata.save(&second()),
    }
}

// The bytes of a file in which extent 0 is entered and the blocks 3 and 6 are marked.
fn used(rt: &impl Abort, alloc: Global) -> SparseBytes {
    let bytes = created(rt, alloc);
    let mut metadata = opened(rt, alloc, &bytes, Trouble::Never);
    assert!(rt; metadata.extents() == 2);
    metadata.enter(Extent(0)).expect(rt, "enter");
    assert!(rt; metadata.header().blocks == BLOCKS);
    metadata.mark(Block(3), 1).expect(rt, "mark");
    assert!(rt; metadata.header().blocks == BLOCKS);
    metadata.mark(Block(6), 1).expect(rt, "mark");
    metadata.sync().expect(rt, "sync");
    left(rt, metadata, AfterCrash::Lost)
}

// The bytes of a file of the wide device in which extent 1 is entered.
fn wide(rt: &impl Abort, alloc: Global) -> SparseBytes {
    let file = file_of(rt, alloc, &SparseBytes::new(alloc), Trouble::Never);
    let header = Header {
        blocks: WIDE_BLOCKS,
        ..HEADER
    };
    match create(alloc, file, header, &first()) {
        Ok(mut metadata) => {
            assert!(rt; metadata.extents() == MAX_MARKS + 3);
            metadata.enter(Extent(1)).expect(rt, "enter");
            left(rt, metadata, AfterCrash::Lost)
        }
        Err((_fault, _file)) => panic!(rt; "the file is not created"),
    }
}

fn are_all_entered(rt: &impl Abort, metadata: &Metadata<File>) -> bool {
    for extent in 0..metadata.extents() {
        if !is_entered(rt, metadata, extent) {
            return false;
        }
    }
    true
}

fn has(file: &SparseBytes, at: u64, bytes: &[u8]) -> bool {
    let mut place = at;
    for byte in bytes {
        if file.get(place) != *byte {
            return false;
        }
        place = place.saturating_add(1);
    }
    true
}

// The first bytes of a file with this header.
fn beginning(rt: &impl Abort, alloc: Global, len: u64) -> SparseBytes {
    let mut bytes = SparseBytes::new(alloc);
    for (at, byte) in HEADER_BYTES.iter().enumerate() {
        bytes.put(at as u64, *byte).expect(rt, "memory");
    }
    bytes.set_len(len);
    bytes
}

#[test]
fn a_created_file_has_the_bytes_of_the_table(rt: HostRuntime) {
    let bytes = created(&rt, rt.alloc());
    assert_eq!(rt; bytes.len(), 2_101_248 + 2000);
    assert!(rt; has(&bytes, 0, &HEADER_BYTES));
    assert!(rt; has(&bytes, 1024, &SLOT_BYTES));
    // Nothing else is there.
    assert_eq!(rt; bytes.count_set(), 29 + 44);
}

#[test]
fn what_was_written_is_read_again(rt: HostRuntime) {
    let alloc = rt.alloc();
    let mut metadata = opened(&rt, alloc, &used(&rt, alloc), Trouble::Never);
    assert!(rt; metadata.identifiers() == first());
    assert!(rt; is_entered(&rt, &metadata, 0) && !is_entered(&rt, &metadata, 1));
    assert!(rt; marks(&rt, &mut metadata) == [0, 0, 0, 1, 0, 0, 1, 0]);
    for call in CALLS {
        run(&rt, &mut metadata, call).expect(&rt, "a call");
    }
    metadata.sync().expect(&rt, "sync");
    let bytes = left(&rt, metadata, AfterCrash::Lost);
    let mut metadata = opened(&rt, alloc, &bytes, Trouble::Never);
    assert!(rt; metadata.header() == HEADER);
    assert!(rt; metadata.identifiers() == second());
    assert!(rt; !is_entered(&rt, &metadata, 0) && is_entered(&rt, &metadata, 1));
    assert!(rt; marks(&rt, &mut metadata) == [0, 0, 0, 0, 0, 1, 1, 0]);
}

#[test]
fn an_open_refuses_each_damaged_byte(rt: HostRuntime) {
    let alloc = rt.alloc();
    let mut bytes = created(&rt, alloc);
    for (from, to, fault) in [
        (0, 8, MetadataFault::NotMetadata),
        (8, 12, MetadataFault::OtherVersion),
        (12, 48, MetadataFault::HeaderDamaged),
        (1024, 1152, MetadataFault::IdentifiersDamaged),
    ] {
        for at in from..to {
            let was = bytes.get(at);
            bytes.put(at, was ^ 1).expect(&rt, "memory");
            assert!(rt; refusal(&rt, alloc, &bytes, None) == Some(fault));
            bytes.put(at, was).expect(&rt, "memory");
        }
    }
    assert!(rt; refusal(&rt, alloc, &bytes, None).is_none());
}

#[test]
fn an_open_refuses_files_of_other_sizes(rt: HostRuntime) {
    let alloc = rt.alloc();
    let mut bytes = created(&rt, alloc);
    assert!(rt; refusal(&rt, alloc, &bytes, Some(BLOCKS)).is_none());
    assert!(rt; refusal(&rt, alloc, &bytes, Some(BLOCKS + 1)) == Some(MetadataFault::OtherBlocks));
    assert!(rt;
        refusal(&rt, alloc, &SparseBytes::new(alloc), None) == Some(MetadataFault::NotMetadata)
    );
    assert!(rt;
        refusal(&rt, alloc, &beginning(&rt, alloc, 47), None) == Some(MetadataFault::NotMetadata)
    );
    assert!(rt;
        refusal(&rt, alloc, &beginning(&rt, alloc, 48), None) == Some(MetadataFault::OtherLength)
    );
    bytes.set_len(2_103_249);
    assert!(rt; refusal(&rt, alloc, &bytes, None) == Some(MetadataFault::OtherLength));
    match create(
        alloc,
        file_of(&rt, alloc, &bytes, Trouble::Never),
        HEADER,
        &first(),
    ) {
        Ok(_metadata) => panic!(rt; "a file that is not empty"),
        Err((fault, _file)) => assert!(rt; fault == MetadataFault::NotEmpty),
    }
}

#[test]
fn an_open_tells_of_each_call_that_fails(rt: HostRuntime) {
    let alloc = rt.alloc();
    let bytes = created(&rt, alloc);
    for call in 1..=OPEN_CALLS {
        match open(
            alloc,
            file_of(&rt, alloc, &bytes, Trouble::FailsAt(call)),
            None,
        ) {
            Ok(_metadata) => panic!(rt; "a call failed"),
            Err((fault, file)) => {
                assert!(rt; fault == MetadataFault::File(FileFault::Failed));
                let file = file.into_raw();
                assert!(rt;
                    has(file.bytes(), 0, &HEADER_BYTES)
                        && file.bytes().count_set() == bytes.count_set()
                );
            }
        }
    }
}

#[test]
fn a_stop_in_a_creation_leaves_all_or_no_metadata(rt: HostRuntime) {
    let alloc = rt.alloc();
    for call in 1..=10 {
        for reading in READINGS {
            let file = match create(
                alloc,
                file_of(&rt, alloc, &SparseBytes::new(alloc), Trouble::StopsAt(call)),
                HEADER,
                &first(),
            ) {
                Ok(metadata) => metadata.into_file(),
                Err((_fault, file)) => file,
            };
            let bytes = file.into_raw().after_crash(reading).expect(&rt, "memory");
            let fault = refusal(&rt, alloc, &bytes, Some(BLOCKS));
            assert!(rt; fault == Some(MetadataFault::NotMetadata) || fault.is_none());
            if fault.is_none() {
                assert!(rt; opened(&rt, alloc, &bytes, Trouble::Never).identifiers() == first());
            }
        }
    }
}

#[test]
fn a_stop_in_a_call_loses_nothing_else(rt: HostRuntime) {
    let alloc = rt.alloc();
    let bytes = used(&rt, alloc);
    for call in CALLS {
        for after in 1..=5 {
            for reading in READINGS {
                let mut metadata = opened(&rt, alloc, &bytes, Trouble::StopsAt(OPEN_CALLS + after));
                let done = run(&rt, &mut metadata, call).is_ok();
                let bytes = left(&rt, metadata, reading);
                let mut metadata = opened(&rt, alloc, &bytes, Trouble::Never);
                stands(&rt, &mut metadata, call, done);
            }
        }
    }
}

// What stood before the call stands, and what the call did if it was done and has synced.
fn stands(rt: &impl Abort, metadata: &mut Metadata<File>, call: Call, done: bool) {
    let identifiers = metadata.identifiers();
    let (zero, one) = (is_entered(rt, metadata, 0), is_entered(rt, metadata, 1));
    let found = marks(rt, metadata);
    assert!(rt; identifiers == first() || call == Call::Save && identifiers == second());
    assert!(rt; zero || call == Call::Leave);
    assert!(rt; !one || call == Call::Enter || call == Call::EnterAll);
    assert!(rt; found[..3] == [0, 0, 0] && found[6] != 0 && found[7] == 0);
    assert!(rt; found[3] != 0 || call == Call::Unmark);
    assert!(rt; found[5] == 0 || call == Call::Mark);
    if done {
        assert!(rt; one || call != Call::Enter && call != Call::EnterAll);
        assert!(rt; identifiers == second() || call != Call::Save);
    }
}

#[test]
fn a_stop_while_all_extents_are_entered_keeps_what_was_entered(rt: HostRuntime) {
    let alloc = rt.alloc();
    let bytes = wide(&rt, alloc);
    // Extent 0, as many as one write enters, those behind them, and the sync.
    let calls = 4;
    for after in 1..=calls + 1 {
        for reading in READINGS {
            let mut metadata = opened(&rt, alloc, &bytes, Trouble::StopsAt(OPEN_CALLS + after));
            let done = metadata.enter_all().is_ok();
            assert!(rt; done == (after > calls));
            let bytes = left(&rt, metadata, reading);
            let metadata = opened(&rt, alloc, &bytes, Trouble::Never);
            assert!(rt; metadata.identifiers() == first());
            assert!(rt; is_entered(&rt, &metadata, 1));
            assert!(rt; !done || are_all_entered(&rt, &metadata));
        }
    }
}

#[test]
fn after_a_failed_call_nothing_is_touched(rt: HostRuntime) {
    let alloc = rt.alloc();
    let bytes = used(&rt, alloc);
    for failing in CALLS {
        let mut metadata = opened(&rt, alloc, &bytes, Trouble::FailsAt(OPEN_CALLS + 1));
        assert!(rt;
            run(&rt, &mut metadata, failing) == Err(MetadataFault::File(FileFault::Failed))
        );
        assert!(rt; metadata.is_broken());
        for call in CALLS {
            assert!(rt; run(&rt, &mut metadata, call) == Err(MetadataFault::Broken));
        }
        assert!(rt; metadata.into_file().into_raw().calls() == OPEN_CALLS + 1);
    }
}

#[test]
fn an_extent_is_entered_once_and_many_blocks_are_marked(rt: HostRuntime) {
    let alloc = rt.alloc();
    let mut metadata = opened(&rt, alloc, &used(&rt, alloc), Trouble::Never);
    assert!(rt; metadata.extents() == 2);
    metadata.enter(Extent(0)).expect(&rt, "enter");
    assert!(rt; metadata.header().blocks == BLOCKS && BLOCKS <= MAX_MARKS);
    metadata.mark(Block(0), BLOCKS).expect(&rt, "mark");
    assert!(rt; metadata.header().blocks == BLOCKS);
    metadata.unmark(Block(1), BLOCKS - 2).expect(&rt, "unmark");
    let file = metadata.into_file().into_raw();
    assert!(rt; file.calls() == OPEN_CALLS + 2);
    let bytes = file.bytes();
    assert!(rt; bytes.len() == 2_103_248);
    assert!(rt;
        bytes.get(2_101_248) == 1
            && bytes.get(2_101_249) == 0
            && bytes.get(2_103_246) == 0
            && bytes.get(2_103_247) == 1
    );
}
