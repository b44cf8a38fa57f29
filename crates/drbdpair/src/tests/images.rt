//! Tests of images: which are refused, and what a run makes of the others.
use crate::program::run_on;
use crate::tests::{outcome_of, runs};
use std::fs::{OpenOptions, Permissions};
use std::io::{IsTerminal, Write};
use std::os::unix::fs::{MetadataExt, PermissionsExt, chown, symlink};
use std::process::Abort;
use std::rt::Files;
use std::{fs, io};

/// Writes an image of `count` bytes, each of them `byte`, where the program looks for it.
fn put_image(rt: &(impl Abort + AllocGlobal + Files), name: &str, byte: u8, count: usize) {
    let image = Vec::from_elem(rt.alloc(), byte, count).expect(rt, "memory");
    fs::write(rt, name, image.as_slice()).expect(rt, "an image");
}

/// Returns an image as the program left it, and removes the file.
fn take_image(rt: &(impl Abort + AllocGlobal + Files), name: &str) -> Vec<u8> {
    let image = fs::read(rt, name).expect(rt, "an image");
    fs::remove_file(rt, name).expect(rt, "an image");
    image
}

/// Checks that the program left an image of `count` bytes, each of them `byte`, and removes the file.
fn check_left(rt: &(impl Abort + AllocGlobal + Files), name: &str, byte: u8, count: usize) {
    let wanted = Vec::from_elem(rt.alloc(), byte, count).expect(rt, "memory");
    assert!(rt; take_image(rt, name) == wanted, "{name}");
}

/// Both images hold what was written, and no other file remains beside them.
#[test]
fn images_are_saved(rt: HostRuntime) {
    put_image(&rt, "saved_local", 0, 32_768);
    put_image(&rt, "saved_peer", 0, 32_768);
    let words = [
        "drbdpair",
        "run",
        "--writers",
        "1",
        "--local",
        "saved_local",
        "--peer",
        "saved_peer",
    ];
    runs(&rt, &words, "completed 10\nsettled 10\nunmarked 0\n", 0);
    for name in ["saved_local", "saved_peer"] {
        check_written(&rt, &take_image(&rt, name));
    }
    assert!(rt; fs::metadata(&rt, "saved_local.local-new").is_err());
    assert!(rt; fs::metadata(&rt, "saved_peer.peer-new").is_err());
}

/// A run follows a link to an image in another folder: the link stays, its target is replaced, and the folder has no
/// other file than the images.
#[test]
fn a_link_to_an_image_is_followed(rt: HostRuntime) {
    fs::create_dir(&rt, "linked").expect(&rt, "a folder");
    put_image(&rt, "linked/local", 0, 32_768);
    put_image(&rt, "linked/peer", 0, 32_768);
    symlink(&rt, "linked/local", "link_to_local").expect(&rt, "a link");
    let words = [
        "drbdpair",
        "run",
        "--writers",
        "1",
        "--local",
        "link_to_local",
        "--peer",
        "linked/peer",
    ];
    runs(&rt, &words, "completed 10\nsettled 10\nunmarked 0\n", 0);
    let link = fs::symlink_metadata(&rt, "link_to_local").expect(&rt, "a link");
    assert!(rt; link.is_symlink());
    for name in ["linked/local", "linked/peer"] {
        check_written(&rt, &take_image(&rt, name));
    }
    fs::remove_file(&rt, "link_to_local").expect(&rt, "a link");
    // Only an empty folder is removed.
    fs::remove_dir(&rt, "linked").expect(&rt, "an empty folder");
}

/// A command over images that cannot be used, and its message.
#[derive(Clone, Copy)]
struct UnusableImages {
    command: &'static str,
    local: &'static str,
    peer: &'static str,
    message: &'static str,
}

const UNUSABLE: [UnusableImages; 6] = [
    UnusableImages {
        command: "run",
        local: "used_image",
        peer: "free_image",
        message: "used_image: the image is in use, by another process or under another path\n",
    },
    UnusableImages {
        command: "tcp",
        local: "free_image",
        peer: "used_image",
        message: "used_image: the image is in use, by another process or under another path\n",
    },
    UnusableImages {
        command: "run",
        local: "free_image",
        peer: "./free_image",
        message: "./free_image: the image is in use, by another process or under another path\n",
    },
    UnusableImages {
        command: "serve",
        local: "used_image",
        peer: "free_image",
        message: "used_image: the image is in use, by another process or under another path\n",
    },
    UnusableImages {
        command: "serve",
        local: "empty_image",
        peer: "free_image",
        message: "empty_image: an image has 1 to 2147483648 blocks of 4096 bytes\n",
    },
    UnusableImages {
        command: "serve",
        local: "free_image",
        peer: "free_link",
        message: "free_link: the image is in use, by another process or under another path\n",
    },
];

/// An image that is locked, is the local one under another path, or has no block, is refused, and both images stay as they
/// were. Once it is free again it is used.
#[test]
fn an_image_that_cannot_be_used_is_refused(rt: HostRuntime) {
    put_image(&rt, "free_image", 0, 32_768);
    put_image(&rt, "used_image", 0, 32_768);
    put_image(&rt, "empty_image", 0, 0);
    symlink(&rt, "free_image", "free_link").expect(&rt, "a link");
    let other = OpenOptions::new().write(true).open(&rt, "used_image");
    let other = other.expect(&rt, "an image");
    assert!(rt; other.try_lock().is_ok());
    for images in UNUSABLE {
        let words = [
            "drbdpair",
            images.command,
            "--local",
            images.local,
            "--peer",
            images.peer,
        ];
        let outcome = outcome_of(&rt, &words, "");
        assert_eq!(rt; (outcome.status, outcome.written.is_empty()), (1, true));
        assert_eq!(rt; outcome.said.bytes.as_slice(), images.message.as_bytes());
    }
    drop(other);
    let words = ["drbdpair", "run", "--writers", "1", "--local", "used_image"];
    runs(&rt, &words, "completed 10\nsettled 10\nunmarked 0\n", 0);
    check_written(&rt, &take_image(&rt, "used_image"));
    check_left(&rt, "free_image", 0, 32_768);
    fs::remove_file(&rt, "empty_image").expect(&rt, "an image");
    fs::remove_file(&rt, "free_link").expect(&rt, "a link");
}

/// Checks that an image holds what one writer wrote.
fn check_written(rt: &impl Abort, image: &[u8]) {
    assert_eq!(rt; image.len(), 32_768);
    let wanted = [9u8, 10, 3, 4, 5, 6, 7, 8];
    for (place, byte) in image.iter().enumerate() {
        assert_eq!(rt; Some(byte), wanted.get(place / 4096));
    }
}

/// A saved image has the owner, the group and the permissions of the file that it replaces. Only root can give a file away;
/// for others the image is their own.
#[test]
fn a_saved_image_keeps_its_owner(rt: HostRuntime) {
    put_image(&rt, "owned_image", 0, 32_768);
    let _ = chown(&rt, "owned_image", Some(1), Some(2));
    let permissions = Permissions::from_mode(0o640);
    fs::set_permissions(&rt, "owned_image", permissions).expect(&rt, "permissions");
    let before = fs::metadata(&rt, "owned_image").expect(&rt, "an image");
    let words = ["drbdpair", "run", "--writers", "1", "--peer", "owned_image"];
    runs(&rt, &words, "completed 10\nsettled 10\nunmarked 0\n", 0);
    let after = fs::metadata(&rt, "owned_image").expect(&rt, "an image");
    assert_eq!(rt;
        (after.uid(), after.gid(), after.mode()),
        (before.uid(), before.gid(), before.mode())
    );
    check_written(&rt, &take_image(&rt, "owned_image"));
}

/// An image of another length is refused, and stays as it was. The local image is checked before the peer's.
#[test]
fn images_have_the_length_of_their_blocks(rt: HostRuntime) {
    put_image(&rt, "short_image", 0, 32_767);
    let words = ["drbdpair", "run", "--peer", "short_image"];
    runs(&rt, &words, "", 1);
    let words = [
        "drbdpair",
        "run",
        "--local",
        "short_image",
        "--peer",
        "no/such/file",
    ];
    let outcome = outcome_of(&rt, &words, "");
    assert_eq!(rt; outcome.status, 1);
    let line =
        "short_image: the image has 32767 bytes, and an image of this device has 32768 (see --blocks)\n";
    assert_eq!(rt; outcome.said.bytes.as_slice(), line.as_bytes());
    check_left(&rt, "short_image", 0, 32_767);
}

/// Images that differ are equal after a run, and a block that nobody wrote is the local image's.
#[test]
fn images_that_differ_become_alike(rt: HostRuntime) {
    put_image(&rt, "differs_local", 1, 65_536);
    put_image(&rt, "differs_peer", 2, 65_536);
    let words = [
        "drbdpair",
        "run",
        "--blocks",
        "16",
        "--writers",
        "1",
        "--local",
        "differs_local",
        "--peer",
        "differs_peer",
    ];
    runs(&rt, &words, "completed 10\nsettled 10\nunmarked 0\n", 0);
    let local = take_image(&rt, "differs_local");
    let peer = take_image(&rt, "differs_peer");
    assert_eq!(rt; local.get(40_960), Some(&1));
    assert!(rt; local == peer);
}

/// What has the name of the file beside an image, be it a file, the other image or a link, is refused before the run, and
/// all files stay as they were.
#[test]
fn what_is_beside_an_image_is_refused(rt: HostRuntime) {
    for (name, byte) in FILES_BESIDE {
        put_image(&rt, name, byte, 32_768);
    }
    symlink(&rt, "beside_precious", "beside_b.local-new").expect(&rt, "a link");
    symlink(&rt, "no/such/file", "beside_c.peer-new").expect(&rt, "a link");
    for images in OCCUPIED {
        let words = [
            "drbdpair",
            "run",
            "--local",
            images.local,
            "--peer",
            images.peer,
        ];
        let outcome = outcome_of(&rt, &words, "");
        assert_eq!(rt; (outcome.status, outcome.written.is_empty()), (1, true));
        let text = str::from_utf8(outcome.said.bytes.as_slice()).unwrap_or("");
        assert!(rt; text.starts_with(images.message), "{text}");
    }
    for (name, byte) in FILES_BESIDE {
        check_left(&rt, name, byte, 32_768);
    }
    for name in ["beside_b.local-new", "beside_c.peer-new"] {
        let link = fs::symlink_metadata(&rt, name).expect(&rt, "a link");
        assert!(rt; link.is_symlink());
        fs::remove_file(&rt, name).expect(&rt, "a link");
    }
}

/// Images that cannot be saved, since a file beside one is in the way, and the start of the message.
#[derive(Clone, Copy)]
struct OccupiedImages {
    local: &'static str,
    peer: &'static str,
    message: &'static str,
}

const OCCUPIED: [OccupiedImages; 5] = [
    OccupiedImages {
        local: "beside_c",
        peer: "beside_a",
        message: "beside_a cannot be saved, as ",
    },
    OccupiedImages {
        local: "beside_b",
        peer: "beside_a.peer-new",
        message: "beside_b cannot be saved, as ",
    },
    OccupiedImages {
        local: "beside_a.peer-new",
        peer: "beside_a",
        message: "beside_a cannot be saved, as ",
    },
    OccupiedImages {
        local: "beside_a",
        peer: "beside_a.local-new",
        message: "beside_a cannot be saved, as ",
    },
    OccupiedImages {
        local: "beside_precious",
        peer: "beside_c",
        message: "beside_c cannot be saved, as ",
    },
];

/// Images, and files that have names of those beside them, each with the byte that it is filled with.
const FILES_BESIDE: [(&str, u8); 6] = [
    ("beside_a", 1),
    ("beside_a.local-new", 2),
    ("beside_a.peer-new", 3),
    ("beside_b", 4),
    ("beside_c", 5),
    ("beside_precious", 6),
];

/// A standard error on which the first line makes a file beside the peer's image, as another program might during a run.
#[derive(Drop)]
struct Meddler<'a, H> {
    rt: &'a H,
    is_done: bool,
}

impl<H: Files> Write for Meddler<'_, H> {
    fn write(&mut self, bytes: &[u8]) -> io::Result<usize> {
        if !self.is_done {
            fs::write(self.rt, "late_peer.peer-new", "here first")?;
            self.is_done = true;
        }
        Ok(bytes.len())
    }

    fn flush(&mut self) -> io::Result<()> {
        Ok(())
    }
}

impl<H> IsTerminal for Meddler<'_, H> {
    fn is_terminal(&self) -> bool {
        false
    }
}

/// A disk that cannot be saved gives status 1. Both images stay as they were, and so does what came beside one of them
/// during the run; what was written beside the other one is removed.
#[test]
fn a_failed_save_loses_nothing(rt: HostRuntime) {
    put_image(&rt, "late_local", 0, 32_768);
    put_image(&rt, "late_peer", 0, 32_768);
    let words = [
        "drbdpair",
        "run",
        "--status",
        "--local",
        "late_local",
        "--peer",
        "late_peer",
    ];
    let mut written = Vec::new(rt.alloc());
    let mut meddler = Meddler {
        rt: &rt,
        is_done: false,
    };
    let status = run_on(&rt, &words, b"".as_slice(), &mut written, &mut meddler);
    assert_eq!(rt; (status, written.is_empty()), (1, true));
    check_left(&rt, "late_local", 0, 32_768);
    check_left(&rt, "late_peer", 0, 32_768);
    assert!(rt; fs::metadata(&rt, "late_local.local-new").is_err());
    let other = take_image(&rt, "late_peer.peer-new");
    assert_eq!(rt; other.as_slice(), b"here first".as_slice());
}

/// What stands above and below the line of `show-gi`, as `drbdmeta` of drbd-utils 9.22 prints it for DRBD 8.4 of 32 KiB.
const SHOWN: [&str; 2] = [
    "
       +--<  Current data generation UUID  >-
       |               +--<  Bitmap's base data generation UUID  >-
       |               |                 +--<  younger history UUID  >-
       |               |                 |         +-<  older history  >-
       V               V                 V         V
",
    "
                                                                    ^ ^ ^ ^ ^ ^ ^
                                      -<  Data consistency flag  >--+ | | | | | |
                             -<  Data was/is currently up-to-date  >--+ | | | | |
                                  -<  Node was/is currently primary  >--+ | | | |
                                  -<  Node was/is currently connected  >--+ | | |
         -<  Node was in the progress of setting all bits in the bitmap  >--+ | |
                        -<  The peer's disk was out-dated or inconsistent  >--+ |
      -<  This node was a crashed primary, and has not seen its peer since   >--+

flags: Primary, StandAlone, UpToDate
meta-data: need apply-al
last agreed size: 32 KB (64 sectors)
last agreed max bio size: 0 Byte
",
];

/// The identifiers of metadata that was made just now are those of a primary that was not told to end, as DRBD's tools print them.
#[test]
fn identifiers_are_printed(rt: HostRuntime) {
    put_image(&rt, "identified", 0, 32_768);
    let outcome = outcome_of(&rt, &["drbdpair", "get-gi", "identified"], "");
    assert_eq!(rt; (outcome.status, outcome.written.is_empty()), (1, true));
    assert_eq!(rt;
        outcome.said.bytes.as_slice(),
        b"identified has no metadata\n".as_slice()
    );
    let outcome = outcome_of(&rt, &["drbdpair", "create-md", "identified"], "");
    assert_eq!(rt; outcome.status, 0);
    let line = outcome_of(&rt, &["drbdpair", "get-gi", "identified"], "");
    let shown = outcome_of(&rt, &["drbdpair", "show-gi", "identified"], "");
    assert_eq!(rt; (line.status, shown.status), (0, 0));
    let text = str::from_utf8(line.written.as_slice()).unwrap_or("");
    let zero = "0000000000000000";
    let tail = format!(in rt.alloc(); ":{zero}:{zero}:{zero}:1:1:1:0:0:0:0\n").expect(
        &rt, "memory",
    );
    assert!(rt; text.ends_with(tail.as_str()), "{text}");
    assert_eq!(rt; text.len(), 82);
    let [above, below] = SHOWN;
    let line = text.trim_end();
    let wanted = format!(in rt.alloc(); "{above}{line}{below}").expect(&rt, "memory");
    assert_eq!(rt; shown.written.as_slice(), wanted.as_bytes());
    fs::remove_file(&rt, "identified.metadata").expect(&rt, "metadata");
    fs::remove_file(&rt, "identified").expect(&rt, "an image");
}

/// A dry run says what a first start does, or why it is refused, and leaves no metadata.
#[test]
fn a_dry_run_writes_nothing(rt: HostRuntime) {
    put_image(&rt, "dry_local", 1, 32_768);
    put_image(&rt, "dry_peer", 2, 32_768);
    let words = [
        "drbdpair",
        "serve",
        "--local",
        "dry_local",
        "--peer",
        "dry_peer",
        "--dry-run",
    ];
    let outcome = outcome_of(&rt, &words, "");
    assert_eq!(rt; outcome.status, 0);
    assert_eq!(rt;
        outcome.written.as_slice(),
        b"to copy: 8 blocks, 1 MiB\n".as_slice()
    );
    assert_eq!(rt;
        outcome.said.bytes.as_slice(),
        b"both images get metadata, since neither has any\n8 blocks differ, and are copied from the local image over the peer's\n".as_slice()
    );
    assert!(rt; fs::metadata(&rt, "dry_local.metadata").is_err());
    assert!(rt; fs::metadata(&rt, "dry_peer.metadata").is_err());
    check_left(&rt, "dry_peer", 2, 32_768);
    let outcome = outcome_of(&rt, &words, "");
    assert_eq!(rt; (outcome.status, outcome.written.is_empty()), (1, true));
    check_left(&rt, "dry_local", 1, 32_768);
}
