//! What the words of a status line mean, each in a sentence.

/// A word, and what it means.
pub(crate) type Meaning = (&'static str, &'static str);

/// The states of the primary's end of the link.
pub(crate) const PRIMARY_LINK: [Meaning; 4] = [
    (
        "StandAlone",
        "The link is down. Writes go to the local image alone, and their blocks are marked.",
    ),
    (
        "WFReportParams",
        "The link is open, and both nodes tell each other what they have.",
    ),
    ("Connected", "Each write goes to both images."),
    (
        "SyncSource",
        "Marked blocks are copied to the peer, and each write goes to both images.",
    ),
];

/// The states of the secondary's end of the link.
pub(crate) const SECONDARY_LINK: [Meaning; 4] = [
    ("StandAlone", "The link is down."),
    (
        "WFReportParams",
        "The link is open, and both nodes tell each other what they have.",
    ),
    ("Connected", "It takes each write."),
    (
        "SyncTarget",
        "It gets the blocks that it lacks, and takes each write.",
    ),
];

/// The roles of a node.
pub(crate) const ROLE: [Meaning; 3] = [
    ("Primary", "Clients read and write here."),
    ("Secondary", "It keeps the second copy."),
    ("Unknown", "It cannot be asked while the link is down."),
];

/// The states of a node's disk.
pub(crate) const DISK: [Meaning; 4] = [
    (
        "UpToDate",
        "It has all that was answered to clients, but for writes under way.",
    ),
    (
        "Consistent",
        "It is whole. Whether it has the last writes is not known while the link is down.",
    ),
    (
        "Inconsistent",
        "It is a mixture of old and new blocks until the copy has ended.",
    ),
    ("DUnknown", "It cannot be asked while the link is down."),
];

/// The replication protocols.
pub(crate) const PROTOCOL: [Meaning; 3] = [
    (
        "A",
        "A write is answered once it is in the local image and was sent.",
    ),
    (
        "B",
        "A write is answered once it is in the local image and the peer has taken it.",
    ),
    ("C", "A write is answered once it is in both images."),
];

/// Whether the peer's data may be used.
pub(crate) const USABLE: [Meaning; 2] = [
    (
        "Yes",
        "The secondary calls its image whole: it could be served if the local one were lost.",
    ),
    ("No", "The peer's image is not to be served as it is."),
];

/// What a server began after.
pub(crate) const AFTER: [Meaning; 6] = [
    ("no-metadata", "No metadata is kept."),
    ("first", "The images got their metadata."),
    ("clean", "The last server ended as it was told to."),
    ("killed", "The last server was killed."),
    ("power-lost", "The last server ended with its system."),
    ("unknown", "The images did not fit their metadata."),
];

/// How the mirror is: a name for it, how it is to look, and a sentence.
pub(crate) const STATES: [(&str, &str, &str); 7] = [
    (
        "alike",
        "good",
        "Both images have the same data, but for writes under way.",
    ),
    (
        "marked",
        "busy",
        "The nodes are connected, and some blocks wait to be copied to the peer.",
    ),
    (
        "copying",
        "busy",
        "Blocks are being copied to the peer. Clients go on meanwhile.",
    ),
    ("greeting", "busy", "The nodes connect."),
    (
        "alone",
        "bad",
        "The link is down: only the local image gets what clients write, until the nodes connect again.",
    ),
    (
        "metadata-failed",
        "bad",
        "A node's metadata could not be written: the link stays down until the server starts again. See to its file system.",
    ),
    (
        "left-out",
        "bad",
        "A sync of the peer's image failed: it is left out until the server ends. See to its disk.",
    ),
];
