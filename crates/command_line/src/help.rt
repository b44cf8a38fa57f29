//! The text of `--help` below the usage: the script language, what a run does, the refusals, and the exit statuses.
use blocks::Refusal;
use std::fmt;
use std::fmt::Display;

/// The commands of a script, a line each.
const COMMANDS: &str = "\
A script has one command a line; empty lines and lines that begin with # print
nothing. With no words drbdpair reads a script from standard input, to its end,
and then runs it. The commands, each with what it may print:
  pair [KEY=VALUE ..]  makes two nodes with zeroed disks  pair ok
  connect S L          opens both ends, exchanges hellos  connect ok NoSync
  open S L             opens both ends, and no more       open ok
  submit FIRST N HH    writes N blocks of HH from FIRST   submit ok 1
  local W              the primary's disk does write W    local ok
  localfail W K        the primary's disk fails write W   localfail ok
  send                 the primary sends its next frame   send ok DATA 0
  receive              the secondary takes a frame        receive ok DATA 0
  peer P               the secondary's disk does item P   peer ok
  peerfail P K         the secondary's disk fails item P  peerfail ok
  ackout               the secondary acknowledges         ackout ok WRITE_ACK
  ackin                the primary takes that             ackin ok WRITE_ACK
  resync               the primary reads the next block   resync ok 3 1
  resyncfail           the primary's disk fails the read  resyncfail refused 14
  close primary        closes the primary's end           close ok 0
  close secondary      closes the secondary's end         close ok
  marks                which blocks are marked            marks 3 6
  diff                 on which blocks the disks differ   diff none
  tuples               both nodes' identifiers            tuples 1,0,0,0 1,0,0,0
  read NODE B          block B of primary or secondary    read AA
  status               both nodes' status lines           cs:Connected ..

pair comes first, and once; no key stands twice. S and L are two fresh numbers,
the identifiers of a resync and of a loss. N is at most 64, and HH two
hexadecimal digits. A failed write or item has its first K blocks written. One
space parts words: a line with a tab, a CR or two spaces in a row is no command.
Such a line stops the script. After a refused pair the next command stops the
script.

A place P is the number of an item in the stream of its connection, from 0: a
write, a barrier or a block of a resync. An epoch is the writes between two
barriers; the secondary's disk does those of one epoch in any order, and begins
none of the next before. connect, and ackin of UUIDS, tell the decision over the
identifiers: NoSync (nothing is copied), BitmapSync (the marked blocks are) or
FullSync (all blocks are). close primary counts the writes that it completes,
and resync tells the block and its place; marks and diff may print none, and
read mixed.

A line may end in completed W (write W is), barrier E (epoch E ended), and
synced (the resync is over).

The words of the status lines, the primary's first:
  cs                   its end: StandAlone (closed), WFReportParams (in the
                       hello), Connected, SyncSource or SyncTarget (a resync)
  ro, ds               role and data of this node, and of the other
  pr                   the protocol
  pe, ap               writes without the peer's answer, and not completed
  ep, oos              epochs not acknowledged, and KiB out of sync
  pending              items that wait for the secondary's disk
  use, whole           whether its data may be used, and up to which epoch

Keys of pair, with their defaults and ranges:
  protocol=C           A, B or C
  blocks=8             1 to 262144 blocks of 4 KiB
  max_epoch=2048       1 to 20000 writes an epoch
  slots=64             1 to 1024 active extents of 4 MiB
  backlog=1024         1 to 4096 writes that are not released
  link=64              1 to 1024 frames in each direction
  pending=1024         1 to 4096 items that wait for the secondary's disk
  own=1,0,0,0          the primary's generation identifiers: current, bitmap and
  peer=1,0,0,0         two historical ones; the secondary's

The script of one write, and what it prints:
  pair              => pair ok
  connect 5 7       => connect ok NoSync
  submit 2 1 AA     => submit ok 1
  local 1           => local ok
  send              => send ok DATA 0
  receive           => receive ok DATA 0
  peer 0            => peer ok
  ackout            => ackout ok WRITE_ACK
  ackin             => ackin ok WRITE_ACK completed 1 barrier 1
  tuples            => tuples 1,0,0,0 1,0,0,0

A command that is refused prints its first word, refused and a number. It
changes nothing, but a refused hello (30 to 33) closes that end. 2 is followed
by the number of the write in its way:
  submit 2 1 BB     => submit refused 2 1
Let write 1 be completed, as above, and submit again. A script does not meet the
refusals that are marked * below.
";

/// The exit statuses of a script.
const SCRIPT_STATUSES: &str = "
Exit statuses: 0 done (a refusal is a result); 1 a file, the output or memory
failed, or the script is not UTF-8; 2 wrong usage, or a line that stopped the
script.
";

/// What a run does, and what it prints.
const RUN: &str = "\
A run starts both nodes, connects them, and has W writers make K writes each, of
one block. Writer i makes its write j, both from 0, to block (i * K + j) mod N,
filled with the byte (i + j + 1) mod 256. It waits until the disks are alike, or
the link is down, disconnects, compares the disks, and prints three lines, X
being W * K:
  completed X          writes that were completed, as the protocol says
  settled X            those of them that the primary's journal confirms
  unmarked 0           blocks that differ and have no mark: 0, whatever was cut

An image is a file of N * 4096 bytes, which the run reads at its start, and
replaces at its end by what the disk holds then. A disk with no image is filled
with zeros, and is not saved. If the disks differ at the start, the secondary
counts as fresh, and every block is copied to it. Images are locked meanwhile:
if another run or a server uses one, the run fails with status 1. A symbolic
link stays, and the file that it names is replaced. A disk is first saved beside
its image, in a new file IMAGE.local-new or IMAGE.peer-new: if one is there, the
run fails with status 1.

With --cuts C, a further thread cuts the link and reconnects it, C times, while
the writers go on: the blocks that they write meanwhile are marked, and copied
at the next connection. A write of a lost connection is completed without the
peer. A connection that the nodes refuse (32, after quick cuts) is given up:
then marked blocks stay, on which the images may differ, and the status is 0 all
the same. --status shows them: oos is not 0 at the end.

  run --writers 4 --writes 50 --cuts 3
                    => completed 200
                    => settled 200
                    => unmarked 0

--status shows the status lines of both nodes on standard error, once a second
and at the end. On a terminal a run of more than a second shows how far it is.

A session that is refused prints refused R on standard error and none of the
three lines, and changes no image. R is 7 if there was no memory or no thread.
No other one is known to come. What a run asks for rules out all but these:
";

/// The exit statuses of a run.
const RUN_STATUSES: &str = "
Exit statuses: 0 done; 1 there was no memory or no thread (7), the output
failed, the disks differ without a mark, or an image cannot be locked, read or
saved, is no regular file, is of another length, is in use, or has something
beside it under the name IMAGE.local-new or IMAGE.peer-new; 2 wrong usage; 3 a
refusal other than 7. Of several faults the first is told.
";

/// The exit statuses of a run over sockets.
const TCP_STATUSES: &str = "
Exit statuses: those of run; 1 also if a socket could not be connected, or
failed in the hello.
";

/// The exit statuses of a server.
const SERVE_STATUSES: &str = "
Exit statuses: 0 done; 1 an image cannot be opened or locked, is no regular file
or block device, is of another length or is in use, the images cannot be
compared, an address cannot be listened at or is in use, or memory, a thread or
the output failed, or a metadata file cannot be used; or, at the end, blocks were
not copied or differ without a mark, a sync has failed, or an image may have kept
parts of a failed write, was replaced or has another length; 2 wrong usage; 3 the
images are given the wrong way round, or a session was refused by another number
than 7. Of several faults the last line tells the first, and a line before it
each further one. With --dry-run the status is that of the start's refusal, else 0.
";

/// What a run over sockets does.
const TCP: &str = "\
This is run, but the frames of each direction go over a socket on 127.0.0.1, in
this same process, and the link is not cut: see run --help for what is written,
for the images, for the three lines, and for refusals. If a socket fails, both
ends of the link close, the writers go on without it, and the blocks that may
differ are marked: the images may then differ, and the status is 0 all the same.
If a socket fails in the hello, no image is changed, and the run fails with
status 1: a socket failed, and the link was lost. If foreign bytes come over it
then, R may also be 20 to 25, 34 or 35.

  tcp --writers 4 --writes 50
                    => completed 200
                    => settled 200
                    => unmarked 0
";

/// What a server does, and what it prints.
const SERVE: &str = "\
Blocks that differ are copied from --local over --peer. Which these are the server
knows from the metadata that it keeps beside each image, in IMAGE.metadata.

The server mirrors two images of the same length, regular files or block
devices, 4 KiB to 8 TiB in whole blocks of 4 KiB, and serves them as one export
to clients of the network block device protocol, as qemu, nbdcopy and fio are,
256 of them at a time. It serves READ, WRITE, WRITE_ZEROES, FLUSH and FUA, of
whole blocks of 4 KiB; others get EINVAL. Each write goes to both images, to the
peer's over a link, and is answered once it is completed as the protocol says:
  A                    once it is in the local image and was sent
  B                    once it is in the local image and the peer has it
  C                    once it is in both images
A flush has the system put both images on stable storage. If that fails for
--peer, the server cuts the link, goes on with --local alone, and says so at its
end. It takes some 110 MB of memory, plus 100 MB for each TiB of the device,
plus up to 100 MB for each client with long requests under way. Both images are
locked meanwhile: if another server or a run uses one, the server fails with
status 1.

The first start makes the metadata. With --first compare, the default, the server
reads both images, says after each GiB how far it is, and copies the blocks that
differ. That takes long for large images, and clients wait meanwhile. --first copy
copies all of --local over --peer without a look. --first assume-equal takes the
images as alike, as two new files of zeros are: where they differ after all,
nothing says so, but drbdpair verify. Each later start copies what the metadata
says may differ, and says how much that is before it listens. If the metadata
cannot be used, all is copied, and a line says why. --local-metadata and
--peer-metadata name other files for it; for block devices they have to. With
--metadata none there is no metadata, each start is a first one, and if any
blocks differ all are copied.

  drbdpair serve --local a.img --peer b.img
  nbdcopy disk.img nbd://127.0.0.1

A line quit on standard input ends the server: it waits until its clients are
answered and the disks are alike, or until the peer's disk has done nothing for
ten seconds, puts both images on stable storage, and prints three lines:
  completed X          ranges of at most 32 blocks that clients wrote
  settled X            those of them that the primary's journal confirms
  unmarked 0           blocks that differ and have no mark
For images of more than 1 GiB the third line is unmarked not compared, unless
--compare asks for the comparison. If blocks could not be copied, as with a disk
that fails, a line on standard error says how many, and the status is 1; so it
is if a flush or the end could not put an image on stable storage, if the images
could not be compared, or if a file may have kept parts of a write that failed.
If an image was replaced or has another length, the three lines do not come. The
end of standard input does not end it. A signal kills it, which loses nothing
that was answered: the next start copies the extents of 4 MiB that were active.
After a power failure only what was flushed is certain, and what was lost lies
inside those extents, too. In the background the server reads its orders from a
pipe:

  mkfifo orders
  drbdpair serve --local a.img --peer b.img <> orders &
  echo quit > orders

With --cut-every S the link is cut every S seconds, and reconnected: the blocks
that clients write meanwhile are marked, and copied at the next connection.

Clients come by each address of --listen, which may be given more than once. With
unix:PATH that is a Unix socket of mode 0660 for clients of the same machine: put
it into a folder of its own, whose mode says who gets there. A dead server's
socket is replaced; if a server answers there, or it is no socket, this one fails
with status 1.
  drbdpair serve --local a.img --peer b.img --listen unix:/srv/sockets/nbd
  nbdinfo 'nbd+unix:///?socket=/srv/sockets/nbd'

With --status PORT, or unix:PATH, a page tells of both nodes: the status lines, as
drbdpair script --help explains them, the same as JSON, and metrics for Prometheus.
A browser gets a page that explains the words and follows the server.
  curl http://127.0.0.1:PORT/
  curl http://127.0.0.1:PORT/status.json
  curl http://127.0.0.1:PORT/metrics

With --name NAME the page is also at the Unix socket NAME/status in the folder of
--run-dir, where drbdpair status NAME and its kin ask. The folder NAME is made if
it is not there. A name has 1 to 64 letters, digits, -, _ and ., the first a letter
or a digit.
  drbdpair serve --local a.img --peer b.img --name r0 --run-dir /tmp/run
  drbdpair status r0 --run-dir /tmp/run

With --dry-run nothing is served, and nothing is written: drbdpair locks both
images, reads their metadata, compares them where a first start would, says what a
start would copy and why, or why it would be refused, and prints how much:
  to copy: N blocks, M MiB
No address is listened at, and no metadata file is made.
  drbdpair serve --local a.img --peer b.img --dry-run

Once the server listens, standard error has a line for each event, with a date, or
with a priority where systemd's journal takes it: connected, lost, resync-begun,
resyncing every ten seconds of a copy, resync-done, disk-failed and stopped.

A start that fails prints a line on standard error that says why.
";

/// The refusals in the order of their numbers.
const REFUSALS: [Refusal; 32] = [
    Refusal::BadRange,
    Refusal::Conflict(1),
    Refusal::LogFull,
    Refusal::ActivityFull,
    Refusal::JournalFull,
    Refusal::StreamFull,
    Refusal::NoMemory,
    Refusal::LocalFault,
    Refusal::NotCompleted,
    Refusal::NothingToDo,
    Refusal::LinkFull,
    Refusal::NotConnected,
    Refusal::NothingThere,
    Refusal::ReadFault,
    Refusal::BadSetting,
    Refusal::UnknownJob,
    Refusal::EpochOpen,
    Refusal::PendingFull,
    Refusal::StrangeReceipt,
    Refusal::BadMagic,
    Refusal::BadCommand,
    Refusal::BadLength,
    Refusal::BadField,
    Refusal::BadBarrierAck,
    Refusal::UnknownAck,
    Refusal::PrimaryStale,
    Refusal::SplitBrain,
    Refusal::Unrelated,
    Refusal::UsedIdentifier,
    Refusal::OtherProtocol,
    Refusal::OtherSize,
    Refusal::NotDrained,
];

/// The refusals that the calls of a run may return, in the order of their numbers. Those are left out that its options, its
/// disks in memory and its writes of a block inside the device rule out.
const RUN_REFUSALS: [Refusal; 9] = [
    Refusal::NoMemory,
    Refusal::NotConnected,
    Refusal::UnknownJob,
    Refusal::StrangeReceipt,
    Refusal::PrimaryStale,
    Refusal::SplitBrain,
    Refusal::Unrelated,
    Refusal::UsedIdentifier,
    Refusal::NotDrained,
];

/// The text below the usage of the program and of `script`.
pub(crate) struct ScriptHelp;

/// The text below the usage of `run`.
pub(crate) struct RunHelp;

/// The text below the usage of `tcp`.
pub(crate) struct TcpHelp;

/// The text below the usage of `serve`.
pub(crate) struct ServeHelp;

impl Display for ScriptHelp {
    fn fmt<W: fmt::Write>(&self, f: &mut fmt::Formatter<W>) -> fmt::Result {
        f.write_str(COMMANDS)?;
        for refusal in REFUSALS {
            let mark = if is_met_by_scripts(&refusal) {
                ' '
            } else {
                '*'
            };
            writeln!(f, " {mark}{:>2}  {refusal}", refusal.number())?;
        }
        f.write_str(SCRIPT_STATUSES)
    }
}

impl Display for RunHelp {
    fn fmt<W: fmt::Write>(&self, f: &mut fmt::Formatter<W>) -> fmt::Result {
        f.write_str(RUN)?;
        for refusal in RUN_REFUSALS {
            writeln!(f, "  {:>2}  {refusal}", refusal.number())?;
        }
        f.write_str(RUN_STATUSES)
    }
}

impl Display for TcpHelp {
    fn fmt<W: fmt::Write>(&self, f: &mut fmt::Formatter<W>) -> fmt::Result {
        f.write_str(TCP)?;
        f.write_str(TCP_STATUSES)
    }
}

impl Display for ServeHelp {
    fn fmt<W: fmt::Write>(&self, f: &mut fmt::Formatter<W>) -> fmt::Result {
        f.write_str(SERVE)?;
        f.write_str(SERVE_STATUSES)
    }
}

// Returns whether a command of a script can have this refusal. Its frames are those that the other node made, it asks
// for no receipt, and both nodes of a pair have the same settings.
fn is_met_by_scripts(refusal: &Refusal) -> bool {
    !matches!(
        refusal,
        Refusal::LocalFault
            | Refusal::NotCompleted
            | Refusal::StrangeReceipt
            | Refusal::BadMagic
            | Refusal::BadCommand
            | Refusal::BadLength
            | Refusal::BadField
            | Refusal::BadBarrierAck
            | Refusal::UnknownAck
            | Refusal::OtherProtocol
            | Refusal::OtherSize
    )
}
