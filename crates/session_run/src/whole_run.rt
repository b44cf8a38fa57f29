//! A run, from its images to the lines that it prints.
ghost use Rattle.std.specs.Prelude.{◌≡◌, ◌*◌, ◌≤◌, Err, IfOk, OnOk};
ghost use Rattle.blocks.specs.SettingsRange.{IsInRange, standard};
ghost use Rattle.blocks.specs.declared.refusal.Refusal.TheVariants.{BadSetting};
ghost use Rattle.program_values.specs.declared.status.SessionStatus.TheVariants as status;
ghost use Rattle.session_run.specs.Outcome.{HasRun, IsRun};
ghost use Rattle.session_run.specs.declared.fault.RunFault.TheVariants.{Refused};

use crate::fault::RunFault;
use crate::images::load;
use crate::locked_image::LockedImage;
use crate::progress::print_status;
use crate::report::RunReport;
use crate::saving::save;
use crate::session::run_session;
use crate::sockets::run_over;
use blocks::{MAX_BLOCKS, Refusal};
use image_store::PerDisk;
use program_values::{Images, Path, RunOptions, SessionStatus};
use std::fs::File;
use std::io::Write;
use std::net::{Net, TcpListener, TcpStream};
use std::rt::Files;
use stream_session::loopback;
use volume::Host;

/// Runs a session with these options over these images, saves both disks, and prints `completed X`, `settled X` and
/// `unmarked 0`, X being the number of writes. Locks the images meanwhile. Returns how it ended: `Done` if all is done;
/// `Failed` if a file, a socket, a thread, the output or memory failed, an image is in use, has something in the place of the
/// file that is first written beside it or does not have as many bytes as its blocks, or the disks differ on a block without a
/// mark; `Refused` for any other refusal.
///
/// Faults are found in this order: options out of their ranges (15), the local image, the peer's, the sockets, the start, the
/// writes and the reconnections, the end, the settlement, blocks without a mark, saving. Then a line on `err` reports the first,
/// which for a refusal R is `refused R`; nothing is printed, and if the fault came before saving, no image is changed. What the
/// options ask for goes to `err` too.
pub fn run<
    H: Host + Files<File = File> + Net<Listener = TcpListener, Stream = TcpStream>,
    W: Write,
    E: Write + Send,
>(rt: &H, options: &RunOptions, images: &Images<'_>, out: &mut W, err: &mut E) -> SessionStatus
    ensures done { result ≡ status.Done → HasRun options.now (W.contents out.old) (W.contents out.new) }
    ensures refused { (IsInRange (record standard { protocol = options.now.protocol; blocks = options.now.blocks }) → ⊥) → result ≡ status.Refused }
{
    match run_images(rt, options, images, out, err) {
        Ok(()) => SessionStatus::Done,
        Err(fault) => {
            let _ = writeln!(err, "{fault}");
            fault.status()
        }
    }
}

// Runs the session if the options are in their ranges.
fn run_images<
    'a,
    H: Host + Files<File = File> + Net<Listener = TcpListener, Stream = TcpStream>,
    W: Write,
    E: Write + Send,
>(
    rt: &H,
    options: &RunOptions,
    images: &Images<'a>,
    out: &mut W,
    err: &mut E,
) -> Result<(), RunFault<'a>>
    ensures done { OnOk result (HasRun options.now (W.contents out.old) (W.contents out.new)) }
    ensures refused { (IsInRange (record standard { protocol = options.now.protocol; blocks = options.now.blocks }) → ⊥) → result ≡ Err (Refused BadSetting) }
{
    match options.settings().check() {
        Ok(()) if options.blocks > MAX_BLOCKS => Err(RunFault::Refused(Refusal::BadSetting)),
        Ok(()) => run_loaded(rt, options, images, out, err),
        Err(refusal) => Err(RunFault::Refused(refusal)),
    }
}

// Loads both images, runs the session, saves both disks, and prints what came of it.
fn run_loaded<
    'a,
    H: Host + Files<File = File> + Net<Listener = TcpListener, Stream = TcpStream>,
    W: Write,
    E: Write + Send,
>(
    rt: &H,
    options: &RunOptions,
    images: &Images<'a>,
    out: &mut W,
    err: &mut E,
) -> Result<(), RunFault<'a>>
    requires { options.now.blocks ≤ 262144 }
    ensures { OnOk result (HasRun options.now (W.contents out.old) (W.contents out.new)) }
{
    let local_image = LockedImage::take(rt, images.local, "local-new")?;
    let local = load(rt, &local_image, options.blocks)?;
    let peer_image = LockedImage::take(rt, images.peer, "peer-new")?;
    let peer = load(rt, &peer_image, options.blocks)?;
    let mut report = run_disks(rt, options, PerDisk { local, peer }, err)?;
    if let Some(lines) = report.status {
        let _ = print_status(lines, err);
    }
    report.check_marks()?;
    let locked = PerDisk {
        local: local_image,
        peer: peer_image,
    };
    save(rt, locked, &mut report)?;
    match report.results().print(out) {
        Ok(()) => Ok(()),
        Err(error) => Err(RunFault::Unwritten(error)),
    }
}

// Runs the session over two disks.
fn run_disks<'a, H: Host + Net<Listener = TcpListener, Stream = TcpStream>, E: Write + Send>(
    rt: &H,
    options: &RunOptions,
    images: PerDisk<Vec<u8>>,
    err: &mut E,
) -> Result<RunReport, RunFault<'a>>
    ensures completed { IfOk result (λ report. report.completed ≡ options.now.writers * options.now.writes) }
    ensures outcome { IfOk result (IsRun options.now images.local.items images.peer.items) }
{
    let report = match options.path {
        Path::Link => run_session(*rt, rt.alloc(), options, images, err),
        Path::Sockets => match loopback(rt) {
            Ok(ways) => run_over(*rt, rt.alloc(), options, images, ways, err),
            Err(error) => return Err(RunFault::Unconnected(error)),
        },
    };
    match report {
        Ok(report) => Ok(report),
        // Over sockets the link is lost only if one of them fails.
        Err(Refusal::NotConnected) if options.path == Path::Sockets => Err(RunFault::Lost),
        Err(refusal) => Err(RunFault::Refused(refusal)),
    }
}
