//! One session after another, over the same disks.
ghost use Rattle.std.specs.Prelude.{◌≡◌, IfOk};
ghost use Rattle.blocks.specs.SettingsRange.{standard};
ghost use Rattle.served_images.specs.Sessions.{IsServed};

use crate::session::run_session;
use blocks::{Refusal, Store};
use disk_pair::Disks;
use image_metadata::{OpeningBytes, UNKNOWN};
use program_values::FirstStart;
use serve_clients::Service;
use served_images::{Beginning, FirstWords, FreshNumbers, SessionEnd, first_start, settings_of};
use std::io::Write;
use volume::{Runtime, SessionStart};

/// Runs sessions over these disks until the server ends, and returns what the last one leaves. The first one begins as `how`
/// says; a comparison shows its progress on `err`, and then the log goes there.
pub(crate) fn run_sessions<
    R: Runtime,
    D: Store + Drop + Send + 'static,
    M: OpeningBytes + Send + 'static,
    N: OpeningBytes + Send + 'static,
    E: Write + Send,
>(
    rt: R,
    service: &Service,
    cut_every: Option<u32>,
    how: FirstStart,
    beginning: Beginning<M, N>,
    numbers: FreshNumbers,
    disks: Disks<D>,
    err: &mut E,
) -> Result<SessionEnd<D, M, N>, Refusal>
    ensures served { IfOk result (IsServed (record standard { protocol = service.now.protocol; blocks = service.now.blocks }) how disks) }
{
    let settings = settings_of(service.protocol, service.blocks);
    let words = FirstWords {
        connection: service.words(),
        loss: service.words().loss,
    };
    let mut last = first_start(
        service.alloc,
        settings,
        words,
        how,
        beginning,
        numbers,
        disks,
        err,
    )?;
    service.note_start(to_copy(&last.parts));
    for _ in rt.forever() {
        service.requests.forget_writes();
        last = run_session(rt, service, cut_every, last, err)?;
        // Clients that are still here have requests that the next session answers.
        if service.is_over() && service.clients() == 0 {
            return Ok(last);
        }
    }
    unreachable!()
}

// Returns how many blocks are to be copied from these parts: all of them over a disk about which nothing is known.
fn to_copy(parts: &SessionStart) -> u32 {
    if parts.peer == UNKNOWN {
        return parts.settings.blocks;
    }
    parts.marks.count()
}
