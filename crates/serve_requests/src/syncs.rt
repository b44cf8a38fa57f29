//! Which requests ask for stable storage.
ghost use Rattle.std.specs.Prelude.{◌≡◌};
ghost use Rattle.serve_requests.specs.Ended.{asks_for_sync};

use nbd::{NbdCommand, Request};

/// Returns whether the reply to a request waits for stable storage: that to a FLUSH, and that to a WRITE, TRIM or
/// WRITE_ZEROES with FUA. For a command that writes nothing, FUA asks for nothing.
pub fn asks_for_sync(request: &Request) -> bool
    ensures { result ≡ asks_for_sync request.now }
{
    match request.command() {
        NbdCommand::Flush => true,
        NbdCommand::Write | NbdCommand::Trim | NbdCommand::WriteZeroes => request.has_fua(),
        NbdCommand::Read | NbdCommand::Disconnect | NbdCommand::BlockStatus => false,
    }
}
