//! A status in the form of `drbdsetup status --json`.
ghost use Rattle.std.specs.Prelude.{◌≡◌, ◌-◌, ◌*◌, ◌/◌, ◌<◌};
ghost use Rattle.status_commands.specs.DrbdWords.{connection_text, replication_text};

use crate::told::Told;
use status_lines::{LinkState, PrimaryLine};
use std::alloc::{AllocError, Global};
use std::fmt;

/// Returns the object of a server, without a newline. Counts that the server does not keep are 0.
pub(crate) fn object(alloc: Global, name: &str, told: &Told) -> Result<String, AllocError> {
    let line = &told.primary;
    let words = line.words;
    let (role, disk) = (words.own_role, words.own_disk);
    let (size, ap) = (told.size_kib, line.ap);
    let connection = Connection {
        line,
        size_kib: told.size_kib,
    };
    format!(in alloc;
        "{{\"name\":\"{name}\",\"node-id\":0,\"role\":\"{role}\",\"suspended\":false,\"write-ordering\":\"flush\",\"devices\":[{{\"volume\":0,\"minor\":0,\"disk-state\":\"{disk}\",\"client\":false,\"quorum\":true,\"size\":{size},\"read\":0,\"written\":0,\"al-writes\":0,\"bm-writes\":0,\"upper-pending\":{ap},\"lower-pending\":0}}],\"connections\":[{connection}]}}"
    )
}

/// The object of the connection to the peer.
#[derive(Clone, Copy)]
struct Connection<'a> {
    line: &'a PrimaryLine,
    size_kib: u64,
}

impl fmt::Display for Connection<'_> {
    fn fmt<W: fmt::Write>(&self, f: &mut fmt::Formatter<W>) -> fmt::Result {
        let line = self.line;
        let words = line.words;
        let (state, role) = (connection_state(words.link), words.other_role);
        write!(
            f,
            "{{\"peer-node-id\":1,\"name\":\"peer\",\"connection-state\":\"{state}\",\"congested\":false,\"peer-role\":\"{role}\",\"ap-in-flight\":0,\"rs-in-flight\":0,\"peer_devices\":["
        )?;
        let (replication, disk) = (replication_state(words.link), words.other_disk);
        let (oos, pe) = (line.oos, line.pe);
        let is_copying = matches!(words.link, LinkState::SyncSource | LinkState::SyncTarget);
        let hundredths = hundredths_in_sync(oos, self.size_kib);
        let (percent, rest) = (hundredths / 100, hundredths % 100);
        write!(
            f,
            "{{\"volume\":0,\"replication-state\":\"{replication}\",\"peer-disk-state\":\"{disk}\",\"resync-suspended\":\"no\",\"received\":0,\"sent\":0,\"out-of-sync\":{oos},\"pending\":{pe},\"unacked\":0,\"has-sync-details\":{is_copying},\"has-online-verify-details\":false,\"percent-in-sync\":{percent}.{rest:02}}}]}}"
        )
    }
}

// Returns DRBD 9's word for the state of a connection.
fn connection_state(link: LinkState) -> &'static str
    ensures { result.now ≡ connection_text link }
{
    match link {
        LinkState::StandAlone => "StandAlone",
        LinkState::WFReportParams => "Connecting",
        LinkState::Connected | LinkState::SyncSource | LinkState::SyncTarget => "Connected",
    }
}

// Returns DRBD 9's word for what is sent over it.
fn replication_state(link: LinkState) -> &'static str
    ensures { result.now ≡ replication_text link }
{
    match link {
        LinkState::StandAlone | LinkState::WFReportParams => "Off",
        LinkState::Connected => "Established",
        LinkState::SyncSource => "SyncSource",
        LinkState::SyncTarget => "SyncTarget",
    }
}

// Returns how much of a disk of this size is in sync, in hundredths of a percent, rounded down.
fn hundredths_in_sync(oos_kib: u64, size_kib: u64) -> u64
    ensures { 0 < size_kib → result ≡ 10000 * (size_kib - oos_kib) / size_kib }
{
    let synced = u128::from(size_kib.saturating_sub(oos_kib));
    let hundredths = (10_000 * synced).checked_div(u128::from(size_kib));
    hundredths.map_or(10_000, |hundredths| hundredths as u64)
}
