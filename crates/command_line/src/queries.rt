//! The words of the commands that ask running servers.
use crate::fault::UsageFault;
use crate::run::{number, option};
use crate::serve::run_folder_option;
use clap::{Arg, ArgAction, ArgMatches, Command, Error};
use program_values::{Asked, Awaited, Question, ServerName, WaitOptions};
use std::alloc::Global;

/// The word for all servers.
const ALL: &str = "all";

/// The most seconds that a command may wait.
const MOST_SECONDS: i64 = 1_000_000_000;

/// What `status` prints.
const STATUS: &str = "\
Asks servers for their status, those that were started with --name. For each it
prints its name, and then the lines of its status page, with two spaces before
each: the status lines of both nodes (see script --help), the size, how the
server began, and a line of a resync that goes on.

With --json it prints an array with an object for each server, in the form of
drbdsetup status --json. Sizes are in KiB. Counts that the server does not keep
are 0.

  drbdpair serve --local a.img --peer b.img --name r0
  drbdpair status r0
                    => r0
                    =>   cs:Connected ro:Primary/Secondary ds:UpToDate/UpToDate ..

Exit statuses: 0 done, also where all are asked and there is none, which a line on
standard error says; 1 the folder could not be read, or memory or the output
failed; 2 wrong usage; 10 a server does not answer, or gives no status now, which
a line on standard error says of each.
";

/// What `cstate` prints.
const CSTATE: &str = "\
Asks servers for the state of their links, as drbdadm cstate prints it: a line for
each server, in the order of their names.
  StandAlone           the link is down
  WFReportParams       it is up, and the nodes have not agreed yet
  Connected            the link is up, and writes go to both nodes
  SyncSource           marked blocks are copied to the peer

  drbdpair cstate r0
                    => Connected

Exit statuses: 0 done; 1 the folder could not be read, or memory or the output
failed; 2 wrong usage; 10 a server does not answer, or gives no status now.
";

/// What `dstate` prints.
const DSTATE: &str = "\
Asks servers for the states of their disks, as drbdadm dstate prints them: a line
for each server, in the order of their names, with the local disk before the
peer's: UpToDate, Consistent, Inconsistent, or DUnknown where the link is down.

  drbdpair dstate r0
                    => UpToDate/UpToDate

Exit statuses: 0 done; 1 the folder could not be read, or memory or the output
failed; 2 wrong usage; 10 a server does not answer, or gives no status now.
";

/// What `wait-sync` waits for.
const WAIT_SYNC: &str = "\
Waits until nothing is left to copy to the peer's disk: the link is Connected,
both disks are UpToDate and no block is marked. It waits for no write that is
under way. A server that gives no status yet, as while it compares its images, is
waited for. It prints nothing.

  drbdpair wait-sync r0 --wfc-timeout 600

Exit statuses: 0 nothing is left; 1 memory failed; 2 wrong usage; 5 something was
left when the time was up; 10 no server of that name answers.
";

/// What `wait-connect` waits for.
const WAIT_CONNECT: &str = "\
Waits until both nodes are connected, also if blocks are still copied. A server
that gives no status yet, as while it compares its images, is waited for. It
prints nothing.

  drbdpair wait-connect r0 --wfc-timeout 60

Exit statuses: 0 they are; 1 memory failed; 2 wrong usage; 5 they were not when
the time was up; 10 no server of that name answers.
";

/// Creates the command `status`.
pub(crate) fn status<'a>(alloc: Global) -> Result<Command<'a>, Error> {
    let json = Arg::new(alloc, "json")
        .long("json")
        .action(ArgAction::SetTrue)
        .help("Prints it as JSON, as drbdsetup does");
    Ok(asking(
        alloc,
        "status",
        "Shows the status of running servers",
        STATUS,
    )?
    .arg(json)?)
}

/// Creates the command `cstate`.
pub(crate) fn cstate<'a>(alloc: Global) -> Result<Command<'a>, Error> {
    asking(
        alloc,
        "cstate",
        "Shows the state of the link of running servers",
        CSTATE,
    )
}

/// Creates the command `dstate`.
pub(crate) fn dstate<'a>(alloc: Global) -> Result<Command<'a>, Error> {
    asking(
        alloc,
        "dstate",
        "Shows the states of the disks of running servers",
        DSTATE,
    )
}

/// Creates the command `wait-sync`.
pub(crate) fn wait_sync<'a>(alloc: Global) -> Result<Command<'a>, Error> {
    waiting(
        alloc,
        "wait-sync",
        "Waits until nothing is left to copy to a server's peer",
        WAIT_SYNC,
    )
}

/// Creates the command `wait-connect`.
pub(crate) fn wait_connect<'a>(alloc: Global) -> Result<Command<'a>, Error> {
    waiting(
        alloc,
        "wait-connect",
        "Waits until a server's nodes are connected",
        WAIT_CONNECT,
    )
}

// Creates a command that asks the servers of a name or all.
fn asking<'a>(
    alloc: Global,
    name: &'a str,
    about: &'a str,
    help: &'a str,
) -> Result<Command<'a>, Error> {
    let server = Arg::new(alloc, "NAME")
        .default_value(ALL)
        .help("The name of the server, or all");
    let command = Command::new(alloc, name).about(about).after_help(help);
    Ok(command.arg(server)?.arg(run_folder_option(alloc))?)
}

// Creates a command that waits for a server.
fn waiting<'a>(
    alloc: Global,
    name: &'a str,
    about: &'a str,
    help: &'a str,
) -> Result<Command<'a>, Error> {
    let server = Arg::new(alloc, "NAME")
        .required(true)
        .help("The name of the server");
    let limit = number(
        alloc,
        "wfc-timeout",
        "SECONDS",
        "How long it waits at most; 0 is for ever",
        0,
        MOST_SECONDS,
    );
    let command = Command::new(alloc, name).about(about).after_help(help);
    Ok(
        command
            .arg(server)?
            .arg(limit.default_value("0"))?
            .arg(run_folder_option(alloc))?,
    )
}

/// Returns the servers that are asked. `UsageFault::Name` if the word is no name.
pub(crate) fn asked<'a>(words: &ArgMatches<'a>) -> Result<Asked<'a>, UsageFault<'a>> {
    let run_folder = words.get_str("run-dir").unwrap_or("");
    let name = match words.get_str("NAME") {
        None | Some(ALL) => None,
        Some(name) if ServerName::is_name(name) => Some(name),
        Some(name) => return Err(UsageFault::Name(name)),
    };
    Ok(Asked { run_folder, name })
}

/// Returns what `status` asks for.
pub(crate) fn status_question(words: &ArgMatches<'_>) -> Question {
    if words.get_flag("json") {
        Question::Json
    } else {
        Question::Status
    }
}

/// Returns how a command waits for this. `UsageFault::Name` if the word is no name.
pub(crate) fn wait<'a>(
    words: &ArgMatches<'a>,
    awaited: Awaited,
) -> Result<WaitOptions<'a>, UsageFault<'a>> {
    let name = words.get_str("NAME").unwrap_or("");
    if !ServerName::is_name(name) {
        return Err(UsageFault::Name(name));
    }
    let seconds: u32 = words.get_one("wfc-timeout").unwrap_or(0);
    Ok(WaitOptions {
        run_folder: words.get_str("run-dir").unwrap_or(""),
        name,
        awaited,
        limit: if seconds == 0 { None } else { Some(seconds) },
    })
}
