//! Steps of a connection: the transition that each complete part makes.
ghost use Rattle.std.specs.Prelude.{◌≡◌, ◌+◌, ◌<◌, ◌^◌, [], length, IfOk, IfErr};
ghost use Rattle.blocks.specs.declared.refusal.Refusal.TheVariants.{NoMemory};
ghost use Rattle.nbd.specs.Exports.{Exported, export_now};
ghost use Rattle.nbd.specs.Judging.{judged as judged_for};
ghost use Rattle.nbd.specs.Machine.{IsDue, Waits};
ghost use Rattle.nbd.specs.declared.command.NbdCommand.TheVariants.{Write};
ghost use Rattle.nbd.specs.Replies.{reply_spelling};
ghost use Rattle.nbd.specs.Steps.{after_flags, after_header, after_option, after_reply, begins, failure, gives, goes_on, is_in_chunks, refuses, sends, skipped, step, view};
ghost use Rattle.nbd.specs.Steps.{wanted};
ghost use Rattle.nbd.specs.declared.phase.Phase.TheVariants as phase;
ghost use Rattle.nbd.specs.declared.phase.Part.TheVariants as part;

use crate::options::{
    Next, OPT_EXPORT_NAME, OPTION_MAGIC, OptionReply, REP_ERR_TOO_BIG, context_set, refuse,
    reply_to_option,
};
use crate::phase::{Part, Phase, Refused};
use crate::{Errno, Export, NbdCommand, Reply, Request, RequestHeader, Terms};
use blocks::Refusal;
use bytes::Bytes;
use packets::{u32_at, u64_at};
use std::alloc::Global;
use std::mem;

/// The most bytes of an option's data that the connection keeps: room for a name of 4,096 bytes and for about
/// 2,000 information requests.
const MAX_OPTION_BYTES: u32 = 8192;

/// The output of a step.
#[derive(Drop)]
pub(crate) enum Made {
    Nothing,
    /// Bytes of the handshake to send back.
    Bytes(Vec<u8>),
    /// A reply to send back.
    Reply(Reply),
    /// A reply in one chunk, which tells the error of the request with this cookie.
    Failure(u64, Errno),
    /// A request to serve.
    Request(Request),
}

/// A step: the phase that it enters, and its output.
#[derive(Drop)]
pub(crate) struct Step {
    /// The next phase.
    pub(crate) phase: Phase,
    /// The terms that it sets, if it sets any.
    pub(crate) terms: Option<Terms>,
    /// The output.
    pub(crate) made: Made,
}

impl Step {
    fn to(phase: Phase) -> Step
        ensures { view result ≡ goes_on phase }
    {
        Step {
            phase,
            terms: None,
            made: Made::Nothing,
        }
    }
}

/// Returns the step of a part whose bytes are all held, on the connection with the number `of`. A payload is moved out of `held`
/// and not copied. `NoMemory` (7) is the only refusal.
#[tactic(auto, unfolding(crate::specs::Steps::step))]
pub(crate) fn take_part(
    alloc: Global,
    of: u64,
    export: &Export,
    part: Part,
    held: &mut Vec<u8>,
) -> Result<Step, Refusal>
    requires whole { length held.old.items ≡ wanted part }
    requires due { IsDue export.now part }
    ensures made { IfOk result (λ s. view s ≡ step of export.now part held.old.items) }
    ensures waits { IfOk result (λ s. Waits (export_now export.now s.terms) s.phase []) }
    ensures refused { IfErr result (λ e. e ≡ NoMemory) }
{
    let bytes = held.as_slice();
    match part {
        Part::ClientFlags => Ok(after_flags(u32_at(bytes, 0))),
        Part::Option { no_zeroes } => after_option(alloc, export, no_zeroes, bytes),
        Part::OptionData {
            no_zeroes,
            option,
            ..
        } => Ok(after_reply(
            no_zeroes,
            reply_to_option(alloc, export, no_zeroes, option, bytes)?,
        )),
        Part::Request => Ok(after_header(of, export, RequestHeader::decode(bytes))),
        Part::Payload(header) => {
            let payload = Bytes::from_vec(mem::replace(held, Vec::new(alloc)))?;
            export.is_bounded();
            Ok(give(of, export, NbdCommand::Write, &header, payload))
        }
    }
}

/// Returns the step of a refusal, once its bytes are skipped. `NoMemory` (7) is the only refusal.
#[tactic(auto, unfolding(crate::specs::Steps::skipped))]
pub(crate) fn end_skip(alloc: Global, refused: Refused) -> Result<Step, Refusal>
    ensures made { IfOk result (λ s. view s ≡ skipped refused) }
    ensures waits { IfOk result (λ s. (e : Exported) → Waits e s.phase []) }
    ensures refused { IfErr result (λ e. e ≡ NoMemory) }
{
    match refused {
        Refused::LongOption { no_zeroes, option } => {
            Ok(after_reply(no_zeroes, refuse(alloc, option, REP_ERR_TOO_BIG)?))
        }
        Refused::Write { cookie, errno } => Ok(fail(cookie, errno)),
    }
}

/// Returns the step of the client's flags: fixed newstyle (1) and no zeros (2); any other closes the connection (NBD
/// protocol, "Client flags").
fn after_flags(flags: u32) -> Step
    ensures { view result ≡ after_flags flags }
{
    if flags < 4 {
        Step::to(Phase::Gather(Part::Option {
            no_zeroes: flags > 1,
        }))
    } else {
        Step::to(Phase::Closed)
    }
}

/// Returns the step of an option's header.
fn after_option(
    alloc: Global,
    export: &Export,
    no_zeroes: bool,
    bytes: &[u8],
) -> Result<Step, Refusal>
    requires { length bytes.now ≡ 16 }
    ensures made { IfOk result (λ s. view s ≡ after_option export.now no_zeroes bytes.now) }
    ensures refused { IfErr result (λ e. e ≡ NoMemory) }
{
    if u64_at(bytes, 0) != OPTION_MAGIC {
        return Ok(Step::to(Phase::Closed));
    }
    let option = u32_at(bytes, 8);
    let length = u32_at(bytes, 12);
    if length == 0 {
        let answer = reply_to_option(alloc, export, no_zeroes, option, &[])?;
        return Ok(after_reply(no_zeroes, answer));
    }
    if length <= MAX_OPTION_BYTES {
        return Ok(Step::to(Phase::Gather(Part::OptionData {
            no_zeroes,
            option,
            length,
        })));
    }
    // EXPORT_NAME has no error reply.
    if option == OPT_EXPORT_NAME {
        return Ok(Step::to(Phase::Closed));
    }
    Ok(Step {
        phase: Phase::Skip {
            left: length,
            refused: Refused::LongOption { no_zeroes, option },
        },
        terms: context_set(export, option, false),
        made: Made::Nothing,
    })
}

/// Returns the step of a reply to an option.
fn after_reply(no_zeroes: bool, answer: OptionReply) -> Step
    ensures { view result ≡ after_reply no_zeroes (record { sent = answer.sent.items; next = answer.next; terms = answer.terms }) }
{
    let phase = match answer.next {
        Next::Negotiate => Phase::Gather(Part::Option { no_zeroes }),
        Next::Transmit => Phase::Gather(Part::Request),
        Next::Close => Phase::Closed,
    };
    Step {
        phase,
        terms: answer.terms,
        made: Made::Bytes(answer.sent),
    }
}

/// Returns the step of a request's header. A client that sends anything else is out of step: the connection closes.
fn after_header(of: u64, export: &Export, header: Result<RequestHeader, Refusal>) -> Step
    ensures { view result ≡ after_header of export.now header }
{
    match header {
        Ok(header) => begin(of, export, &header, export.judge(&header)),
        Err(_) => Step::to(Phase::Closed),
    }
}

/// Returns the step of a request that was judged.
fn begin(
    of: u64,
    export: &Export,
    header: &RequestHeader,
    judged: Result<NbdCommand, Errno>,
) -> Step
    requires { judged ≡ judged_for export.now header.now }
    ensures { view result ≡ begins of export.now header.now judged }
{
    match judged {
        Ok(NbdCommand::Disconnect) => Step::to(Phase::Closed),
        Ok(NbdCommand::Write) => Step::to(Phase::Gather(Part::Payload(*header))),
        Ok(command) => {
            export.is_bounded();
            give(of, export, command, header, Bytes::new())
        }
        Err(errno) => refuse_request(export, header, errno),
    }
}

/// Returns the step of a refused request. Only a WRITE has a payload; it is skipped before the reply.
fn refuse_request(export: &Export, header: &RequestHeader, errno: Errno) -> Step
    ensures { view result ≡ refuses export.now header.now errno }
{
    if is_in_chunks(export, header) {
        return Step {
            phase: Phase::Gather(Part::Request),
            terms: None,
            made: Made::Failure(header.cookie, errno),
        };
    }
    if header.kind != NbdCommand::Write.number() || header.length == 0 {
        return fail(header.cookie, errno);
    }
    Step::to(Phase::Skip {
        left: header.length,
        refused: Refused::Write {
            cookie: header.cookie,
            errno,
        },
    })
}

/// Returns whether the reply to a request has to come in chunks: that to a READ or a BLOCK_STATUS where replies are structured.
fn is_in_chunks(export: &Export, header: &RequestHeader) -> bool
    ensures { result ≡ is_in_chunks export.now header.now }
{
    export.terms().structured
        && (header.kind == NbdCommand::Read.number()
            || header.kind == NbdCommand::BlockStatus.number())
}

/// Returns the step that sends an error reply.
fn fail(cookie: u64, errno: Errno) -> Step
    ensures { view result ≡ sends (phase.Gather part.Request) (reply_spelling (failure cookie errno)) }
{
    Step {
        phase: Phase::Gather(Part::Request),
        terms: None,
        made: Made::Reply(Reply {
            cookie,
            error: Some(errno),
        }),
    }
}

/// Returns the step that gives a request to the caller.
fn give(
    of: u64,
    export: &Export,
    command: NbdCommand,
    header: &RequestHeader,
    payload: Bytes,
) -> Step
    requires inside { header.now.offset + header.now.length < 2 ^ 64 }
    requires whole { command ≡ Write → length payload ≡ header.now.length }
    ensures { view result ≡ gives of export.now command header.now payload }
{
    Step {
        phase: Phase::Gather(Part::Request),
        terms: None,
        made: Made::Request(Request::with(of, export.terms(), command, header, payload)),
    }
}
