//! The handshake: the greeting, and the reply to each option.
ghost use Rattle.std.specs.Prelude.{◌≡◌, ◌+◌, ◌≤◌, ◌++◌, [], length, IfOk, OnOk};
ghost use Rattle.std.specs.Option.{option_copied};
ghost use Rattle.nbd.specs.Options.{greeting, option_reply, size_and_flags, info_export, info_block_size, is_named, asked_name, export_name, listed, informed};
ghost use Rattle.nbd.specs.Options.{context_set, informed_of, meta, meta_refused, meta_reply, option_replied, replies, structured};
ghost use Rattle.nbd.specs.Steps.{IsReplied};
ghost use Rattle.packets.specs.declared.fixed_part.TheConstants.{FIXED_BYTES};

use crate::command::MAX_REQUEST_BYTES;
use crate::contexts::{ALLOCATION, queried};
use crate::{Export, Terms};
use blocks::{BLOCK_BYTES, Refusal};
use packets::{FixedPart, put_u16, put_u32, put_u64, u16_at, u32_at};
use std::alloc::{AllocError, Global};

/// NBDMAGIC, which begins the greeting.
const GREETING_MAGIC: u64 = 0x4E42_444D_4147_4943;

/// IHAVEOPT, which begins each option.
pub(crate) const OPTION_MAGIC: u64 = 0x4948_4156_454F_5054;

/// The handshake flags: FIXED_NEWSTYLE (1) and NO_ZEROES (2).
const HANDSHAKE_FLAGS: u16 = 3;

/// The transmission flags: HAS_FLAGS (1), SEND_FLUSH (4), SEND_FUA (8), SEND_TRIM (32), SEND_WRITE_ZEROES (64), CAN_MULTI_CONN (256)
/// and SEND_FAST_ZERO (2048).
const TRANSMISSION_FLAGS: u16 = 2413;

/// Those where replies are structured: SEND_DF (128), too.
const STRUCTURED_FLAGS: u16 = 2541;

/// NBD_OPT_EXPORT_NAME.
pub(crate) const OPT_EXPORT_NAME: u32 = 1;

const OPT_ABORT: u32 = 2;

const OPT_LIST: u32 = 3;

const OPT_INFO: u32 = 6;

const OPT_GO: u32 = 7;

const OPT_STRUCTURED_REPLY: u32 = 8;

const OPT_LIST_META_CONTEXT: u32 = 9;

const OPT_SET_META_CONTEXT: u32 = 10;

/// What begins each reply to an option.
const REPLY_MAGIC: u64 = 0x0003_E889_0455_65A9;

const REP_ACK: u32 = 1;

const REP_SERVER: u32 = 2;

const REP_INFO: u32 = 3;

const REP_META_CONTEXT: u32 = 4;

const REP_ERR_UNSUP: u32 = 0x8000_0001;

const REP_ERR_INVALID: u32 = 0x8000_0003;

const REP_ERR_UNKNOWN: u32 = 0x8000_0006;

/// NBD_REP_ERR_TOO_BIG.
pub(crate) const REP_ERR_TOO_BIG: u32 = 0x8000_0009;

const INFO_EXPORT: u16 = 0;

const INFO_BLOCK_SIZE: u16 = 3;

/// The fewest bytes of a request: a request need not be of whole blocks.
const LEAST_REQUEST_BYTES: u32 = 1;

/// The zeros that end the reply to EXPORT_NAME unless the client set NO_ZEROES.
const EXPORT_NAME_ZEROS: [u8; 124] = [0; 124];

/// What follows an option.
#[derive(Clone, Copy, Debug, PartialEq, Eq)]
pub(crate) enum Next {
    /// The next option.
    Negotiate,
    /// Requests.
    Transmit,
    /// The end of the connection.
    Close,
}

/// The reply to an option.
#[derive(Drop)]
pub(crate) struct OptionReply {
    /// The bytes to send back.
    pub(crate) sent: Vec<u8>,
    /// What follows.
    pub(crate) next: Next,
    /// The terms that it sets, if it sets any.
    pub(crate) terms: Option<Terms>,
}

/// Returns the 18 bytes that a server sends first (NBD protocol, "Fixed newstyle negotiation").
#[tactic(auto, unfolding(crate::specs::Options::greeting))]
pub(crate) fn greeting() -> FixedPart
    ensures { result ≡ greeting }
{
    let mut out = FixedPart::new();
    put_u64(&mut out, GREETING_MAGIC);
    put_u64(&mut out, OPTION_MAGIC);
    put_u16(&mut out, HANDSHAKE_FLAGS);
    out
}

/// Returns the reply to an option with these data (NBD protocol, "Option types"). `NoMemory` (7) is the only refusal.
#[tactic(auto, unfolding(crate::specs::Options::option_replied))]
pub(crate) fn reply_to_option(
    alloc: Global,
    export: &Export,
    no_zeroes: bool,
    option: u32,
    bytes: &[u8],
) -> Result<OptionReply, Refusal>
    ensures { IsReplied result (option_replied export.now no_zeroes option bytes.now) }
{
    match option {
        OPT_EXPORT_NAME => export_name(alloc, export, no_zeroes, bytes),
        OPT_ABORT => Ok(OptionReply {
            sent: replied(alloc, OPT_ABORT, REP_ACK)?,
            next: Next::Close,
            terms: None,
        }),
        OPT_LIST => list(alloc, export, bytes),
        OPT_INFO => inform(alloc, export, OPT_INFO, Next::Negotiate, bytes),
        OPT_GO => inform(alloc, export, OPT_GO, Next::Transmit, bytes),
        OPT_STRUCTURED_REPLY => agree_structured(alloc, export, bytes),
        OPT_LIST_META_CONTEXT => meta(alloc, export, OPT_LIST_META_CONTEXT, bytes),
        OPT_SET_META_CONTEXT => meta(alloc, export, OPT_SET_META_CONTEXT, bytes),
        _ => refuse(alloc, option, REP_ERR_UNSUP),
    }
}

/// Returns a reply of this type without data; the handshake continues.
pub(crate) fn refuse(alloc: Global, option: u32, kind: u32) -> Result<OptionReply, Refusal>
    ensures { IsReplied result (replies option kind) }
{
    Ok(OptionReply {
        sent: replied(alloc, option, kind)?,
        next: Next::Negotiate,
        terms: None,
    })
}

/// Returns the bytes of a reply without data.
fn replied(alloc: Global, option: u32, kind: u32) -> Result<Vec<u8>, AllocError>
    ensures { IfOk result (λ sent. sent.items ≡ option_reply option kind []) }
{
    let mut sent = Vec::new(alloc);
    put_reply(&mut sent, option, kind, &[])?;
    Ok(sent)
}

/// Appends a reply.
#[tactic(auto, unfolding(crate::specs::Options::option_reply))]
fn put_reply(out: &mut Vec<u8>, option: u32, kind: u32, bytes: &[u8]) -> Result<(), AllocError>
    requires { length bytes.now ≤ 4100 }
    ensures { OnOk result (out.new.items ≡ out.old.items ++ option_reply option kind bytes.now) }
{
    let mut head = FixedPart::new();
    put_u64(&mut head, REPLY_MAGIC);
    put_u32(&mut head, option);
    put_u32(&mut head, kind);
    put_u32(&mut head, bytes.len() as u32);
    out.extend_from_slice(head.as_slice())?;
    out.extend_from_slice(bytes)?;
    Ok(())
}

/// Appends the device's size in bytes and the transmission flags.
#[tactic(auto, unfolding(crate::specs::Options::size_and_flags))]
fn put_size_and_flags(out: &mut FixedPart, export: &Export)
    requires { length out.old + 10 ≤ FIXED_BYTES }
    ensures { out.new ≡ out.old ++ size_and_flags export.now }
{
    put_u64(out, export.bytes());
    let flags = if export.terms().structured {
        STRUCTURED_FLAGS
    } else {
        TRANSMISSION_FLAGS
    };
    put_u16(out, flags);
}

/// Replies to EXPORT_NAME with the export's size; for another name the connection closes, since the option has no error
/// reply.
fn export_name(
    alloc: Global,
    export: &Export,
    no_zeroes: bool,
    name: &[u8],
) -> Result<OptionReply, Refusal>
    ensures { IsReplied result (export_name export.now no_zeroes name.now) }
{
    let mut sent = Vec::new(alloc);
    if !is_named(export, name) {
        return Ok(OptionReply {
            sent,
            next: Next::Close,
            terms: None,
        });
    }
    let mut head = FixedPart::new();
    put_size_and_flags(&mut head, export);
    sent.extend_from_slice(head.as_slice())?;
    if !no_zeroes {
        sent.extend_from_slice(&EXPORT_NAME_ZEROS)?;
    }
    Ok(OptionReply {
        sent,
        next: Next::Transmit,
        terms: None,
    })
}

/// Returns whether a name is the export's. The empty name is the default export, which is this one.
fn is_named(export: &Export, name: &[u8]) -> bool
    ensures { result ≡ is_named export.now name.now }
{
    name.is_empty() || name == export.name().as_bytes()
}

/// Replies to LIST with the export's name.
fn list(alloc: Global, export: &Export, bytes: &[u8]) -> Result<OptionReply, Refusal>
    ensures { IsReplied result (listed export.now bytes.now) }
{
    if !bytes.is_empty() {
        return refuse(alloc, OPT_LIST, REP_ERR_INVALID);
    }
    let name = export.name().as_bytes();
    let mut length = FixedPart::new();
    put_u32(&mut length, name.len() as u32);
    let mut server = Vec::new(alloc);
    server.extend_from_slice(length.as_slice())?;
    server.extend_from_slice(name)?;
    let mut sent = Vec::new(alloc);
    put_reply(&mut sent, OPT_LIST, REP_SERVER, server.as_slice())?;
    put_reply(&mut sent, OPT_LIST, REP_ACK, &[])?;
    Ok(OptionReply {
        sent,
        next: Next::Negotiate,
        terms: None,
    })
}

/// Replies to INFO or GO with the export's size and its block sizes, whether or not the client asked for them.
fn inform(
    alloc: Global,
    export: &Export,
    option: u32,
    next: Next,
    bytes: &[u8],
) -> Result<OptionReply, Refusal>
    ensures { IsReplied result (informed_of export.now option next (asked_name bytes.now)) }
{
    match asked_name(bytes) {
        None => refuse(alloc, option, REP_ERR_INVALID),
        Some(name) if !is_named(export, name) => refuse(alloc, option, REP_ERR_UNKNOWN),
        Some(_) => Ok(OptionReply {
            sent: informed(alloc, export, option)?,
            next,
            terms: None,
        }),
    }
}

/// Returns the name in the data of INFO or GO, if the data are well formed.
#[tactic(auto, unfolding(crate::specs::Options::asked_name))]
fn asked_name(bytes: &[u8]) -> Option<&[u8]>
    ensures { option_copied result ≡ asked_name bytes.now }
{
    if bytes.len() < 6 {
        return None;
    }
    let name_length = u32_at(bytes, 0) as usize;
    if bytes.len() < name_length + 6 {
        return None;
    }
    let requests = u16_at(bytes, 4 + name_length) as usize;
    if bytes.len() != name_length + 6 + 2 * requests {
        return None;
    }
    Some(&bytes[4..4 + name_length])
}

/// Returns the replies with the export's size and its block sizes.
fn informed(alloc: Global, export: &Export, option: u32) -> Result<Vec<u8>, AllocError>
    ensures { IfOk result (λ sent. sent.items ≡ (informed export.now option Next.Negotiate).sent) }
{
    let mut size = FixedPart::new();
    put_u16(&mut size, INFO_EXPORT);
    put_size_and_flags(&mut size, export);
    let mut sent = Vec::new(alloc);
    put_reply(&mut sent, option, REP_INFO, size.as_slice())?;
    put_reply(&mut sent, option, REP_INFO, block_sizes().as_slice())?;
    put_reply(&mut sent, option, REP_ACK, &[])?;
    Ok(sent)
}

/// Returns the least, preferred and most bytes of a request.
#[tactic(auto, unfolding(crate::specs::Options::info_block_size))]
fn block_sizes() -> FixedPart
    ensures { result ≡ info_block_size }
{
    let mut out = FixedPart::new();
    put_u16(&mut out, INFO_BLOCK_SIZE);
    put_u32(&mut out, LEAST_REQUEST_BYTES);
    put_u32(&mut out, BLOCK_BYTES as u32);
    put_u32(&mut out, MAX_REQUEST_BYTES);
    out
}

/// Replies to STRUCTURED_REPLY: from now on, replies to READs come in chunks.
fn agree_structured(alloc: Global, export: &Export, bytes: &[u8]) -> Result<OptionReply, Refusal>
    ensures { IsReplied result (structured export.now bytes.now) }
{
    if !bytes.is_empty() {
        return refuse(alloc, OPT_STRUCTURED_REPLY, REP_ERR_INVALID);
    }
    Ok(OptionReply {
        sent: replied(alloc, OPT_STRUCTURED_REPLY, REP_ACK)?,
        next: Next::Negotiate,
        terms: Some(Terms {
            structured: true,
            allocation: export.terms().allocation,
        }),
    })
}

/// Returns the terms that SET_META_CONTEXT sets, if `option` is that; LIST_META_CONTEXT sets none.
pub(crate) fn context_set(export: &Export, option: u32, allocation: bool) -> Option<Terms>
    ensures { result ≡ context_set export.now option allocation }
{
    (option == OPT_SET_META_CONTEXT).then_some(Terms {
        structured: export.terms().structured,
        allocation,
    })
}

/// Replies to LIST or SET_META_CONTEXT.
fn meta(alloc: Global, export: &Export, option: u32, bytes: &[u8]) -> Result<OptionReply, Refusal>
    ensures { IsReplied result (meta export.now option bytes.now) }
{
    if !export.terms().structured {
        return refuse_meta(alloc, export, option, REP_ERR_INVALID);
    }
    let Some((name, is_allocation)) = queried(option, bytes) else {
        return refuse_meta(alloc, export, option, REP_ERR_INVALID);
    };
    if !is_named(export, name) {
        return refuse_meta(alloc, export, option, REP_ERR_UNKNOWN);
    }
    let mut sent = Vec::new(alloc);
    if is_allocation {
        put_context(&mut sent, option)?;
    }
    put_reply(&mut sent, option, REP_ACK, &[])?;
    Ok(OptionReply {
        sent,
        next: Next::Negotiate,
        terms: context_set(export, option, is_allocation),
    })
}

/// Refuses LIST or SET_META_CONTEXT: a context that was set before is set no longer.
fn refuse_meta(
    alloc: Global,
    export: &Export,
    option: u32,
    kind: u32,
) -> Result<OptionReply, Refusal>
    ensures { IsReplied result (meta_refused export.now option kind) }
{
    Ok(OptionReply {
        sent: replied(alloc, option, kind)?,
        next: Next::Negotiate,
        terms: context_set(export, option, false),
    })
}

/// Appends the reply that names the context.
#[tactic(auto, unfolding(crate::specs::Options::meta_reply))]
fn put_context(out: &mut Vec<u8>, option: u32) -> Result<(), AllocError>
    ensures { OnOk result (out.new.items ≡ out.old.items ++ meta_reply option) }
{
    let mut context = FixedPart::new();
    put_u32(&mut context, 1);
    context.put(&ALLOCATION);
    put_reply(out, option, REP_META_CONTEXT, context.as_slice())
}
