//! The queries of LIST_META_CONTEXT and SET_META_CONTEXT.
ghost use Rattle.std.specs.Prelude.{◌≡◌, ◌+◌, ◌≤◌, ◌<◌, ◌⊎◌, drop, length, slice_range, None, IfSome};
ghost use Rattle.packets.specs.Numbers.{number_in};
ghost use Rattle.nbd.specs.Contexts.{IsAsked, named_in, named_of};
ghost use Rattle.nbd.specs.Options.{names, queried};

use packets::u32_at;

/// The name of the one metadata context.
pub(crate) const ALLOCATION: [u8; 15] = *b"base:allocation";

/// The kind that it is of.
const BASE: [u8; 5] = *b"base:";

/// NBD_OPT_LIST_META_CONTEXT.
const OPT_LIST_META_CONTEXT: u32 = 9;

/// Returns what the data of this option ask, if they are well formed: the length of a name, the name, how many queries follow, and each
/// of them after its length. That is the name, and whether a query names `base:allocation`.
#[tactic(auto, unfolding(crate::specs::Options::queried))]
pub(crate) fn queried(option: u32, bytes: &[u8]) -> Option<(&[u8], bool)>
    ensures { IsAsked result (named_of option (queried bytes.now)) }
{
    if bytes.len() < 8 {
        return None;
    }
    let name_length = u32_at(bytes, 0) as usize;
    if bytes.len() < name_length + 8 {
        return None;
    }
    let count = u32_at(bytes, 4 + name_length);
    let queries = &bytes[8 + name_length..];
    let start = option == OPT_LIST_META_CONTEXT && count == 0;
    let is_allocation = named_in(option, count, queries, start)?;
    Some((&bytes[4..4 + name_length], is_allocation))
}

// Returns whether one of so many queries names the context, or whether it was named before; `None` if the bytes are not just these
// queries.
fn named_in(option: u32, count: u32, bytes: &[u8], before: bool) -> Option<bool>
    ensures { result ≡ named_in option count bytes.now before }
{
    let mut rest = bytes;
    let mut left = count;
    let mut is_named = before;
    while left > 0 {
        let (query, later) = first_string(rest)?;
        is_named = is_named || names(option, query);
        rest = later;
        left -= 1;
    }
    rest.is_empty().then_some(is_named)
}

// Takes a string after its length off bytes, if it is there.
fn first_string(bytes: &[u8]) -> Option<(&[u8], &[u8])>
    ensures some { IfSome result (λ s. (4 + number_in 4 0 bytes.now ≤ length bytes.now)
        × (s.0.now ≡ slice_range bytes.now 4 (4 + number_in 4 0 bytes.now))
        × (s.1.now ≡ drop (4 + number_in 4 0 bytes.now) bytes.now)) }
    ensures none { result ≡ None → (length bytes.now < 4) ⊎ (length bytes.now < 4 + number_in 4 0 bytes.now) }
{
    if bytes.len() < 4 {
        return None;
    }
    let end = u32_at(bytes, 0) as usize + 4;
    if bytes.len() < end {
        return None;
    }
    Some((&bytes[4..end], &bytes[end..]))
}

// Returns whether a query names the context: by its name, or to a LIST by its kind.
fn names(option: u32, query: &[u8]) -> bool
    ensures { result ≡ names option query.now }
{
    query == ALLOCATION.as_slice() || (option == OPT_LIST_META_CONTEXT && query == BASE.as_slice())
}
