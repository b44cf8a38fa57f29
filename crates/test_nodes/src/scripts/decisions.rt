//! The decision over the generation identifiers of a new pair.
use crate::scripts::run::decides;

/// Identifiers of a new pair, and what its first connection prints: one case each, in the order in which they are
/// tried.
const DECISIONS: &[(&str, &str)] = &[
    ("own=7,1,0,0 peer=0,0,0,0", "ok FullSync"),
    ("own=1,0,0,0 peer=1,0,0,0", "ok NoSync"),
    ("own=7,1,0,0 peer=1,0,0,0", "ok BitmapSync synced"),
    ("own=7,1,0,0 peer=9,7,1,0", "refused 30"),
    ("own=11,7,9,1 peer=9,0,0,0", "ok FullSync"),
    ("own=7,0,9,1 peer=12,0,7,0", "refused 30"),
    ("own=7,1,0,0 peer=8,1,0,0", "refused 31"),
    ("own=7,0,5,0 peer=8,5,0,0", "refused 31"),
    ("own=7,1,0,0 peer=20,21,22,23", "refused 32"),
];

#[test]
fn identifiers_decide_the_resync(rt: HostRuntime) {
    for (identifiers, answer) in DECISIONS {
        decides(&rt, identifiers, answer);
    }
}
