//! Laws of READs that are told in portions. These functions do nothing: each contract is a law over the definitions that the contract of
//! `Requests::read_on` cites.
ghost use Rattle.std.specs.Prelude.{◌≡◌, ◌+◌, ◌<◌, ◌≤◌, ℕ, List};
ghost use Rattle.std.specs.List.{AllByRecursion};
ghost use Rattle.nbd.specs.Pieces.{Joins};
ghost use Rattle.serve_requests.specs.Portions.{ArePortions};
ghost use Rattle.serve_requests.specs.Reading.{ReadingState};

/// The portions of a READ cover its bytes, each byte once: each begins where the one before it ends, has at least one byte and at most 1 MiB,
/// and there is a last one.
pub fn portions_cover()
    ensures joined { (r : ReadingState) (ps : List (ℕ × ℕ)) → r.told ≡ 0 → ArePortions r ps
        → Joins r.request.offset ps (r.request.offset + r.request.length) }
    ensures some { (r : ReadingState) (ps : List (ℕ × ℕ)) → ArePortions r ps → AllByRecursion (λ p. (0 < p.1) × (p.1 ≤ 1048576)) ps }
    ensures end { (r : ReadingState) → r.told ≤ r.request.length → (ps : List (ℕ × ℕ)) × ArePortions r ps }
{}
