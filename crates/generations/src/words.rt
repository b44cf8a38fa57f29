//! The test of a word that is to begin a generation.
ghost use Rattle.std.specs.Prelude.{◌≡◌, ◌↔◌, IsTrue, IsOk, IfErr};
ghost use Rattle.generations.specs.TupleWords.{IsFresh};
ghost use Rattle.blocks.specs.Identifiers.{is_fresh, stands_in};
ghost use Rattle.blocks.specs.declared.refusal.Refusal.TheVariants.{UsedIdentifier};

use blocks::{Refusal, Tuple};

/// Checks that the word may begin a new generation: it is not zero, and none of the known tuples has it (this
/// project's rule). `UsedIdentifier` (33) if it may not. It takes no memory.
pub fn fresh(word: u64, known: &[Tuple]) -> Result<(), Refusal>
    ensures accepted { IsOk result ↔ IsFresh word known.now }
    ensures fresh { IsOk result ↔ IsTrue (is_fresh word known.now) }
    ensures refused { IfErr result (λ e. e ≡ UsedIdentifier) }
{
    if word == 0 || known.iter().any(|tuple| stands_in(word, tuple)) {
        return Err(Refusal::UsedIdentifier);
    }
    Ok(())
}

/// Returns whether the word is one of the tuple's four. It takes no memory.
pub fn stands_in(word: u64, tuple: &Tuple) -> bool
    ensures { result ≡ stands_in word tuple.now }
{
    word == tuple.current
        || word == tuple.bitmap
        || word == tuple.first_historical
        || word == tuple.second_historical
}
