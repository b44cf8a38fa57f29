//! Both lines of a pair.
ghost use Rattle.std.specs.Prelude.{◌≡◌, ◌++◌, ◌∷◌, [], IfOk, IfErr};
ghost use Rattle.std.specs.String.{string_bytes};
ghost use Rattle.blocks.specs.declared.refusal.Refusal.TheVariants.{NoMemory};
ghost use Rattle.model.specs.Pair.{PairHistory};
ghost use Rattle.model.specs.Status.{primary_line, secondary_line};
ghost use Rattle.status_lines.specs.Text.{primary_text, secondary_text};
ghost use Rattle.pair.specs.State.{state};
ghost use Rattle.pair_protocol.specs.State.{PairHas};

use blocks::Refusal;
use node_lines::{primary_line, secondary_line};
use pair::Pair;
use std::alloc::Global;

/// Returns both lines of a pair, the primary's first, each ended by a newline. `NoMemory` (7) if there is no room
/// for them.
pub fn line(alloc: Global, pair: &Pair) -> Result<String, Refusal>
    ensures lines { IfOk result (λ lines. (h : PairHistory) → PairHas (state pair.now) h → string_bytes lines ≡ primary_text (primary_line h.primary) ++ 10 ∷ (secondary_text (secondary_line h.secondary) ++ 10 ∷ [])) }
    ensures refused { IfErr result (λ e. e ≡ NoMemory) }
{
    let own = primary_line(pair.primary());
    let other = secondary_line(pair.secondary());
    Ok(format!(in alloc; "{own}\n{other}\n")?)
}
