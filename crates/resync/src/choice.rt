//! The choice of the block that a resync copies next.
ghost use Rattle.std.specs.Prelude.{◌≡◌, option_map};
ghost use Rattle.resync.specs.Next.{next_block};

use bitmap::Bitmap;
use blocks::{Block, Range};
use overlap::Held;

/// Returns the lowest marked block that no interval in `held` covers, if there is one: the block that a resync copies
/// next (this project's rule). It takes no memory. It searches the marks once for each covered block that it passes over,
/// and once more: after `Bitmap::skip_unmarked` that is constant time while no interval covers a marked block.
pub fn next(marks: &Bitmap, held: &Held) -> Option<Block>
    ensures { option_map (λ b. b.0) result ≡ next_block marks.now held.now }
{
    let blocks = marks.len();
    let mut from = 0;
    while from < blocks {
        let block = marks.first_from(Block(from))?;
        if held
            .conflict(Range {
                first: block,
                count: 1,
            })
            .is_none()
        {
            return Some(block);
        }
        from = block.0 + 1;
    }
    None
}
