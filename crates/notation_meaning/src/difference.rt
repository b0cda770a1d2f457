//! What stops a comparison.

ghost use Rattle.std.specs.Prelude.{◌≡◌, ◌+◌, IfOk};

use notation_tree::fault::{Expanding, ExpansionStop, Problem};
use notation_tree::limits::{REPEATS, UNFOLDING};

/// How deep expressions may be compared and computed: one level of an expansion takes at most eight of these levels, and the 32 open
/// parentheses of a plain text take few more.
pub(crate) const DEPTH: u32 = 16 * UNFOLDING;
/// How deep items may be compared: a `for` takes three of these levels.
pub(crate) const LEVELS: u32 = 3 * REPEATS + 2;
/// The model and the plain program are not found to agree.
pub(crate) const DIFFERENT: ExpansionStop = ExpansionStop::Bad(Problem::Disagreement, 0);

/// One level less than this, if there is one.
pub(crate) fn deeper(depth: u32) -> Expanding<u32>
    ensures { IfOk result (λ inner. inner + 1 ≡ depth) }
{
    if depth == 0 {
        return Err(DIFFERENT);
    }
    Ok(depth - 1)
}
