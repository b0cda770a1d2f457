//! What is written for a model.

ghost use Rattle.std.specs.Prelude.{◌≡◌, vec_len};
ghost use Rattle.notation_programs.specs.TokenCounts.{token_count};

use crate::building::ProcessCopy;
use crate::environment::CopyOf;
use crate::plain_text::{Origin, PlainText};
use notation_tree::arithmetic::ConstantValue;

/// The plain text of a model, its processes, the copies in which its tokens are, the values of constants, and for each token of the plain
/// text where it comes from.
#[derive(Drop)]
pub struct Built {
    pub(crate) text: PlainText,
    pub processes: Vec<ProcessCopy>,
    pub(crate) copies: Vec<CopyOf>,
    pub constants: Vec<Option<ConstantValue>>,
    pub(crate) map: Vec<Origin>,
    ghost mapped: { vec_len map ≡ token_count text.bytes.items },
}
