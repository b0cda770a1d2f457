//! Whether a plain program is what a model means: both trees are read side by side, with no text between them.

ghost use Rattle.std.specs.Prelude.{◌≡◌, length, replicate, IfOk, IsTrue};
ghost use Rattle.notation_meaning.specs.AgreementViews.{constants_of, played_of};
ghost use Rattle.notation_meaning.specs.ModelPrograms.{ProgramOf};

use crate::constants::are_same;
use crate::played::PlayedModel;
use crate::programs::{ProgramProgress, declarations};
use crate::setting::ModelHere;
use notation_tree::arithmetic::ConstantValue;
use notation_tree::fault::ExpansionStop;
use std::alloc::{AllocError, Global};

// So many constants, of which none has a value.
fn unknown(alloc: Global, count: usize) -> Result<Vec<Option<ConstantValue>>, AllocError>
    ensures { IfOk result (λ constants. constants.items ≡ replicate count None) }
{
    let mut constants = Vec::new(alloc);
    for _ in 0..count {
        constants.push(None)?;
    }
    Ok(constants)
}

// Whether these are all processes, and constants have these values after them.
fn is_whole(played: &PlayedModel<'_>, end: &ProgramProgress) -> bool
    ensures { IsTrue result → (end.now.processes ≡ length (played_of played.now).program)
        × (end.now.processes ≡ length (played_of played.now).copies)
        × (constants_of end.now.constants.items ≡ (played_of played.now).constants) }
{
    end.processes == played.program.processes()
        && end.processes as usize == played.copies.len()
        && are_same(end.constants.as_slice(), played.constants)
}

/// Whether a model means the plain program, and what is known of its constants and processes. `true` is proved to be right; `false` says that
/// no agreement was found.
pub fn agrees(played: &PlayedModel<'_>) -> Result<bool, AllocError>
    ensures { IfOk result (λ yes. IsTrue yes → ProgramOf (played_of played.now)) }
{
    let tables = &played.model.tables;
    let here = ModelHere {
        alloc: played.alloc,
        definitions: tables.definitions.as_slice(),
        copies: played.copies,
        program: played.program,
    };
    let start = ProgramProgress {
        constants: unknown(played.alloc, tables.constants)?,
        processes: 0,
    };
    match declarations(&here, played.model.declarations.as_slice(), start) {
        Ok(end) => Ok(is_whole(played, &end)),
        Err(ExpansionStop::Memory) => Err(AllocError),
        Err(ExpansionStop::Bad(_, _)) => Ok(false),
    }
}
