//! Whole programs.

ghost use Rattle.std.specs.Prelude.{◌≡◌, ℕ, length, IfOk, IfErr};
ghost use Rattle.dbg_base.specs.Checks.{Reads};
ghost use Rattle.proc_tree.specs.Programs.{program_of};
ghost use Rattle.notation_tree.specs.Places.{IsInside};
ghost use Rattle.notation_programs.specs.Expansions.{plain_of, source_length};
ghost use Rattle.notation_meaning.specs.AgreementViews.{played_of};
ghost use Rattle.notation_meaning.specs.ModelPrograms.{ProgramOf};
ghost use Rattle.notation.specs.Lines.{played_in};

use notation_meaning::{PlayedModel, agrees};
use notation_programs::expansion::{Expansion, expand};
use notation_tree::fault::{Fault, NotationError, Problem};
use proc_lang::{ProgError, parse_program};
use proc_tree::Program;
use std::alloc::Global;

/// A model that was expanded, and its plain program.
#[derive(Drop)]
pub struct ExpandedProgram {
    pub expansion: Expansion,
    pub program: Program,
}

impl ExpandedProgram {
    /// The model, what is written for it, and its program.
    pub(crate) fn played(&self, alloc: Global) -> PlayedModel<'_>
        ensures { played_of result ≡ played_in self.now }
    {
        let expansion = &self.expansion;
        PlayedModel {
            alloc,
            model: &expansion.model,
            constants: expansion.built.constants.as_slice(),
            copies: expansion.built.processes.as_slice(),
            program: &self.program,
        }
    }
}

/// The fault of an expansion that is not what the text means: a fault of the expander, and of no text.
pub(crate) fn disagreement(alloc: Global) -> NotationError
    ensures { (bytes : ℕ) → IsInside bytes result }
{
    NotationError::Bad(Fault::new(Problem::Disagreement, 0, Vec::new(alloc)))
}

/// The expansion of a program text, and the program as which the process language reads it, or the first fault.
pub fn expand_program(alloc: Global, program: &[u8]) -> Result<ExpandedProgram, NotationError>
    ensures source { IfOk result (λ expanded. source_length expanded.expansion ≡ length program.now) }
    ensures reads { IfOk result (λ expanded. Reads (plain_of expanded.expansion) (program_of expanded.program)) }
    ensures means { IfOk result (λ expanded. ProgramOf (played_in expanded)) }
    ensures inside { IfErr result (IsInside (length program.now)) }
{
    let expansion = expand(alloc, program)?;
    match parse_program(alloc, expansion.plain()) {
        Ok(program) => {
            let expanded = ExpandedProgram { expansion, program };
            if agrees(&expanded.played(alloc))? {
                Ok(expanded)
            } else {
                Err(disagreement(alloc))
            }
        }
        Err(ProgError::Memory) => Err(NotationError::Memory),
        Err(ProgError::Bad(found)) => Err(NotationError::Bad(expansion.fault(alloc, &found)?)),
    }
}
