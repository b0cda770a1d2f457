//! Which conjuncts a breakpoint may have.

ghost use Rattle.std.specs.Prelude.{◌≡◌, ◌==◌, ◌<◌, [], map, None, Some, OnOk, IfErr};
ghost use Rattle.std.specs.List.{list_any};
ghost use Rattle.dbg_base.specs.Calls.{conjunct_of};
ghost use Rattle.dbg_base.specs.Acts.{conjuncts_refusal};
ghost use Rattle.proc_tree.specs.Programs.{program_of};

use dbg_base::{Conjunct, Pid, Refusal};
use proc_tree::{Program, fits};

// Whether one of them is of this process.
fn is_named(conjuncts: &[Conjunct], pid: Pid) -> bool
    ensures { result ≡ list_any (λ conjunct. conjunct.pid.0 == pid.0) conjuncts.now }
{
    conjuncts.iter().any(|conjunct| conjunct.pid == pid)
}

// Checks the conjuncts from left to right. Errors: `UnknownProcess` for a process that the program does not have. `BadPredicate` for an
// expression that is not a truth expression of its process, or for a process that an earlier conjunct names.
pub(crate) fn fitting(program: &Program, conjuncts: &[Conjunct]) -> Result<(), Refusal>
    ensures fit { OnOk result (conjuncts_refusal (program_of program.now) [] (map conjunct_of conjuncts.now) ≡ None) }
    ensures refuses { IfErr result (λ refusal. conjuncts_refusal (program_of program.now) [] (map conjunct_of conjuncts.now)
        ≡ Some refusal) }
{
    for (i, conjunct) in conjuncts.iter().enumerate() {
        if conjunct.pid.0 >= program.processes() {
            return Err(Refusal::UnknownProcess);
        }
        if !fits(program, conjunct.pid, &conjunct.expr) {
            return Err(Refusal::BadPredicate);
        }
        if is_named(&conjuncts[..i], conjunct.pid) {
            return Err(Refusal::BadPredicate);
        }
    }
    Ok(())
}
