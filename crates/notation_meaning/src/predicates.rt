//! Whether texts are the predicates that expressions mean.

ghost use Rattle.std.specs.Prelude.{◌≡◌, length, slice_get, Some, IfOk};
ghost use Rattle.dbg_base.specs.Checks.{ReadsPredicate};
ghost use Rattle.dbg_base.specs.CommandLines.{word_prefix, closed_prefix, predicate_prefix};
ghost use Rattle.dbg_base.specs.Names.{place_of};
ghost use Rattle.dbg_base.specs.Trees.{Tree, names_of};
ghost use Rattle.proc_tree.specs.Programs.{program_of};
ghost use Rattle.notation_tree.specs.declared.syntax.DeclarationNode.TheVariants as declaration;
ghost use Rattle.notation_meaning.specs.AgreementViews.{constants_of, scope_of, setting_of, played_of, with_members};
ghost use Rattle.notation_meaning.specs.CommandLines.{chosen, family_scope, own_constants, SaysOf, IsPredicate};
ghost use Rattle.notation_meaning.specs.ModelScopes.{Scope};
ghost use Rattle.notation_meaning.specs.PlainExpressions.{Means};

use crate::command_line::Reading;
use crate::difference::{DEPTH, DIFFERENT};
use crate::plain::means;
use crate::played::PlayedModel;
use crate::scopes::{MemberHere, PlaceScope};
use crate::setting::{Known, PlainSetting};
use dbg_base::Pid;
use notation_programs::building::ProcessCopy;
use notation_tree::arithmetic::ConstantValue;
use notation_tree::fault::{Expanding, ExpansionStop};
use notation_tree::syntax::{Binder, DeclarationNode, Expression, ProcessNode};
use proc_lang::{ProgError, parse_predicate};
use std::alloc::Global;

// The number of bytes up to the parenthesis that closes all open ones, or of all bytes if none closes them.
fn closed_length(bytes: &[u8]) -> usize
    ensures { result ≡ length (closed_prefix 0 bytes.now) }
{
    let mut rest = bytes;
    let mut depth = 0usize;
    let mut n = 0usize;
    while let [first, others @ ..] = rest {
        n += 1;
        if *first == b'(' {
            depth += 1;
        } else if *first == b')' {
            if depth <= 1 {
                return n;
            }
            depth -= 1;
        }
        rest = others;
    }
    n
}

// The number of bytes before the first blank.
fn word_length(bytes: &[u8]) -> usize
    ensures { result ≡ length (word_prefix bytes.now) }
{
    let mut rest = bytes;
    let mut n = 0usize;
    while let [first, others @ ..] = rest {
        if *first == b' ' || *first == b'\t' {
            return n;
        }
        n += 1;
        rest = others;
    }
    n
}

/// How many bytes the text of a predicate has that is at the beginning.
pub(crate) fn predicate_length(bytes: &[u8]) -> usize
    ensures { result ≡ length (predicate_prefix bytes.now) }
{
    let [first, ..] = bytes else {
        return 0;
    };
    if *first == b'(' {
        return closed_length(bytes);
    }
    word_length(bytes)
}

// The expression that was read for the declaration of this number, or else the first.
fn chosen(readings: &[Reading], declaration: usize) -> Expanding<&Expression>
    ensures { IfOk result (λ found. chosen declaration readings.now ≡ Some found.now) }
{
    let Some((first, _)) = readings.split_first() else {
        return Err(DIFFERENT);
    };
    let mut rest = readings;
    while let Some((reading, others)) = rest.split_first() {
        if reading.declaration == Some(declaration) {
            return Ok(&reading.expression);
        }
        rest = others;
    }
    Ok(&first.expression)
}

// The constants, where those from this number on have the values in a process.
fn own_constants(
    alloc: Global,
    constants: &[Option<ConstantValue>],
    first: usize,
    own: &[Option<ConstantValue>],
) -> Expanding<Vec<Option<ConstantValue>>>
    ensures { IfOk result (λ whole. constants_of whole.items ≡ own_constants first (constants_of own.now) (constants_of constants.now)) }
{
    if first > constants.len() || own.len() > constants.len() - first {
        return Err(DIFFERENT);
    }
    let (before, _) = constants.split_at(first);
    let (_, after) = constants.split_at(first + own.len());
    let mut whole = Vec::from_slice(alloc, before)?;
    whole.extend_from_slice(own)?;
    whole.extend_from_slice(after)?;
    Ok(whole)
}

// The members of a family, with these values.
fn family_members(alloc: Global, ranges: &[Binder], values: &[i64]) -> Expanding<Vec<MemberHere>>
    ensures { IfOk result (λ members. (s : Scope) → with_members members.items s ≡ family_scope ranges.now values.now s) }
{
    let mut members = Vec::new(alloc);
    let mut rest = ranges;
    let mut left = values;
    while let Some((binder, others)) = rest.split_first() {
        let Some((value, further)) = left.split_first() else {
            return Ok(members);
        };
        members.push(MemberHere {
            member: binder.member,
            value: *value,
        })?;
        rest = others;
        left = further;
    }
    Ok(members)
}

// The process that a declaration of a model is.
fn declared<'a>(played: &PlayedModel<'a>, copy: &ProcessCopy) -> Expanding<&'a ProcessNode>
    ensures { IfOk result (λ node. slice_get played.now.model.now.declarations.items copy.now.declaration ≡ Some (declaration.Process node.now)) }
{
    match played.model.declarations.get(copy.declaration) {
        Some(DeclarationNode::Process(node)) => Ok(node),
        _ => Err(DIFFERENT),
    }
}

// Whether an expression means the predicate of a process that a text reads as, if it reads as one.
fn check_text(
    played: &PlayedModel<'_>,
    known: Known<'_>,
    scope: &PlaceScope<'_>,
    pid: Pid,
    expression: &Expression,
    text: &[u8],
) -> Expanding<()>
    ensures { IfOk result (λ _. (t : Tree) → ReadsPredicate (program_of played.now.program.now) pid.0 text.now t
        → Means (setting_of (record { known = known.entry; program = played.now.program; own = pid })) (scope_of scope.now) expression.now t) }
{
    if pid.0 >= played.program.processes() {
        return Err(DIFFERENT);
    }
    match parse_predicate(played.alloc, played.program, pid, text) {
        Ok(tree) => {
            let setting = PlainSetting {
                known,
                program: played.program,
                own: pid,
            };
            means(&setting, scope, expression, &tree, DEPTH)
        }
        Err(ProgError::Bad(_)) => Ok(()),
        Err(ProgError::Memory) => Err(ExpansionStop::Memory),
    }
}

// Whether a text is the predicate over this process that expressions mean.
fn check_process(
    played: &PlayedModel<'_>,
    scope: &PlaceScope<'_>,
    pid: Pid,
    readings: &[Reading],
    text: &[u8],
) -> Expanding<()>
    ensures { IfOk result (λ _. SaysOf (played_of played.now) (scope_of scope.now) pid.0 readings.now text.now) }
{
    let Some(copy) = played.copy(pid) else {
        return Err(DIFFERENT);
    };
    let node = declared(played, copy)?;
    let expression = chosen(readings, copy.declaration)?;
    let constants = own_constants(
        played.alloc,
        played.constants,
        node.first_constant,
        copy.constants.as_slice(),
    )?;
    let members = family_members(
        played.alloc,
        node.ranges.as_slice(),
        copy.members.as_slice(),
    )?;
    let within = PlaceScope::Members(members.as_slice(), &*scope);
    let known = Known {
        alloc: played.alloc,
        definitions: played.model.tables.definitions.as_slice(),
        constants: constants.as_slice(),
    };
    check_text(played, known, &within, pid, expression, text)
}

/// Whether a text is the predicate over the process of this name that expressions mean, if there is such a process.
pub(crate) fn check_predicate(
    played: &PlayedModel<'_>,
    scope: &PlaceScope<'_>,
    process: &[u8],
    readings: &[Reading],
    text: &[u8],
) -> Expanding<()>
    ensures { IfOk result (λ _. IsPredicate (played_of played.now) (scope_of scope.now)
        (place_of process.now (names_of (program_of played.now.program.now))) readings.now text.now) }
{
    match played.program.find_process_by(process) {
        Some(pid) => check_process(played, scope, pid, readings, text),
        None => Ok(()),
    }
}
