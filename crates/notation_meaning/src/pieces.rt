//! What replaces pieces of a command line.

ghost use Rattle.std.specs.Prelude.{◌≡◌, ℕ, pos, decimal, slice_get, IfOk};
ghost use Rattle.std.specs.Str.{bytes_eq};
ghost use Rattle.dbg_base.specs.Evaluation.{Num};
ghost use Rattle.dbg_base.specs.Names.{place_of};
ghost use Rattle.dbg_base.specs.Trees.{names_of};
ghost use Rattle.notation_meaning.specs.AgreementViews.{IsNamed, context_of, scope_of, played_of, texts_of};
ghost use Rattle.notation_meaning.specs.CommandLines.{line_context, labels_of, labels_at, IsLabel, LabelAt, Replaces};
ghost use Rattle.notation_meaning.specs.ModelValues.{HasValue};
ghost use Rattle.notation_meaning.specs.declared.command_line.Meant.TheVariants as meant;

use crate::command_line::{Meant, Reading};
use crate::difference::{DEPTH, DIFFERENT, deeper};
use crate::names::{index_of, with_brackets};
use crate::played::PlayedModel;
use crate::predicates::{check_predicate, predicate_length};
use crate::scopes::PlaceScope;
use crate::setting::Known;
use crate::values::number;
use crate::written::plain_name;
use dbg_base::Pid;
use itoa::Buffer;
use notation_programs::building::CommandOrigin;
use notation_tree::fault::Expanding;
use notation_tree::syntax::{Expression, Reference};
use std::alloc::Global;

// The label that a name with these indices is.
fn labelled(
    known: &Known<'_>,
    scope: &PlaceScope<'_>,
    name: Vec<u8>,
    indices: &[Expression],
    depth: u32,
) -> Expanding<Vec<u8>>
    ensures { IfOk result (λ whole. IsLabel (context_of known.now) (scope_of scope.now) name.items indices.now whole.items) }
{
    let inner = deeper(depth)?;
    match indices.split_first() {
        None => Ok(name),
        Some((first, others)) => {
            let value = number(known, scope, first, inner)?;
            let longer = with_brackets(name, value)?;
            labelled(known, scope, longer, others, inner)
        }
    }
}

// Whether a command has this label.
fn is_labelled(command: &CommandOrigin, label: &[u8]) -> bool
    ensures { result ≡ bytes_eq command.now.label.items label.now }
{
    command.label.as_slice() == label
}

// The place of a label among those of commands.
fn place_among(commands: &[CommandOrigin], label: &[u8]) -> Option<usize>
    ensures { result ≡ place_of label.now (texts_of commands.now) }
{
    let mut place = 0usize;
    let mut rest = commands;
    while let Some((first, others)) = rest.split_first() {
        if is_labelled(first, label) {
            return Some(place);
        }
        place += 1;
        rest = others;
    }
    None
}

// The commands of a process, or none.
fn commands_of<'a>(played: &PlayedModel<'a>, pid: Pid) -> &'a [CommandOrigin]
    ensures { texts_of result.now ≡ labels_of (slice_get (played_of played.now).copies pid.0) }
{
    match played.copies.get(pid.0 as usize) {
        Some(copy) => copy.commands.as_slice(),
        None => &[],
    }
}

// The commands of the process of this name, or none.
fn commands_named<'a>(played: &PlayedModel<'a>, name: &[u8]) -> &'a [CommandOrigin]
    ensures { texts_of result.now ≡ labels_at (played_of played.now) (place_of name.now (names_of (played_of played.now).program)) }
{
    match played.program.find_process_by(name) {
        Some(pid) => commands_of(played, pid),
        None => &[],
    }
}

// The place of the label that a name is, among those of the process of the name `process`.
fn label_place(
    played: &PlayedModel<'_>,
    scope: &PlaceScope<'_>,
    process: &[u8],
    reference: &Reference,
) -> Expanding<Option<usize>>
    ensures { IfOk result (λ place. LabelAt (played_of played.now) (scope_of scope.now) process.now reference.now place) }
{
    let known = played.known();
    let name = Vec::from_slice(played.alloc, reference.name.bytes())?;
    let label = labelled(&known, scope, name, reference.indices.as_slice(), DEPTH)?;
    let commands = commands_named(played, process);
    Ok(place_among(commands, label.as_slice()))
}

// The digits of a number.
fn digits(alloc: Global, number: u64) -> Expanding<Vec<u8>>
    ensures { IfOk result (λ text. text.items ≡ decimal number) }
{
    let mut buffer = Buffer::new();
    Ok(Vec::from_slice(alloc, buffer.format(number).as_bytes())?)
}

// The digits of the number that an expression gives, which is not below 0.
fn computed(
    played: &PlayedModel<'_>,
    scope: &PlaceScope<'_>,
    expression: &Expression,
) -> Expanding<Vec<u8>>
    ensures { IfOk result (λ text. (n : ℕ) × (text.items ≡ decimal n)
        × HasValue (line_context (played_of played.now)) (scope_of scope.now) expression.now (Num (pos n))) }
{
    let known = played.known();
    let found = number(&known, scope, expression, DEPTH)?;
    let held = index_of(found)?;
    digits(played.alloc, held)
}

// What replaces a label, or a word that may be one.
fn label(
    played: &PlayedModel<'_>,
    scope: &PlaceScope<'_>,
    process: &[u8],
    reference: &Reference,
    number: &Option<Expression>,
) -> Expanding<Vec<u8>>
    ensures { IfOk result (λ text. Replaces (played_of played.now) (scope_of scope.now) process.now (meant.Label reference.now number.now)
        text.items) }
{
    if let Some(place) = label_place(played, scope, process, reference)? {
        return digits(played.alloc, place as u64);
    }
    match number {
        Some(expression) => computed(played, scope, expression),
        None => {
            if reference.indices.len() != 0 {
                return Err(DIFFERENT);
            }
            Ok(Vec::from_slice(played.alloc, reference.name.bytes())?)
        }
    }
}

// What replaces a name.
fn name(
    played: &PlayedModel<'_>,
    scope: &PlaceScope<'_>,
    reference: &Reference,
) -> Expanding<Vec<u8>>
    ensures { IfOk result (λ name. IsNamed (line_context (played_of played.now)) (scope_of scope.now) reference.now name.items) }
{
    let known = played.known();
    plain_name(&known, scope, reference, DEPTH)
}

// What replaces a predicate: the text at the beginning of these bytes, if the predicate means it.
fn predicate(
    played: &PlayedModel<'_>,
    scope: &PlaceScope<'_>,
    process: &[u8],
    readings: &Vec<Reading>,
    rendered: &[u8],
) -> Expanding<Vec<u8>>
    ensures { IfOk result (λ text. Replaces (played_of played.now) (scope_of scope.now) process.now (meant.Predicate readings.now) text.items) }
{
    let text = rendered.get(..predicate_length(rendered)).unwrap_or(&[]);
    if predicate_length(text) != text.len() {
        return Err(DIFFERENT);
    }
    check_predicate(played, scope, process, readings.as_slice(), text)?;
    Ok(Vec::from_slice(played.alloc, text)?)
}

/// What replaces some bytes of a line, after the process of the name `process`. The text of a predicate is at the beginning of `rendered`.
pub(crate) fn replacement(
    played: &PlayedModel<'_>,
    scope: &PlaceScope<'_>,
    process: &[u8],
    wanted: &Meant,
    rendered: &[u8],
) -> Expanding<Vec<u8>>
    ensures { IfOk result (λ text. Replaces (played_of played.now) (scope_of scope.now) process.now wanted.now text.items) }
{
    match wanted {
        Meant::Name(reference) => name(played, scope, reference),
        Meant::Label(reference, number) => label(played, scope, process, reference, number),
        Meant::Number(expression) => computed(played, scope, expression),
        Meant::Predicate(readings) => predicate(played, scope, process, readings, rendered),
    }
}
