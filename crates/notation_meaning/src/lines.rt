//! Whether plain lines are those that a command line of a model stands for.

ghost use Rattle.std.specs.Prelude.{◌≡◌, ℕ, List, [], ◌∷◌, slice_get, Some, IfOk, IfSome, IsTrue};
ghost use Rattle.notation_meaning.specs.ModelFamilies.{Place, place_in, PlacesOf};
ghost use Rattle.notation_meaning.specs.ModelScopes.{Top};
ghost use Rattle.notation_meaning.specs.CommandLines.{line_context, Output, between, copied, replaced, begun, nothing_written};
ghost use Rattle.notation_meaning.specs.CommandLines.{Replaces, PiecesOf, CopiesOf, SegmentsOf, LinesOf, StandsFor};
ghost use Rattle.notation_meaning.specs.AgreementViews.{scope_of, places_of, played_of};
ghost use Rattle.notation_meaning.specs.LineViews.{output_of, lines_of};

use crate::command_line::{CommandLine, LinePiece, Meant, Segment};
use crate::difference::{DEPTH, DIFFERENT};
use crate::families::{FamilyPlace, places};
use crate::pieces::replacement;
use crate::played::PlayedModel;
use crate::scopes::PlaceScope;
use notation_tree::fault::{Expanding, ExpansionStop};
use std::alloc::{AllocError, Global};

/// What is written of a line so far: its bytes, the name of the process that was written last, and how far the line was read.
#[derive(Drop)]
pub(crate) struct LineOutput {
    pub(crate) text: Vec<u8>,
    pub(crate) process: Vec<u8>,
    pub(crate) at: usize,
}

// Nothing is written.
fn nothing(alloc: Global) -> LineOutput
    ensures { output_of result ≡ nothing_written }
{
    LineOutput {
        text: Vec::new(alloc),
        process: Vec::new(alloc),
        at: 0,
    }
}

// The bytes of a line from one offset to another.
fn between(line: &[u8], from: usize, to: usize) -> Expanding<&[u8]>
    ensures { IfOk result (λ part. part.now ≡ between line.now from to) }
{
    if from <= to && to <= line.len() {
        return Ok(&line[from..to]);
    }
    Err(DIFFERENT)
}

// Writes the line up to an offset as it is.
fn copy(line: &[u8], to: usize, output: &mut LineOutput) -> Expanding<()>
    ensures { IfOk result (λ _. output_of output.new ≡ copied line.now to (output_of output.old)) }
{
    output
        .text
        .extend_from_slice(between(line, output.at, to)?)?;
    output.at = to;
    Ok(())
}

// Writes what replaces a piece. Of the line that was rendered, only the texts of predicates count.
fn piece(
    played: &PlayedModel<'_>,
    line: &[u8],
    scope: &PlaceScope<'_>,
    piece: &LinePiece,
    rendered: &[u8],
    output: &mut LineOutput,
) -> Expanding<()>
    ensures { IfOk result (λ _. (text : List ℕ)
        × Replaces (played_of played.now) (scope_of scope.now) (output_of output.old).process piece.now.meant text
        × (output_of output.new ≡ replaced line.now piece.now text (output_of output.old))) }
{
    copy(line, piece.from, output)?;
    let rest = rendered.get(output.text.len()..).unwrap_or(&[]);
    let text = replacement(played, scope, output.process.as_slice(), &piece.meant, rest)?;
    output.text.extend_from_slice(text.as_slice())?;
    output.at = piece.to;
    if matches!(piece.meant, Meant::Name(_)) {
        output.process = text;
    }
    Ok(())
}

// Writes what replaces pieces, one after the other.
fn pieces(
    played: &PlayedModel<'_>,
    line: &[u8],
    scope: &PlaceScope<'_>,
    wanted: &[LinePiece],
    rendered: &[u8],
    output: &mut LineOutput,
) -> Expanding<()>
    ensures { IfOk result (λ _. PiecesOf (played_of played.now) line.now (scope_of scope.now) wanted.now (output_of output.old)
        (output_of output.new)) }
{
    let mut rest = wanted;
    while let Some((first, others)) = rest.split_first() {
        piece(played, line, scope, first, rendered, output)?;
        rest = others;
    }
    Ok(())
}

// Begins a segment, after the bytes that join it to what is before.
fn begin(segment: &Segment, joint: &[u8], output: &mut LineOutput) -> Expanding<()>
    ensures { IfOk result (λ _. output_of output.new ≡ begun segment.now joint.now (output_of output.old)) }
{
    output.text.extend_from_slice(joint)?;
    output.at = segment.start;
    Ok(())
}

// Writes a segment once, after the bytes that join it to what is before.
fn once(
    played: &PlayedModel<'_>,
    line: &[u8],
    scope: &PlaceScope<'_>,
    segment: &Segment,
    joint: &[u8],
    rendered: &[u8],
    output: &mut LineOutput,
) -> Expanding<()>
    ensures { IfOk result (λ _. (v : Output)
        × PiecesOf (played_of played.now) line.now (scope_of scope.now) segment.now.pieces.items
        (begun segment.now joint.now (output_of output.old)) v
        × (output_of output.new ≡ copied line.now segment.now.to v)) }
{
    begin(segment, joint, output)?;
    pieces(
        played,
        line,
        scope,
        segment.pieces.as_slice(),
        rendered,
        output,
    )?;
    copy(line, segment.to, output)
}

// Writes a segment for each of these places.
fn copies(
    played: &PlayedModel<'_>,
    line: &[u8],
    scope: &PlaceScope<'_>,
    segment: &Segment,
    places: &[FamilyPlace],
    rendered: &[u8],
    output: &mut LineOutput,
) -> Expanding<()>
    ensures { IfOk result (λ _. CopiesOf (played_of played.now) line.now segment.now [] (places_of (scope_of scope.now) places.now)
        (output_of output.old) (output_of output.new)) }
{
    let mut joint: &[u8] = b"";
    let mut rest = places;
    while let Some((place, others)) = rest.split_first() {
        let within = PlaceScope::Members(place.members.as_slice(), &*scope);
        once(played, line, &within, segment, joint, rendered, output)?;
        joint = b" ";
        rest = others;
    }
    Ok(())
}

// Writes a segment.
fn segment(
    played: &PlayedModel<'_>,
    line: &[u8],
    scope: &PlaceScope<'_>,
    segment: &Segment,
    rendered: &[u8],
    output: &mut LineOutput,
) -> Expanding<()>
    ensures { IfOk result (λ _. (places : List Place)
        × PlacesOf (line_context (played_of played.now)) (place_in (scope_of scope.now) ∷ []) segment.now.ranges.items places
        × CopiesOf (played_of played.now) line.now segment.now [] places (output_of output.old) (output_of output.new)) }
{
    let known = played.known();
    let found = places(&known, scope, segment.ranges.as_slice(), DEPTH)?;
    copies(
        played,
        line,
        scope,
        segment,
        found.as_slice(),
        rendered,
        output,
    )
}

// Writes segments, in order.
fn segments(
    played: &PlayedModel<'_>,
    line: &[u8],
    scope: &PlaceScope<'_>,
    wanted: &[Segment],
    rendered: &[u8],
    output: &mut LineOutput,
) -> Expanding<()>
    ensures { IfOk result (λ _. SegmentsOf (played_of played.now) line.now (scope_of scope.now) wanted.now (output_of output.old)
        (output_of output.new)) }
{
    let mut rest = wanted;
    while let Some((first, others)) = rest.split_first() {
        segment(played, line, scope, first, rendered, output)?;
        rest = others;
    }
    Ok(())
}

// Whether a plain line is this one of those that segments stand for.
fn is_line(
    played: &PlayedModel<'_>,
    line: &[u8],
    scope: &PlaceScope<'_>,
    wanted: &[Segment],
    rendered: &[u8],
) -> Expanding<()>
    ensures { IfOk result (λ _. (w : Output) × SegmentsOf (played_of played.now) line.now (scope_of scope.now) wanted.now nothing_written w
        × (w.text ≡ rendered.now)) }
{
    let mut output = nothing(played.alloc);
    segments(played, line, scope, wanted, rendered, &mut output)?;
    if output.text.as_slice() != rendered {
        return Err(DIFFERENT);
    }
    Ok(())
}

// The line of this number.
fn line_at(lines: &[Vec<u8>], number: usize) -> Option<&[u8]>
    ensures { IfSome result (λ line. slice_get (lines_of lines.now) number ≡ Some line.now) }
{
    match lines.get(number) {
        Some(line) => Some(line.as_slice()),
        None => None,
    }
}

// Whether plain lines are those that segments stand for at these places.
fn are_lines(
    played: &PlayedModel<'_>,
    line: &[u8],
    wanted: &[Segment],
    places: &[FamilyPlace],
    lines: &[Vec<u8>],
) -> Expanding<()>
    ensures { IfOk result (λ _. LinesOf (played_of played.now) line.now wanted.now (places_of Top places.now) [] (lines_of lines.now)) }
{
    let mut number = 0usize;
    let mut rest = places;
    while let Some((place, others)) = rest.split_first() {
        let Some(rendered) = line_at(lines, number) else {
            return Err(DIFFERENT);
        };
        let within = PlaceScope::Members(place.members.as_slice(), &PlaceScope::Top);
        is_line(played, line, &within, wanted, rendered)?;
        number += 1;
        rest = others;
    }
    if number != lines.len() {
        return Err(DIFFERENT);
    }
    Ok(())
}

// Whether a line stands for plain lines.
fn check_lines(
    played: &PlayedModel<'_>,
    line: &[u8],
    tree: &CommandLine,
    lines: &[Vec<u8>],
) -> Expanding<()>
    ensures { IfOk result (λ _. StandsFor (played_of played.now) line.now tree.now (lines_of lines.now)) }
{
    let known = played.known();
    let found = places(&known, &PlaceScope::Top, tree.ranges.as_slice(), DEPTH)?;
    are_lines(
        played,
        line,
        tree.segments.as_slice(),
        found.as_slice(),
        lines,
    )
}

/// Whether a line, as it was read, stands for these plain lines. `true` is proved to be right; `false` says that this was not found.
pub fn stands_for(
    played: &PlayedModel<'_>,
    line: &[u8],
    tree: &CommandLine,
    lines: &[Vec<u8>],
) -> Result<bool, AllocError>
    ensures { IfOk result (λ yes. IsTrue yes → StandsFor (played_of played.now) line.now tree.now (lines_of lines.now)) }
{
    match check_lines(played, line, tree, lines) {
        Ok(()) => Ok(true),
        Err(ExpansionStop::Memory) => Err(AllocError),
        Err(ExpansionStop::Bad(_, _)) => Ok(false),
    }
}
