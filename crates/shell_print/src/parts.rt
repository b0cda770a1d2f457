//! Lines, composed word by word and then written.

ghost use Rattle.std.specs.Prelude.{◌≡◌, ◌<◌, ◌≤◌, ◌+◌, ◌++◌, ℕ, List, [], ◌∷◌, Some, map, length, slice_get, codes, IfOk};
ghost use Rattle.std.specs.Fmt.{decimal, signed_decimal};
ghost use Rattle.dbg_base.specs.Trees.{process_of, names_of};
ghost use Rattle.dbg_base.specs.Replies.{joined, spaced, pair_words, mark_word, halted_words};
ghost use Rattle.dbg_base.specs.Shell.{as_line};
ghost use Rattle.proc_tree.specs.Programs.{program_of};
ghost use Rattle.shell_print.specs.Writing.{Writes, Puts, in_a_row};
ghost use Rattle.shell_print.specs.declared.parts.TheConstants.{PAIR, LINE};
ghost use Rattle.shell_print.specs.Pieces.{item_text, word_texts, names_in, amount_texts, piece_words};

use crate::outcome::ServeFault;
use crate::pieces::{Amounts, Item, Names, Piece, Term, Words};
use crate::words::{append_count, append_head, append_item, append_name, append_number};
use dbg_base::{Name, Pid};
use proc_tree::Program;
use shell_io::{FixedBuffer, Sink};

// Room for a space, a name, a sign and a number.
const PAIR: usize = 80;
// Room for a line. A longer line is written in pieces: what is composed is written when there is no room left for a pair.
const LINE: usize = 256;

/// Writes all of the bytes. After a failure it does not call the writer again.
pub fn write_whole<W: Sink>(writer: &mut W, bytes: &[u8]) -> Result<(), ServeFault>
    ensures { Writes (W.seen writer.old) (W.seen writer.new) result bytes.now }
{
    let mut rest = bytes;
    while !rest.is_empty() {
        match writer.write(rest) {
            Ok(n) => rest = &rest[n..],
            Err(_) => return Err(ServeFault::Write),
        }
    }
    Ok(())
}

// Writes what is composed.
#[cold]
#[inline(never)]
fn write_composed<W: Sink>(text: &mut FixedBuffer<LINE>, writer: &mut W) -> Result<(), ServeFault>
    ensures puts { Puts (W.seen writer.old) text.old (W.seen writer.new) text.new result [] }
    ensures empty { IfOk result (λ _. text.new ≡ []) }
{
    write_whole(writer, text.bytes())?;
    text.clear();
    Ok(())
}

// Makes room for a pair. If there is less, it writes what is composed.
#[inline(always)]
fn make_room<W: Sink>(text: &mut FixedBuffer<LINE>, writer: &mut W) -> Result<(), ServeFault>
    ensures puts { Puts (W.seen writer.old) text.old (W.seen writer.new) text.new result [] }
    ensures room { IfOk result (λ _. length text.new + PAIR ≤ LINE) }
{
    if text.room() >= PAIR {
        return Ok(());
    }
    write_composed(text, writer)
}

// Puts a space and an item.
fn put_item<W: Sink>(
    item: &Item<'_>,
    text: &mut FixedBuffer<LINE>,
    writer: &mut W,
) -> Result<(), ServeFault>
    ensures { Puts (W.seen writer.old) text.old (W.seen writer.new) text.new result (codes " " ++ item_text item.now) }
{
    make_room(text, writer)?;
    text.push(b' ');
    append_item(text, item);
    Ok(())
}

fn process_at(program: &Program, place: usize) -> Option<Name>
    ensures { result ≡ slice_get (names_of (program_of program.now)) place }
{
    if place >= program.processes() as usize {
        return None;
    }
    program.process_name(Pid(place as u32))
}

fn variable_at(program: &Program, pid: Pid, place: usize) -> Option<Name>
    ensures { result ≡ slice_get (map (λ variable. variable.0) (process_of (program_of program.now) pid.0).variables) place }
{
    if place >= program.variables(pid) as usize {
        return None;
    }
    program.variable_name(pid, place as u32)
}

impl Names<'_> {
    fn at(&self, place: usize) -> Option<Name>
        ensures { result ≡ slice_get (names_in self.now) place }
    {
        match self {
            Names::Processes(program) => process_at(program, place),
            Names::Variables(program, pid) => variable_at(program, *pid, place),
        }
    }
}

impl Amounts<'_> {
    // Appends the value at this position, if there is one.
    #[inline(always)]
    fn append_at(&self, place: usize, text: &mut FixedBuffer<LINE>)
        requires { length text.old + 40 ≤ LINE }
        ensures { (amount : List ℕ) → slice_get (amount_texts self.now) place ≡ Some amount → text.new ≡ text.old ++ amount }
    {
        match self {
            Amounts::Counts(counts) => {
                if let Some(count) = counts.get(place) {
                    append_count(text, *count);
                }
            }
            Amounts::Numbers(numbers) => {
                if let Some(number) = numbers.get(place) {
                    append_number(text, *number);
                }
            }
            Amounts::Heads(heads) => {
                if let Some(head) = heads.get(place) {
                    append_head(text, *head);
                }
            }
        }
    }

    fn len(&self) -> usize
        ensures { result ≡ length (amount_texts self.now) }
    {
        match self {
            Amounts::Counts(counts) => counts.len(),
            Amounts::Numbers(numbers) => numbers.len(),
            Amounts::Heads(heads) => heads.len(),
        }
    }
}

// Puts a space, a name, `=` and the value at this position, if there is one.
#[inline(always)]
fn put_pair<W: Sink>(
    name: &Name,
    amounts: &Amounts<'_>,
    place: usize,
    text: &mut FixedBuffer<LINE>,
    writer: &mut W,
) -> Result<(), ServeFault>
    ensures { (amount : List ℕ) → slice_get (amount_texts amounts.now) place ≡ Some amount
        → Puts (W.seen writer.old) text.old (W.seen writer.new) text.new result (codes " " ++ name.now ++ codes "=" ++ amount) }
{
    make_room(text, writer)?;
    append_name(text, name, b'=');
    amounts.append_at(place, text);
    Ok(())
}

// Puts each name with its value, as long as there are both.
fn put_pairs<W: Sink>(
    names: &Names<'_>,
    amounts: &Amounts<'_>,
    text: &mut FixedBuffer<LINE>,
    writer: &mut W,
) -> Result<(), ServeFault>
    ensures { Puts (W.seen writer.old) text.old (W.seen writer.new) text.new result
        (spaced (pair_words (names_in names.now) (amount_texts amounts.now))) }
{
    for place in 0..amounts.len() {
        let Some(name) = names.at(place) else {
            break;
        };
        put_pair(&name, amounts, place, text, writer)?;
    }
    Ok(())
}

// Puts a space and a number.
fn put_number<W: Sink>(
    number: &i64,
    text: &mut FixedBuffer<LINE>,
    writer: &mut W,
) -> Result<(), ServeFault>
    ensures { Puts (W.seen writer.old) text.old (W.seen writer.new) text.new result (codes " " ++ signed_decimal number.now) }
{
    put_item(&Item::Number(*number), text, writer)
}

// Puts the numbers.
fn put_numbers<W: Sink>(
    numbers: &[i64],
    text: &mut FixedBuffer<LINE>,
    writer: &mut W,
) -> Result<(), ServeFault>
    ensures { Puts (W.seen writer.old) text.old (W.seen writer.new) text.new result (spaced (map signed_decimal numbers.now)) }
{
    for number in numbers {
        put_number(number, text, writer)?;
    }
    Ok(())
}

// Puts a breakpoint, with its mark.
fn put_mark<W: Sink>(
    mark: &(Name, bool),
    text: &mut FixedBuffer<LINE>,
    writer: &mut W,
) -> Result<(), ServeFault>
    ensures { Puts (W.seen writer.old) text.old (W.seen writer.new) text.new result (codes " " ++ mark_word mark.now) }
{
    let armed = if mark.1 { Term::On } else { Term::Off };
    make_room(text, writer)?;
    append_name(text, &mark.0, b' ');
    text.append(armed.text());
    Ok(())
}

// Puts the breakpoints, each with its mark.
fn put_marks<W: Sink>(
    marks: &[(Name, bool)],
    text: &mut FixedBuffer<LINE>,
    writer: &mut W,
) -> Result<(), ServeFault>
    ensures { Puts (W.seen writer.old) text.old (W.seen writer.new) text.new result (spaced (map mark_word marks.now)) }
{
    for mark in marks {
        put_mark(mark, text, writer)?;
    }
    Ok(())
}

// Puts two words.
fn put_both<W: Sink>(
    first: &Item<'_>,
    second: &Item<'_>,
    text: &mut FixedBuffer<LINE>,
    writer: &mut W,
) -> Result<(), ServeFault>
    ensures { Puts (W.seen writer.old) text.old (W.seen writer.new) text.new result
        (spaced (item_text first.now ∷ item_text second.now ∷ [])) }
{
    put_item(first, text, writer)?;
    put_item(second, text, writer)
}

// Puts two counts.
fn put_counts<W: Sink>(
    first: u32,
    second: u32,
    text: &mut FixedBuffer<LINE>,
    writer: &mut W,
) -> Result<(), ServeFault>
    ensures { Puts (W.seen writer.old) text.old (W.seen writer.new) text.new result (spaced (decimal first ∷ decimal second ∷ [])) }
{
    put_both(&Item::Count(first), &Item::Count(second), text, writer)
}

// Puts the breakpoint that halts the session, if any.
fn put_halted<W: Sink>(
    halted: &Option<Name>,
    text: &mut FixedBuffer<LINE>,
    writer: &mut W,
) -> Result<(), ServeFault>
    ensures { Puts (W.seen writer.old) text.old (W.seen writer.new) text.new result (spaced (halted_words halted.now)) }
{
    match halted {
        Some(name) => put_both(&Item::Term(Term::Halted), &Item::Name(name), text, writer),
        None => Ok(()),
    }
}

fn put_piece<W: Sink>(
    piece: &Piece<'_>,
    text: &mut FixedBuffer<LINE>,
    writer: &mut W,
) -> Result<(), ServeFault>
    ensures { Puts (W.seen writer.old) text.old (W.seen writer.new) text.new result (spaced (piece_words piece.now)) }
{
    match piece {
        Piece::Nothing => Ok(()),
        Piece::Item(item) => put_item(item, text, writer),
        Piece::Counts(first, second) => put_counts(*first, *second, text, writer),
        Piece::Halted(halted) => put_halted(halted, text, writer),
        Piece::Words(Words::Numbers(numbers)) => put_numbers(numbers, text, writer),
        Piece::Words(Words::Marks(marks)) => put_marks(marks, text, writer),
        Piece::Pairs(names, amounts) => put_pairs(names, amounts, text, writer),
    }
}

fn put_pieces<W: Sink>(
    pieces: &[Piece<'_>],
    text: &mut FixedBuffer<LINE>,
    writer: &mut W,
) -> Result<(), ServeFault>
    ensures { Puts (W.seen writer.old) text.old (W.seen writer.new) text.new result (spaced (in_a_row piece_words pieces.now)) }
{
    for piece in pieces {
        put_piece(piece, text, writer)?;
    }
    Ok(())
}

/// Writes a line: its first word, the words of these pieces with a space before each, and the line end.
pub(crate) fn write_line<W: Sink>(
    first: &[u8],
    pieces: &[Piece<'_>],
    writer: &mut W,
) -> Result<(), ServeFault>
    requires { length first.now ≤ 40 }
    ensures { Writes (W.seen writer.old) (W.seen writer.new) result
        (as_line (joined (first.now ∷ in_a_row piece_words pieces.now))) }
{
    let mut text: FixedBuffer<LINE> = FixedBuffer::new();
    text.append(first);
    put_pieces(pieces, &mut text, writer)?;
    make_room(&mut text, writer)?;
    text.push(b'\n');
    write_whole(writer, text.bytes())
}
