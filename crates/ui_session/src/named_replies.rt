//! Replies with the names that the author of a model gave.

ghost use Rattle.std.specs.Prelude.{◌≡◌, ◌++◌, true, is_some, IfOk, IfSome, OnOk};
ghost use Rattle.std.specs.Fmt.{decimal};
ghost use Rattle.std.specs.List.{list_all};
ghost use Rattle.dbg_base.specs.Tokens.{is_word_byte};
ghost use Rattle.proc_tree.specs.Programs.{program_of};
ghost use Rattle.shell_serve.specs.Replying.{FitsReply, reply_line};
ghost use Rattle.ui_session.specs.Named.{IsHead, IsLabelled, is_ink, named, showing, plain_byte, plain_text};

use crate::value_words::is_valued;
use dbg_base::Choice;
use itoa::Buffer;
use proc_tree::Program;
use shell_io::{Noted, Sink};
use shell_print::{ServeFault, write_whole};
use shell_serve::{LineReply, PlainReplies, ReplyForm};
use std::alloc::{AllocError, Global};
use ui_text::ProgramText;
use ui_view::{LabelPlace, NamedReply, named_refusal, named_reply};

/// How the replies of a session are shown: those of a model with the names and labels of its author, others as a run writes them.
#[derive(Clone, Copy)]
pub struct NamedReplies<'a> {
    text: Option<&'a ProgramText>,
}

impl<'a> NamedReplies<'a> {
    /// The replies of a session of this program. It is None if the program is not in the model notation.
    pub fn of(text: Option<&'a ProgramText>) -> NamedReplies<'a>
        ensures { is_some result.text ≡ is_some text.entry }
    {
        NamedReplies { text }
    }
}

// Appends a byte of a name with indices as the plain name has it.
fn put_plain(plain: &mut Vec<u8>, byte: u8) -> Result<(), AllocError>
    ensures { OnOk result (plain.new.items ≡ plain.old.items ++ plain_byte byte) }
{
    match byte {
        b']' => Ok(()),
        b'[' => Ok(plain.push(b'_')?),
        _ => Ok(plain.push(byte)?),
    }
}

// Appends a text as it is with plain names.
pub(crate) fn put_plain_text(plain: &mut Vec<u8>, text: &[u8]) -> Result<(), AllocError>
    ensures { OnOk result (plain.new.items ≡ plain.old.items ++ plain_text text.now) }
{
    for byte in text {
        put_plain(plain, *byte)?;
    }
    Ok(())
}

/// A text in which names have their indices in brackets, with plain names: `server[3]` becomes `server_3`. Error: memory ran out.
pub fn plain_text(alloc: Global, text: &[u8]) -> Result<Vec<u8>, AllocError>
    ensures { IfOk result (λ made. made.items ≡ plain_text text.now) }
{
    let mut plain = Vec::new(alloc);
    put_plain_text(&mut plain, text)?;
    Ok(plain)
}

// Whether all bytes may be in a plain name.
fn is_word(bytes: &[u8]) -> bool
    ensures { result ≡ list_all is_word_byte bytes.now }
{
    let mut is_word = true;
    for byte in bytes {
        is_word &= byte.is_ascii_lowercase() || byte.is_ascii_digit() || *byte == b'_';
    }
    is_word
}

// Whether this text is before the number of a command.
fn is_head(head: &[u8]) -> bool
    ensures { result ≡ true → IsHead head.now }
{
    match head {
        [b'o', b'k', b' ', name @ .., b' '] => is_word(name),
        _ => false,
    }
}

// Whether no byte is a blank or a line end.
pub(crate) fn is_ink(bytes: &[u8]) -> bool
    ensures { result ≡ list_all is_ink bytes.now }
{
    let mut is_ink = true;
    for byte in bytes {
        is_ink &= *byte > b' ';
    }
    is_ink
}

// Whether two texts are the same.
pub(crate) fn is_same(text: &[u8], other: &[u8]) -> bool
    ensures { result ≡ true → text.now ≡ other.now }
{
    text == other
}

// Whether this text, with plain names, is before the number of a command.
fn has_head(alloc: Global, before: &[u8]) -> Result<bool, AllocError>
    ensures { IfOk result (λ has. has ≡ true → IsHead (plain_text before.now)) }
{
    let head = plain_text(alloc, before)?;
    Ok(is_head(head.as_slice()))
}

// The line with plain names, and with the number of the command in place of its label.
fn read_back(
    alloc: Global,
    before: &[u8],
    choice: Choice,
    after: &[u8],
) -> Result<Vec<u8>, AllocError>
    ensures { IfOk result (λ line. line.items ≡ plain_text before.now ++ (decimal choice.0 ++ plain_text after.now)) }
{
    let mut line = plain_text(alloc, before)?;
    let mut buffer = Buffer::new();
    line.extend_from_slice(buffer.format(choice.0).as_bytes())?;
    let after = plain_text(alloc, after)?;
    line.extend_from_slice(after.as_slice())?;
    Ok(line)
}

// Whether these parts of a line, of which the second is the label of this command, are shown for that line.
fn are_labelled(
    alloc: Global,
    due: &[u8],
    before: &[u8],
    label: &[u8],
    after: &[u8],
    choice: Choice,
) -> Result<bool, AllocError>
    ensures { IfOk result (λ are. are ≡ true → IsLabelled due.now (before.now ++ (label.now ++ after.now))) }
{
    if label.is_empty() || !is_ink(label) {
        return Ok(false);
    }
    let has_head = has_head(alloc, before)?;
    let read = read_back(alloc, before, choice, after)?;
    Ok(has_head && is_same(due, read.as_slice()))
}

// Whether this line, which has a label at this place, is shown for that line.
fn is_labelled(
    alloc: Global,
    due: &[u8],
    line: &[u8],
    place: LabelPlace,
) -> Result<bool, AllocError>
    ensures { IfOk result (λ is. is ≡ true → IsLabelled due.now line.now) }
{
    if place.from > place.to || place.to > line.len() {
        return Ok(false);
    }
    let (before, rest) = line.split_at(place.from);
    let (label, after) = rest.split_at(place.to - place.from);
    are_labelled(alloc, due, before, label, after, place.choice)
}

// Whether this line is that line, once its names are plain.
fn is_named(alloc: Global, due: &[u8], line: &[u8]) -> Result<bool, AllocError>
    ensures { IfOk result (λ is. is ≡ true → plain_text line.now ≡ due.now) }
{
    let plain = plain_text(alloc, line)?;
    Ok(is_same(plain.as_slice(), due))
}

// Whether this reply is shown for that line.
fn is_shown(alloc: Global, due: &[u8], reply: &NamedReply) -> Result<bool, AllocError>
    ensures { IfOk result (λ is. is ≡ true → named due.now reply.now.line.items) }
{
    let line = reply.line.as_slice();
    match reply.label {
        Some(place) => is_labelled(alloc, due, line, place),
        None if reply.values.is_empty() => is_named(alloc, due, line),
        None => is_valued(alloc, due, line, reply.values.as_slice()),
    }
}

// The line of a run.
fn due_line(alloc: Global, program: &Program, reply: LineReply<'_>) -> Result<Vec<u8>, ServeFault>
    requires { FitsReply (program_of program.now) reply }
    ensures { IfOk result (λ line. line.items ≡ reply_line (program_of program.now) reply.entry) }
{
    let mut line = Noted::new(Vec::new(alloc));
    PlainReplies.write_reply(alloc, program, reply, &mut line)?;
    Ok(line.into_inner())
}

// The reply with the names of this text.
fn composed(
    alloc: Global,
    text: &ProgramText,
    reply: LineReply<'_>,
) -> Result<NamedReply, AllocError> {
    match reply {
        LineReply::Said(call, said) => named_reply(alloc, text, call, said),
        LineReply::Refused(refusal) => named_refusal(alloc, text, refusal),
    }
}

// What is shown for a reply with the names of this text. None if it does not read back, or if memory runs out: then the line of a run is.
fn shown_line(
    alloc: Global,
    program: &Program,
    text: &ProgramText,
    reply: LineReply<'_>,
) -> Option<Vec<u8>>
    requires { FitsReply (program_of program.now) reply }
    ensures { IfSome result (λ line. named (reply_line (program_of program.now) reply.entry) line.items) }
{
    let due = due_line(alloc, program, reply).ok()?;
    let shown = composed(alloc, text, reply).ok()?;
    match is_shown(alloc, due.as_slice(), &shown) {
        Ok(true) => Some(shown.line),
        Ok(false) | Err(_) => None,
    }
}

impl ReplyForm for NamedReplies<'_> {
    ghost Shows = { λ form. showing (is_some form.text) };

    fn write_reply<W: Sink>(
        &self,
        alloc: Global,
        program: &Program,
        reply: LineReply<'_>,
        writer: &mut W,
    ) -> Result<(), ServeFault> {
        if let Some(text) = self.text {
            if let Some(line) = shown_line(alloc, program, text, reply) {
                return write_whole(writer, line.as_slice());
            }
        }
        PlainReplies.write_reply(alloc, program, reply, writer)
    }
}
