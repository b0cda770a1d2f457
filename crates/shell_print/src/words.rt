//! Words that are appended to a text.

ghost use Rattle.std.specs.Prelude.{◌≡◌, ◌<◌, ◌≤◌, ◌+◌, ◌++◌, [], ◌∷◌, length, codes};
ghost use Rattle.std.specs.Fmt.{decimal, signed_decimal};
ghost use Rattle.dbg_base.specs.Replies.{head_text, name_of};
ghost use Rattle.proc_tree.specs.Programs.{program_of};
ghost use Rattle.shell_print.specs.Pieces.{item_text};

use crate::pieces::Item;
use dbg_base::{Head, Name, Pid};
use itoa::Buffer;
use proc_tree::Program;
use shell_io::FixedBuffer;

/// Appends the name of a process.
#[inline]
pub(crate) fn append_process<const ROOM: usize>(
    text: &mut FixedBuffer<ROOM>,
    program: &Program,
    pid: Pid,
)
    requires { length text.old + 32 ≤ ROOM }
    ensures text { text.new ≡ text.old ++ name_of (program_of program.now) pid.0 }
    ensures short { length text.new ≤ length text.old + 32 }
{
    if let Some(name) = program.process_name(pid) {
        text.append(name.bytes());
    }
}

// Appends a digit.
#[inline(always)]
fn append_digit<const ROOM: usize>(text: &mut FixedBuffer<ROOM>, digit: u32)
    requires digit { digit < 10 }
    requires room { length text.old < ROOM }
    ensures { text.new ≡ text.old ++ (48 + digit) ∷ [] }
{
    text.push(b'0' + digit as u8);
}

// Appends a number of two digits.
#[inline(always)]
fn append_two_digits<const ROOM: usize>(text: &mut FixedBuffer<ROOM>, number: u32)
    requires number { (10 ≤ number) × (number < 100) }
    requires room { length text.old + 2 ≤ ROOM }
    ensures text { text.new ≡ text.old ++ decimal number }
    ensures short { length text.new ≤ length text.old + 2 }
{
    append_digit(text, number / 10);
    append_digit(text, number % 10);
}

/// Appends a count. Most counts have at most three digits, which are appended one by one.
#[inline]
pub(crate) fn append_count<const ROOM: usize>(text: &mut FixedBuffer<ROOM>, count: u32)
    requires { length text.old + 40 ≤ ROOM }
    ensures text { text.new ≡ text.old ++ decimal count }
    ensures short { length text.new ≤ length text.old + 40 }
{
    if count < 10 {
        append_digit(text, count);
        return;
    }
    if count < 100 {
        append_two_digits(text, count);
        return;
    }
    if count < 1_000 {
        append_two_digits(text, count / 10);
        append_digit(text, count % 10);
        return;
    }
    text.append(Buffer::new().format(count).as_bytes());
}

/// Appends a number.
pub(crate) fn append_number<const ROOM: usize>(text: &mut FixedBuffer<ROOM>, number: i64)
    requires { length text.old + 40 ≤ ROOM }
    ensures { text.new ≡ text.old ++ signed_decimal number }
{
    text.append(Buffer::new().format(number).as_bytes());
}

/// Appends a component of a frontier.
#[inline(always)]
pub(crate) fn append_head<const ROOM: usize>(text: &mut FixedBuffer<ROOM>, head: Head)
    requires { length text.old + 40 ≤ ROOM }
    ensures { text.new ≡ text.old ++ head_text head }
{
    match head {
        Head::At(count) => append_count(text, count),
        Head::Past => text.append(b"past"),
    }
}

/// Appends an item.
#[inline(always)]
pub(crate) fn append_item<const ROOM: usize>(text: &mut FixedBuffer<ROOM>, item: &Item<'_>)
    requires { length text.old + 40 ≤ ROOM }
    ensures { text.new ≡ text.old ++ item_text item.now }
{
    match item {
        Item::Term(term) => text.append(term.text()),
        Item::Name(name) => text.append(name.bytes()),
        Item::Process(program, pid) => append_process(text, program, *pid),
        Item::Count(count) => append_count(text, *count),
        Item::Size(size) => text.append(Buffer::new().format(*size).as_bytes()),
        Item::Number(number) => append_number(text, *number),
    }
}

/// Appends a space, a name and a sign.
#[inline(always)]
pub(crate) fn append_name<const ROOM: usize>(text: &mut FixedBuffer<ROOM>, name: &Name, sign: u8)
    requires { length text.old + 40 ≤ ROOM }
    ensures text { text.new ≡ text.old ++ (codes " " ++ name.now ++ (sign ∷ [])) }
    ensures short { length text.new ≤ length text.old + 40 }
{
    text.push(b' ');
    text.append(name.bytes());
    text.push(sign);
}
