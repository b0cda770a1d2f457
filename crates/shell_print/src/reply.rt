//! The answers of a session as text.

ghost use Rattle.std.specs.Prelude.{◌≡◌, ◌≤◌, ◌+◌, ◌++◌, ◌∷◌, map, length, codes};
ghost use Rattle.std.specs.Option.{option_map};
ghost use Rattle.std.specs.Fmt.{decimal, signed_decimal};
ghost use Rattle.dbg_base.specs.declared.said.Said.TheVariants.{Accepted};
ghost use Rattle.dbg_base.specs.declared.said.Answer.TheVariants.{PlaceOf, CanUndo, CutIs};
ghost use Rattle.dbg_base.specs.Calls as model;
ghost use Rattle.dbg_base.specs.Calls.{call_of, query_of};
ghost use Rattle.dbg_base.specs.Fits.{FitsRefusal, FitsAnswer, FitsCall};
ghost use Rattle.dbg_base.specs.Replies.{joined, spaced, pair_words, name_of, halted_words, carried_words, answer_words, refusal_text, reply_text};
ghost use Rattle.dbg_base.specs.Shell.{as_line};
ghost use Rattle.proc_tree.specs.Programs.{program_of};
ghost use Rattle.shell_print.specs.Writing.{Writes};
ghost use Rattle.shell_print.specs.Questions.{question_of, FitsSaid};
ghost use Rattle.shell_print.specs.declared.reply.TheConstants.{EVENT};
ghost use Rattle.shell_print.specs.Pieces.{item_text, names_in, amount_texts, piece_words};

use crate::outcome::ServeFault;
use crate::parts::{write_line, write_whole};
use crate::pieces::{Amounts, Item, Names, Piece, Term, Words};
use crate::words::{append_count, append_process};
use dbg_base::{Answer, Call, Choice, Cut, Done, Name, Pid, Query, Refusal, Reply, Said};
use proc_tree::Program;
use shell_io::{FixedBuffer, Sink, Style};

// Room for the line of an event: `ok`, a process, a count, `halted` with a breakpoint, and the line end.
const EVENT: usize = 120;

// What a refusal contains besides its number, if anything.
fn carried<'a>(program: &'a Program, refusal: &'a Refusal) -> Piece<'a>
    ensures { piece_words result ≡ carried_words (program_of program.now) refusal.now }
{
    match refusal {
        Refusal::Consequence(pid) => Piece::Item(Item::Process(program, *pid)),
        Refusal::Halted(name) => Piece::Item(Item::Name(name)),
        Refusal::OtherSeat(seat) => Piece::Item(Item::Count(*seat)),
        Refusal::InBatch { at, number } => Piece::Counts(*at, *number),
        _ => Piece::Nothing,
    }
}

// Appends the breakpoint that halts the session, if any.
fn append_halted(text: &mut FixedBuffer<EVENT>, halted: &Option<Name>)
    requires { length text.old + 40 ≤ EVENT }
    ensures text { text.new ≡ text.old ++ spaced (halted_words halted.now) }
    ensures short { length text.new ≤ length text.old + 40 }
{
    if let Some(name) = halted {
        text.append(b" halted ");
        text.append(name.bytes());
    }
}

// Writes the line for an event that a command made or undid. Most replies are such lines. The words are appended to the text one by one,
// which takes less time than a list of pieces.
fn print_event<'a, W: Sink>(
    program: &'a Program,
    pid: Pid,
    choice: Choice,
    halted: &'a Option<Name>,
    writer: &mut W,
) -> Result<(), ServeFault>
    ensures { Writes (W.seen writer.old) (W.seen writer.new) result
        (as_line (joined (codes "ok" ∷ name_of (program_of program.now) pid.0 ∷ decimal choice.0 ∷ halted_words halted.now))) }
{
    let mut text: FixedBuffer<EVENT> = FixedBuffer::new();
    text.append(b"ok ");
    append_process(&mut text, program, pid);
    text.push(b' ');
    append_count(&mut text, choice.0);
    append_halted(&mut text, halted);
    text.push(b'\n');
    write_whole(writer, text.bytes())
}

// Writes the line for an accepted command.
fn print_accepted<'a, W: Sink>(
    program: &'a Program,
    reply: &'a Reply,
    writer: &mut W,
) -> Result<(), ServeFault>
    ensures { (call : model.Call) → Writes (W.seen writer.old) (W.seen writer.new) result
        (as_line (reply_text (program_of program.now) call (Accepted reply.now))) }
{
    match &reply.done {
        Done::Played(pid, choice) | Done::Undone(pid, choice) => {
            print_event(program, *pid, *choice, &reply.halted, writer)
        }
        Done::Places(cut) => {
            let places = Piece::Pairs(Names::Processes(program), Amounts::Counts(cut.counts()));
            write_line(b"ok", &[places, Piece::Halted(&reply.halted)], writer)
        }
        Done::Plain => write_line(b"ok", &[Piece::Halted(&reply.halted)], writer),
    }
}

// Writes the line with a process's place and the length of its line.
fn print_place<W: Sink>(
    program: &Program,
    pid: Pid,
    at: u32,
    line: u32,
    writer: &mut W,
) -> Result<(), ServeFault>
    ensures { Writes (W.seen writer.old) (W.seen writer.new) result
        (as_line (joined (answer_words (program_of program.now) (model.Place pid.0) (PlaceOf at line)))) }
{
    let pieces = [
        Piece::Item(Item::Process(program, pid)),
        Piece::Item(Item::Count(at)),
        Piece::Item(Item::Term(Term::Of)),
        Piece::Item(Item::Count(line)),
    ];
    write_line(b"place", &pieces, writer)
}

// Writes the line that says whether a process's last event may be undone.
fn print_can<'a, W: Sink>(
    program: &'a Program,
    pid: Pid,
    outcome: &'a Result<(), Refusal>,
    writer: &mut W,
) -> Result<(), ServeFault>
    ensures { Writes (W.seen writer.old) (W.seen writer.new) result
        (as_line (joined (answer_words (program_of program.now) (model.Can pid.0) (CanUndo outcome.now)))) }
{
    let name = Piece::Item(Item::Process(program, pid));
    match outcome {
        Ok(()) => {
            let yes = Piece::Item(Item::Term(Term::Yes));
            write_line(b"can", &[name, yes], writer)
        }
        Err(refusal) => {
            let no = Piece::Item(Item::Term(Term::No));
            let number = Piece::Item(Item::Count(refusal.number()));
            let carried = carried(program, refusal);
            write_line(b"can", &[name, no, number, carried], writer)
        }
    }
}

// Writes a line with names and their values.
fn print_pairs<'a, W: Sink>(
    first: &[u8],
    name: Item<'a>,
    names: Names<'a>,
    amounts: Amounts<'a>,
    writer: &mut W,
) -> Result<(), ServeFault>
    requires { length first.now ≤ 40 }
    ensures { Writes (W.seen writer.old) (W.seen writer.new) result
        (as_line (joined (first.now ∷ item_text name.entry ∷ pair_words (names_in names.entry) (amount_texts amounts.entry)))) }
{
    write_line(
        first,
        &[Piece::Item(name), Piece::Pairs(names, amounts)],
        writer,
    )
}

// Writes the line with the messages from one process to another.
fn print_chan<W: Sink>(
    program: &Program,
    source: Pid,
    target: Pid,
    messages: &[i64],
    writer: &mut W,
) -> Result<(), ServeFault>
    ensures { Writes (W.seen writer.old) (W.seen writer.new) result
        (as_line (joined (codes "chan" ∷ name_of (program_of program.now) source.0 ∷ name_of (program_of program.now) target.0
        ∷ map signed_decimal messages.now))) }
{
    let source = Item::Process(program, source);
    let target = Item::Process(program, target);
    let messages = Piece::Words(Words::Numbers(messages));
    write_line(
        b"chan",
        &[Piece::Item(source), Piece::Item(target), messages],
        writer,
    )
}

// Writes the line with a breakpoint's cut, if it has one.
fn print_cut<'a, W: Sink>(
    program: &'a Program,
    name: &'a Name,
    cut: &'a Option<Cut>,
    writer: &mut W,
) -> Result<(), ServeFault>
    ensures { Writes (W.seen writer.old) (W.seen writer.new) result
        (as_line (joined (answer_words (program_of program.now) (model.CutOf name.now) (CutIs cut.now)))) }
{
    let name = Item::Name(name);
    match cut {
        Some(cut) => {
            let counts = Amounts::Counts(cut.counts());
            print_pairs(b"cut", name, Names::Processes(program), counts, writer)
        }
        None => {
            let none = Item::Term(Term::None);
            write_line(b"cut", &[Piece::Item(name), Piece::Item(none)], writer)
        }
    }
}

// Writes the line that answers a query.
fn print_answer<'a, W: Sink>(
    program: &'a Program,
    query: &'a Query,
    answer: &'a Answer,
    writer: &mut W,
) -> Result<(), ServeFault>
    requires { FitsAnswer (program_of program.now) (query_of query.now) answer.now }
    ensures { Writes (W.seen writer.old) (W.seen writer.new) result
        (as_line (joined (answer_words (program_of program.now) (query_of query.now) answer.now))) }
{
    match (query, answer) {
        (Query::Vars(pid), Answer::Values(values)) => {
            let name = Item::Process(program, *pid);
            let values = Amounts::Numbers(values.items());
            print_pairs(
                b"vars",
                name,
                Names::Variables(program, *pid),
                values,
                writer,
            )
        }
        (Query::Chan(source, target), Answer::Messages(messages)) => {
            print_chan(program, *source, *target, messages.items(), writer)
        }
        (Query::Clock(pid), Answer::Counts(cut)) => {
            let name = Item::Process(program, *pid);
            let counts = Amounts::Counts(cut.counts());
            print_pairs(b"clock", name, Names::Processes(program), counts, writer)
        }
        (Query::Place(pid), Answer::PlaceOf { at, line }) => print_place(
            program, *pid, *at, *line, writer,
        ),
        (Query::Can(pid), Answer::CanUndo(outcome)) => print_can(program, *pid, outcome, writer),
        (Query::CutOf(name), Answer::CutIs(cut)) => print_cut(program, name, cut, writer),
        (Query::Why(name), Answer::Frontier(heads)) => {
            let heads = Amounts::Heads(heads.items());
            print_pairs(
                b"why",
                Item::Name(name),
                Names::Processes(program),
                heads,
                writer,
            )
        }
        (Query::Breaks, Answer::Marks(marks)) => {
            write_line(
                b"breaks",
                &[Piece::Words(Words::Marks(marks.items()))],
                writer,
            )
        }
        _ => unreachable!(),
    }
}

// Writes the line that refuses a call or a command line.
fn print_no<'a, W: Sink>(
    program: &'a Program,
    refusal: &'a Refusal,
    writer: &mut W,
) -> Result<(), ServeFault>
    ensures { Writes (W.seen writer.old) (W.seen writer.new) result (as_line (refusal_text (program_of program.now) refusal.now)) }
{
    let number = Item::Count(refusal.number());
    let carried = carried(program, refusal);
    write_line(b"no", &[Piece::Item(number), carried], writer)
}

/// The question of a call that asks one.
pub fn question(call: &Call) -> Option<Query>
    ensures { option_map query_of result ≡ question_of (call_of call.now) }
{
    match call {
        Call::Ask(query) => Some(*query),
        Call::Give(_) | Call::Back => None,
    }
}

/// Writes the line that says what came of a command, or of this question, with its line end. A command is accepted and a question is
/// answered, with values that the program has. No memory is allocated. If the writer fails, or takes no byte, it has a prefix of the line,
/// and nothing is tried again.
pub fn print_said<W: Sink>(
    program: &Program,
    question: &Option<Query>,
    said: &Said,
    writer: &mut W,
) -> Result<(), ServeFault>
    requires { FitsSaid (program_of program.now) (option_map query_of question.now) said.now }
    ensures { (call : model.Call) → question_of call ≡ option_map query_of question.now → Writes (W.seen writer.old) (W.seen writer.new)
        result (as_line (reply_text (program_of program.now) call said.now)) }
{
    match (question, said) {
        (None, Said::Accepted(reply)) => print_accepted(program, reply, writer),
        (Some(query), Said::Answered(answer)) => print_answer(program, query, answer, writer),
        (_, Said::Refused(refusal)) => print_no(program, refusal, writer),
        _ => unreachable!(),
    }
}

/// Writes the line that answers a call. For the rest it is as `print_said`.
pub fn print_reply<W: Sink>(
    program: &Program,
    call: &Call,
    said: &Said,
    writer: &mut W,
) -> Result<(), ServeFault>
    requires { FitsCall (program_of program.now) (call_of call.now) said.now }
    ensures { Writes (W.seen writer.old) (W.seen writer.new) result
        (as_line (reply_text (program_of program.now) (call_of call.now) said.now)) }
{
    print_said(program, &question(call), said, writer)
}

/// The style of the line that answers a call.
pub fn reply_style(said: &Said) -> Style {
    match said {
        Said::Refused(_) => Style::Refusal,
        Said::Accepted(reply) => match reply.halted {
            Some(name) => Style::Halted("halted ".len().saturating_add(name.bytes().len())),
            None => Style::Plain,
        },
        Said::Answered(_) => Style::Plain,
    }
}

/// Writes the line that refuses a command line, with its line end. Failures are as for `print_reply`.
pub fn print_refusal<W: Sink>(
    program: &Program,
    refusal: &Refusal,
    writer: &mut W,
) -> Result<(), ServeFault>
    requires { FitsRefusal (program_of program.now) refusal.now }
    ensures { Writes (W.seen writer.old) (W.seen writer.new) result (as_line (refusal_text (program_of program.now) refusal.now)) }
{
    print_no(program, refusal, writer)
}
