//! One line of a session.

ghost use Rattle.std.specs.Prelude.{◌≡◌, ◌<◌, ◌≤◌, ℕ, List, [], Ok, Some, false, IfOk, IfErr, IfSome};
ghost use Rattle.std.specs.Option.{option_map};
ghost use Rattle.dbg_base.specs.declared.limits.TheConstants.{SEATS};
ghost use Rattle.dbg_base.specs.Journals.{IsLegal, Entry};
ghost use Rattle.dbg_base.specs.Fits.{FitsRefusal};
ghost use Rattle.dbg_base.specs.Replies.{reply_text, refusal_text};
ghost use Rattle.dbg_base.specs.Shell.{as_line};
ghost use Rattle.shell_parse.specs.Lines.{IsParsed, IsGivable, IsLineGivable, IsLineRefusal};
ghost use Rattle.shell_print.specs.Writing.{Writes};
ghost use Rattle.shell_print.specs.declared.outcome.ServeFault.TheVariants.{Write};
ghost use Rattle.shell_serve.specs.Answering.{IsMaker, AreAllSeats, IsLast, HasLast, answer_of, is_end};
ghost use Rattle.shell_serve.specs.Sessions.{MayBeQuiet, IsExplained, IsSeated, WritesForm, WritesLine, WritesReply, ends_session};

use crate::observer::{LineReply, Observer};
use crate::reply_form::ReplyForm;
use crate::session::answer;
use crate::source::Answer;
use dbg_base::{Refusal, Said};
use dbg_command::{Command, Givable};
use dbg_desk::{Locked, Run, Seat};
use shell_io::{GivenLine, Sink, Style};
use shell_parse::{Line, parse_line, parse_process_line, parse_seatless_line};
use shell_print::{ServeFault, hand_on, reply_style, set_style};
use std::alloc::Global;

// How a call was answered to which this was said.
fn answer_of(said: &Said) -> Answer
    ensures said { result ≡ answer_of said.now }
    ensures goes_on { is_end result ≡ false }
{
    match said {
        Said::Refused(_) => Answer::Refused,
        Said::Answered(_) => Answer::Accepted,
        Said::Accepted(reply) => match reply.halted {
            Some(_) => Answer::Halted,
            None => Answer::Accepted,
        },
    }
}

// Sets the style of the reply that is written next, if the observer marks replies. There is no answer if no call was entered.
#[inline(always)]
fn mark<T: Observer<N>, N, W: Sink>(
    observer: &T,
    said: Option<&Said>,
    writer: &mut W,
) -> Result<(), ServeFault>
    ensures { Writes (W.seen writer.old) (W.seen writer.new) result [] }
{
    if !observer.marks_replies() {
        return Ok(());
    }
    set_style(said.map_or(Style::Refusal, reply_style), writer)
}

// Writes the reply to the call that was entered last, and the explanation, and flushes them.
fn tell_entered<L: Run, C: Command, T: Observer<N>, F: ReplyForm, N, W: Sink>(
    alloc: Global,
    observer: &mut T,
    form: &F,
    locked: &Locked<L, C>,
    line: &GivenLine<'_, N>,
    writer: &mut W,
) -> Result<Answer, ServeFault>
    requires quiet { MayBeQuiet T.manner (F.Shows form.now) }
    requires last { HasLast L.program locked.now.journal }
    ensures told { (entry : Entry) → IsLast locked.now.journal entry → WritesForm
        (IsExplained T.manner (F.Shows form.now) (as_line (reply_text L.program entry.call entry.said))) (W.seen writer.old) result
        (W.seen writer.new) }
    ensures goes_on { IfOk result (λ answer. is_end answer ≡ false) }
{
    let entry = locked.last_entry();
    mark(observer, Some(&entry.said), writer)?;
    let reply = LineReply::Said(&entry.call, &entry.said);
    form.write_reply(alloc, locked.program(), reply, writer)?;
    let explained = observer.explain(alloc, locked.view(), line, reply, writer);
    hand_on(explained, writer)?;
    Ok(answer_of(&entry.said))
}

// Refuses a line of which no call was entered, explains that, and flushes both.
fn refuse_line<L: Run, C: Command, T: Observer<N>, F: ReplyForm, N, W: Sink>(
    alloc: Global,
    observer: &mut T,
    form: &F,
    locked: &Locked<L, C>,
    line: &GivenLine<'_, N>,
    refusal: &Refusal,
    writer: &mut W,
) -> Result<Answer, ServeFault>
    requires quiet { MayBeQuiet T.manner (F.Shows form.now) }
    requires fits { FitsRefusal L.program refusal.now }
    ensures told { WritesForm (IsExplained T.manner (F.Shows form.now) (as_line (refusal_text L.program refusal.now)))
        (W.seen writer.old) result
        (W.seen writer.new) }
    ensures goes_on { IfOk result (λ answer. is_end answer ≡ false) }
{
    mark(observer, None, writer)?;
    let reply = LineReply::Refused(refusal);
    form.write_reply(alloc, locked.program(), reply, writer)?;
    let explained = observer.explain(alloc, locked.view(), line, reply, writer);
    hand_on(explained, writer)?;
    Ok(Answer::Refused)
}

// Makes the call that a command line asks for.
#[inline(always)]
fn answer_call<
    L: Run,
    C: Command,
    M: Fn(Givable) -> Result<C, Refusal>,
    T: Observer<N>,
    F: ReplyForm,
    N,
    W: Sink,
>(
    alloc: Global,
    make: &M,
    observer: &mut T,
    form: &F,
    locked: &mut Locked<L, C>,
    seats: &mut [Seat<L>],
    line: &GivenLine<'_, N>,
    asked: Line,
    writer: &mut W,
) -> Result<Answer, ServeFault>
    requires makes { (M.IsAlwaysCallable make.now) × IsMaker (M.post make.now) C.IsFresh C.order }
    requires seats { AreAllSeats seats.old }
    requires quiet { MayBeQuiet T.manner (F.Shows form.now) }
    requires seat { (0 < asked.seat) × (asked.seat ≤ SEATS) }
    requires givable { IsGivable asked.call }
    ensures seats { AreAllSeats seats.new }
    ensures goes_on { IfOk result (λ answer. is_end answer ≡ false) }
    ensures answers { (bytes : List ℕ) → IsParsed L.program bytes (Ok (Some asked))
        → WritesReply T.manner (F.Shows form.now) L.program bytes locked.old.journal (W.seen writer.old) result
        (W.seen writer.new) locked.new.journal }
{
    let Line { seat, call } = asked;
    let seat = &mut seats[seat as usize - 1];
    observer.prepare(alloc, locked.view(), &call);
    let entered = answer(locked, alloc, make, seat, call);
    match entered {
        Ok(()) => tell_entered(alloc, observer, form, locked, line, writer),
        Err(refusal) => refuse_line(alloc, observer, form, locked, line, &refusal, writer),
    }
}

// Answers a command line of which this was parsed.
#[inline(always)]
fn answer_parsed<
    L: Run,
    C: Command,
    M: Fn(Givable) -> Result<C, Refusal>,
    T: Observer<N>,
    F: ReplyForm,
    N,
    W: Sink,
>(
    alloc: Global,
    make: &M,
    observer: &mut T,
    form: &F,
    locked: &mut Locked<L, C>,
    seats: &mut [Seat<L>],
    line: &GivenLine<'_, N>,
    parsed: Result<Option<Line>, Refusal>,
    writer: &mut W,
) -> Result<Answer, ServeFault>
    requires makes { (M.IsAlwaysCallable make.now) × IsMaker (M.post make.now) C.IsFresh C.order }
    requires seats { AreAllSeats seats.old }
    requires quiet { MayBeQuiet T.manner (F.Shows form.now) }
    requires fits { IfOk parsed IsLineGivable }
    requires seat { IfOk parsed (λ line. IfSome line (λ asked. (0 < asked.seat) × (asked.seat ≤ SEATS))) }
    requires refuses { (bytes : List ℕ) × IfErr parsed (IsLineRefusal bytes) }
    ensures seats { AreAllSeats seats.new }
    ensures goes_on { IfOk result (λ answer. is_end answer ≡ false) }
    ensures answers { (bytes : List ℕ) → IsParsed L.program bytes parsed
        → WritesReply T.manner (F.Shows form.now) L.program bytes locked.old.journal (W.seen writer.old) result
        (W.seen writer.new) locked.new.journal }
{
    match parsed {
        Ok(Some(asked)) => answer_call(
            alloc, make, observer, form, locked, seats, line, asked, writer,
        ),
        Ok(None) => Ok(Answer::Nothing),
        Err(refusal) => refuse_line(alloc, observer, form, locked, line, &refusal, writer),
    }
}

// Answers a command line. One that names no seat is one of the first seat.
fn answer_command<
    L: Run,
    C: Command,
    M: Fn(Givable) -> Result<C, Refusal>,
    T: Observer<N>,
    F: ReplyForm,
    N,
    W: Sink,
>(
    alloc: Global,
    make: &M,
    observer: &mut T,
    form: &F,
    locked: &mut Locked<L, C>,
    seats: &mut [Seat<L>],
    line: &GivenLine<'_, N>,
    played: &[u8],
    needs_seat: bool,
    writer: &mut W,
) -> Result<Answer, ServeFault>
    requires makes { (M.IsAlwaysCallable make.now) × IsMaker (M.post make.now) C.IsFresh C.order }
    requires seats { AreAllSeats seats.old }
    requires quiet { MayBeQuiet T.manner (F.Shows form.now) }
    requires seated { IsSeated needs_seat played.now (T.manner.seated played.now) }
    ensures seats { AreAllSeats seats.new }
    ensures goes_on { IfOk result (λ answer. is_end answer ≡ false) }
    ensures answers { WritesReply T.manner (F.Shows form.now) L.program (T.manner.seated played.now) locked.old.journal
        (W.seen writer.old) result
        (W.seen writer.new) locked.new.journal }
{
    let parsed = if needs_seat {
        parse_seatless_line(alloc, locked.program(), played)
    } else if let Some(short) = parse_process_line(locked.program(), played) {
        // Most lines are of this kind.
        let asked = short.line();
        return answer_call(
            alloc, make, observer, form, locked, seats, line, asked, writer,
        );
    } else {
        parse_line(alloc, locked.program(), played)
    };
    answer_parsed(
        alloc, make, observer, form, locked, seats, line, parsed, writer,
    )
}

// The answer to a line, which may end the session.
fn ended_if(ends: bool, answer: Answer) -> Answer
    ensures { is_end answer ≡ false → is_end result ≡ ends }
{
    if ends { Answer::Ended } else { answer }
}

/// Answers a line, in this form. The output is flushed before the next line is read.
pub(crate) fn answer_line<
    L: Run,
    C: Command,
    M: Fn(Givable) -> Result<C, Refusal>,
    T: Observer<N>,
    F: ReplyForm,
    N,
    W: Sink,
>(
    alloc: Global,
    make: &M,
    observer: &mut T,
    form: &F,
    locked: &mut Locked<L, C>,
    seats: &mut [Seat<L>],
    line: &GivenLine<'_, N>,
    writer: &mut W,
) -> Result<Answer, ServeFault>
    requires makes { (M.IsAlwaysCallable make.now) × IsMaker (M.post make.now) C.IsFresh C.order }
    requires seats { AreAllSeats seats.old }
    requires quiet { MayBeQuiet T.manner (F.Shows form.now) }
    ensures seats { AreAllSeats seats.new }
    ensures answers { let given = option_map (λ bytes. bytes.now) line.now.played in IsLegal L.program locked.old.journal
        → WritesLine T.manner (F.Shows form.now) L.program given locked.old.journal (W.seen writer.old) result
        (W.seen writer.new) locked.new.journal }
    ensures goes_on { IfOk result (λ answer. is_end answer ≡ ends_session T.manner (option_map (λ bytes. bytes.now) line.now.played)) }
    ensures fault { IfErr result (λ fault. fault ≡ Write) }
{
    observer.before(alloc, line, writer)?;
    let Some(played) = line.played else {
        return refuse_line(
            alloc,
            observer,
            form,
            locked,
            line,
            &Refusal::Memory,
            writer,
        );
    };
    let kind = observer.sort(played);
    if kind.is_directive {
        let answered = observer.direct(alloc, locked.view(), played, writer);
        hand_on(answered, writer)?;
        return Ok(ended_if(kind.ends, Answer::Nothing));
    }
    let answer = answer_command(
        alloc,
        make,
        observer,
        form,
        locked,
        seats,
        line,
        played,
        kind.needs_seat,
        writer,
    )?;
    Ok(ended_if(kind.ends, answer))
}
