//! Single commands: a command word with its arguments.
//!
//! The functions that every line goes through are inlined, except the two that make most calls: `call_with` and `call_with_two`. If these
//! were inlined too, the calls of all command words would be put together field by field in one place, which takes longer.

ghost use Rattle.std.specs.Prelude.{◌≡◌, ℕ, List, ◌∷◌, [], Result, Ok, Err, IfSome, MatchOption};
ghost use Rattle.dbg_base.specs.declared.call.Call.TheVariants.{Give, Ask};
ghost use Rattle.std.specs.Option.{option_map};
ghost use Rattle.dbg_base.specs.Calls.{call_of};
ghost use Rattle.dbg_base.specs.CommandLines.{words_of, map_ok, process_call, break_call, step_call, rollback_call, chan_call, lone_call};
ghost use Rattle.dbg_base.specs.CommandLines.{call_of_words, with_word, name_word, next_word, after_word};
ghost use Rattle.dbg_base.specs.Trees as model;
ghost use Rattle.dbg_base.specs.declared.refusal.Refusal.{Refusal};
ghost use Rattle.dbg_base.specs.declared.refusal.Refusal.TheVariants.{BadLine};
ghost use Rattle.proc_tree.specs.Programs.{program_of};
ghost use Rattle.shell_parse.specs.Lines.{IsOneParsed, has_shape};
ghost use Rattle.shell_parse.specs.Words.{process_spelling, plan_word_call, query_word_call, process_word_call, call_by_process, break_word_call};

use crate::break_line::{is_break, parse_break};
use crate::words::{
    first_word, name_bytes, name_word, named_process, next_word, number_word, process_word,
};
use dbg_base::{Call, Choice, Name, Pid, Plan, Query, Refusal};
use proc_tree::Program;
use std::alloc::Global;

/// The word of a command that names a process.
#[derive(Clone, Copy)]
pub enum PlanWord {
    Next,
    Undo,
    Redo,
}

impl PlanWord {
    /// The command of the word for this process.
    #[inline(always)]
    pub(crate) fn plan(self, process: Pid) -> Plan
        ensures { call_of (Give result) ≡ plan_word_call self process.0 }
    {
        match self {
            PlanWord::Next => Plan::Next(process),
            PlanWord::Undo => Plan::Undo(process),
            PlanWord::Redo => Plan::Redo(process),
        }
    }
}

/// The word of a query that names a process.
#[derive(Clone, Copy)]
pub enum QueryWord {
    Vars,
    Clock,
    Place,
    Can,
}

impl QueryWord {
    /// The query of the word for this process.
    #[inline(always)]
    pub(crate) fn query(self, process: Pid) -> Query
        ensures { call_of (Ask result) ≡ query_word_call self process.0 }
    {
        match self {
            QueryWord::Vars => Query::Vars(process),
            QueryWord::Clock => Query::Clock(process),
            QueryWord::Place => Query::Place(process),
            QueryWord::Can => Query::Can(process),
        }
    }
}

/// A command word about a process.
#[derive(Clone, Copy)]
pub enum ProcessWord {
    Plan(PlanWord),
    Query(QueryWord),
}

impl ProcessWord {
    /// The command word of these bytes, if they are one.
    #[inline(always)]
    pub(crate) fn read(word: &[u8]) -> Option<ProcessWord>
        ensures call { (process : Result ℕ Refusal) → process_call word.now process ≡ call_by_process result process }
        ensures spelling { IfSome result (λ known. word.now ≡ process_spelling known) }
    {
        match word {
            b"next" => Some(ProcessWord::Plan(PlanWord::Next)),
            b"undo" => Some(ProcessWord::Plan(PlanWord::Undo)),
            b"redo" => Some(ProcessWord::Plan(PlanWord::Redo)),
            b"vars" => Some(ProcessWord::Query(QueryWord::Vars)),
            b"clock" => Some(ProcessWord::Query(QueryWord::Clock)),
            b"place" => Some(ProcessWord::Query(QueryWord::Place)),
            b"can" => Some(ProcessWord::Query(QueryWord::Can)),
            _ => None,
        }
    }

    /// The call of the word for this process.
    #[inline(always)]
    pub(crate) fn call(self, process: Pid) -> Call
        ensures { call_of result ≡ process_word_call self process.0 }
    {
        match self {
            ProcessWord::Plan(word) => Call::Give(word.plan(process)),
            ProcessWord::Query(word) => Call::Ask(word.query(process)),
        }
    }
}

// A command word about a breakpoint.
#[derive(Clone, Copy)]
enum BreakWord {
    Goto,
    Clear,
    Arm,
    Pass,
    Cut,
    Why,
}

impl BreakWord {
    // The command word of these bytes, if they are one.
    #[inline(always)]
    fn read(word: &[u8]) -> Option<BreakWord>
        ensures { (name : List ℕ) → break_call word.now name ≡ option_map (λ word. break_word_call word name) result }
    {
        match word {
            b"goto" => Some(BreakWord::Goto),
            b"clear" => Some(BreakWord::Clear),
            b"arm" => Some(BreakWord::Arm),
            b"pass" => Some(BreakWord::Pass),
            b"cut" => Some(BreakWord::Cut),
            b"why" => Some(BreakWord::Why),
            _ => None,
        }
    }

    // The call of the word for this breakpoint.
    #[inline(always)]
    fn call(self, name: Name) -> Call
        ensures { call_of result ≡ break_word_call self name }
    {
        match self {
            BreakWord::Goto => Call::Give(Plan::Goto(name)),
            BreakWord::Clear => Call::Give(Plan::Clear(name)),
            BreakWord::Arm => Call::Give(Plan::Arm(name)),
            BreakWord::Pass => Call::Give(Plan::Pass(name)),
            BreakWord::Cut => Call::Ask(Query::CutOf(name)),
            BreakWord::Why => Call::Ask(Query::Why(name)),
        }
    }
}

// `step`: the call that makes the process fire this command.
#[inline(always)]
fn step_call(program: &Program, process: &[u8], choice: &[u8]) -> Result<Call, Refusal>
    ensures { map_ok call_of result ≡ with_word (name_word process.now)
        (λ name. step_call (program_of program.now) name choice.now) }
{
    let Some(choice) = number_word(choice) else {
        return Err(Refusal::BadLine);
    };
    let pid = process_word(program, process)?;
    Ok(Call::Give(Plan::Step(pid, Choice(choice))))
}

// `rollback`: the call that takes the process back to this count of events.
#[inline(always)]
fn rollback_call(program: &Program, process: &[u8], place: &[u8]) -> Result<Call, Refusal>
    ensures { map_ok call_of result ≡ with_word (name_word process.now)
        (λ name. rollback_call (program_of program.now) name place.now) }
{
    let Some(place) = number_word(place) else {
        return Err(Refusal::BadLine);
    };
    let pid = process_word(program, process)?;
    Ok(Call::Give(Plan::Rollback(pid, place)))
}

// `chan`: the call that asks for the messages between two processes.
#[inline(always)]
fn chan_call(program: &Program, source: &[u8], target: &[u8]) -> Result<Call, Refusal>
    ensures { map_ok call_of result ≡ with_word (name_word source.now)
        (λ name. chan_call (program_of program.now) name target.now) }
{
    let Some(target) = name_bytes(target) else {
        return Err(Refusal::BadLine);
    };
    let source = process_word(program, source)?;
    let target = named_process(program, target)?;
    Ok(Call::Ask(Query::Chan(source, target)))
}

// The call of a command word without arguments.
#[inline(always)]
fn lone_call(word: &[u8]) -> Result<Call, Refusal>
    ensures { map_ok call_of result ≡ lone_call word.now }
{
    if word == b"back".as_slice() {
        Ok(Call::Back)
    } else if word == b"breaks".as_slice() {
        Ok(Call::Ask(Query::Breaks))
    } else {
        Err(Refusal::BadLine)
    }
}

// The only word, or None if there is none, or more than one.
#[inline(always)]
fn only_word(bytes: &[u8]) -> Option<&[u8]>
    ensures { MatchOption result ((P : model.Program) (word : ProcessWord) → call_of_words P (process_spelling word) (words_of bytes.now) ≡ Err BadLine)
        (λ found. words_of bytes.now ≡ found.now ∷ []) }
{
    let (word, rest) = first_word(bytes)?;
    if first_word(rest).is_some() {
        return None;
    }
    Some(word)
}

/// The process that is named by the only word, or None if there is no such word or process. It does not allocate.
#[inline(always)]
pub(crate) fn only_process(program: &Program, bytes: &[u8]) -> Option<Pid>
    ensures { IfSome result (λ process. (word : ProcessWord)
        → call_of_words (program_of program.now) (process_spelling word) (words_of bytes.now) ≡ Ok (process_word_call word process.0)) }
{
    let name = name_bytes(only_word(bytes)?)?;
    program.find_process_by(name)
}

// The call of a command word about a process, from the bytes after the word.
fn process_call(program: &Program, word: ProcessWord, bytes: &[u8]) -> Result<Call, Refusal>
    ensures { map_ok call_of result ≡ call_of_words (program_of program.now) (process_spelling word) (words_of bytes.now) }
{
    let Some(name) = only_word(bytes) else {
        return Err(Refusal::BadLine);
    };
    let process = process_word(program, name)?;
    Ok(word.call(process))
}

// The call of a command word with one argument, if the word is not about a process.
#[inline(never)]
fn call_with(word: &[u8], argument: &[u8]) -> Result<Call, Refusal>
    requires { (process : Result ℕ Refusal) → process_call word.now process ≡ Err BadLine }
    ensures { (P : model.Program) → map_ok call_of result ≡ call_of_words P word.now (argument.now ∷ []) }
{
    let Some(word) = BreakWord::read(word) else {
        return Err(Refusal::BadLine);
    };
    match name_word(argument) {
        Some(name) => Ok(word.call(name)),
        None => Err(Refusal::BadLine),
    }
}

// The call of a command word with two arguments.
#[inline(never)]
fn call_with_two(
    program: &Program,
    word: &[u8],
    first: &[u8],
    second: &[u8],
) -> Result<Call, Refusal>
    ensures { map_ok call_of result ≡ call_of_words (program_of program.now) word.now (first.now ∷ second.now ∷ []) }
{
    if word == b"step".as_slice() {
        step_call(program, first, second)
    } else if word == b"rollback".as_slice() {
        rollback_call(program, first, second)
    } else if word == b"chan".as_slice() {
        chan_call(program, first, second)
    } else {
        Err(Refusal::BadLine)
    }
}

/// The call of a command word and the words after it. It does not allocate.
#[inline(always)]
pub(crate) fn parse_words(program: &Program, word: &[u8], bytes: &[u8]) -> Result<Call, Refusal>
    ensures { map_ok call_of result ≡ call_of_words (program_of program.now) word.now (words_of bytes.now) }
{
    if let Some(word) = ProcessWord::read(word) {
        return process_call(program, word, bytes);
    }
    let Some((first, rest)) = first_word(bytes) else {
        return lone_call(word);
    };
    let Some((second, rest)) = first_word(rest) else {
        return call_with(word, first);
    };
    match first_word(rest) {
        None => call_with_two(program, word, first, second),
        Some(_) => Err(Refusal::BadLine),
    }
}

/// Parses a single command.
pub(crate) fn parse_one(alloc: Global, program: &Program, bytes: &[u8]) -> Result<Call, Refusal>
    ensures { IsOneParsed (program_of program.now) bytes.now result }
{
    let (word, rest) = next_word(bytes);
    if word == b"break".as_slice() {
        return parse_break(alloc, program, rest);
    }
    parse_words(program, word, rest)
}

/// Whether the command has the shape of one that may be in a batch, whatever it names. It does not allocate.
pub(crate) fn has_shape(program: &Program, bytes: &[u8]) -> bool
    ensures { result ≡ has_shape (program_of program.now) bytes.now }
{
    let (word, rest) = next_word(bytes);
    if word == b"break".as_slice() {
        return is_break(rest);
    }
    match parse_words(program, word, rest) {
        Ok(Call::Give(plan)) => !plan.is_batch(),
        Ok(Call::Back | Call::Ask(_)) => false,
        Err(refusal) => !matches!(refusal, Refusal::BadLine),
    }
}
