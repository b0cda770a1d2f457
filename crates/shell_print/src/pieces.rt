//! The pieces of which a line is composed.

ghost use Rattle.std.specs.Prelude.{◌≡◌, ◌≤◌, length};
ghost use Rattle.shell_print.specs.Pieces.{term_text};

use dbg_base::{Head, Name, Pid};
use proc_tree::Program;

/// A fixed word of a line.
#[derive(Clone, Copy)]
pub(crate) enum Term {
    At,
    Commands,
    Halted,
    No,
    None,
    Of,
    Off,
    On,
    Past,
    Processes,
    Yes,
}

impl Term {
    /// Its bytes.
    pub(crate) fn text(self) -> &'static [u8]
        ensures text { result.now ≡ term_text self }
        ensures short { length result.now ≤ 40 }
    {
        match self {
            Term::At => b"at",
            Term::Commands => b"commands",
            Term::Halted => b"halted",
            Term::No => b"no",
            Term::None => b"none",
            Term::Of => b"of",
            Term::Off => b"off",
            Term::On => b"on",
            Term::Past => b"past",
            Term::Processes => b"processes",
            Term::Yes => b"yes",
        }
    }
}

/// The content of a word.
#[derive(Clone, Copy)]
pub(crate) enum Item<'a> {
    Term(Term),
    Name(&'a Name),
    /// The name of a process.
    Process(&'a Program, Pid),
    Count(u32),
    Size(usize),
    Number(i64),
}

/// Words of one kind.
#[derive(Clone, Copy)]
pub(crate) enum Words<'a> {
    Numbers(&'a [i64]),
    /// Breakpoints, each with its mark.
    Marks(&'a [(Name, bool)]),
}

/// Names of a program, in order.
#[derive(Clone, Copy)]
pub(crate) enum Names<'a> {
    Processes(&'a Program),
    /// The names of the variables of a process.
    Variables(&'a Program, Pid),
}

/// The values for some names, in order.
#[derive(Clone, Copy)]
pub(crate) enum Amounts<'a> {
    Counts(&'a [u32]),
    Numbers(&'a [i64]),
    /// Components of a frontier.
    Heads(&'a [Head]),
}

/// A part of a line.
#[derive(Clone, Copy)]
pub(crate) enum Piece<'a> {
    /// One word.
    Item(Item<'a>),
    /// Two counts.
    Counts(u32, u32),
    /// No word.
    Nothing,
    /// Each of these.
    Words(Words<'a>),
    /// Names, each with its value.
    Pairs(Names<'a>, Amounts<'a>),
    /// The breakpoint that halts the session, if any.
    Halted(&'a Option<Name>),
}
