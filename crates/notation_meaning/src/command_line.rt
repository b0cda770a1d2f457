//! What a command line is read as: which of its bytes are replaced, and by what.

use dbg_base::Name;
use notation_tree::syntax::{Binder, Expression, Reference};

/// What replaces some bytes of a line.
#[derive(Drop)]
pub enum Meant {
    /// A name with indices. It is the name of the process to which the next pieces belong.
    Name(Reference),
    /// A command of the last process, by its label, or else by a number that is computed, or else a word.
    Label(Reference, Option<Expression>),
    /// A number that is computed.
    Number(Expression),
    /// A predicate over the last process, for each declaration that may have made this process.
    Predicate(Vec<Reading>),
}

/// A predicate over the processes of a declaration, or over a process that no declaration has made.
#[derive(Drop)]
pub struct Reading {
    pub declaration: Option<usize>,
    pub expression: Expression,
}

/// The bytes of a line from one offset to another, and what replaces them.
#[derive(Drop)]
pub struct LinePiece {
    pub from: usize,
    pub to: usize,
    pub meant: Meant,
}

/// Bytes of a line with their pieces, in order, for each member of ranges; once, if there are no ranges. With the ranges before them they
/// are from `from` to `to`, without these from `start` on.
#[derive(Drop)]
pub struct Segment {
    pub from: usize,
    pub start: usize,
    pub to: usize,
    pub ranges: Vec<Binder>,
    pub pieces: Vec<LinePiece>,
}

/// A line: the ranges before it, its segments in order, and the names of the members of its ranges and forms.
#[derive(Drop)]
pub struct CommandLine {
    pub ranges: Vec<Binder>,
    pub segments: Vec<Segment>,
    pub members: Vec<Name>,
}

impl CommandLine {
    /// No line.
    pub fn new(alloc: std::alloc::Global) -> CommandLine {
        CommandLine {
            ranges: Vec::new(alloc),
            segments: Vec::new(alloc),
            members: Vec::new(alloc),
        }
    }
}
