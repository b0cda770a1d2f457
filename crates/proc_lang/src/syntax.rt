//! A parsed program: its names are not looked up yet, and all that a fault may name has its offset.

use crate::token::Magnitude;
use dbg_base::{Direction, Name, Operator};

/// A name with its offset.
#[derive(Clone, Copy)]
pub(crate) struct Named {
    pub(crate) at: usize,
    pub(crate) name: Name,
}

/// An expression, with the offset of each part.
#[derive(Drop)]
pub(crate) enum Phrase {
    Number(usize, Magnitude),
    Name(usize, Name),
    Truth(usize, bool),
    Count(usize, Direction, Named),
    Not(usize, Box<Phrase>),
    Negate(usize, Box<Phrase>),
    Binary(usize, Operator, Box<Phrase>, Box<Phrase>),
}

#[derive(Clone, Copy)]
pub(crate) struct WrittenVariable {
    pub(crate) name: Named,
    pub(crate) start: i64,
}

#[derive(Drop)]
pub(crate) enum WrittenAction {
    Local,
    Send(Named, Phrase),
    Receive(Named, Named),
}

#[derive(Drop)]
pub(crate) struct WrittenAssignment {
    pub(crate) variable: Named,
    pub(crate) value: Phrase,
}

/// A command, with the offset of its word `when`.
#[derive(Drop)]
pub(crate) struct WrittenCommand {
    pub(crate) at: usize,
    pub(crate) guard: Phrase,
    pub(crate) action: WrittenAction,
    pub(crate) assignments: Vec<WrittenAssignment>,
}

#[derive(Drop)]
pub(crate) struct WrittenProcess {
    pub(crate) name: Named,
    pub(crate) variables: Vec<WrittenVariable>,
    pub(crate) commands: Vec<WrittenCommand>,
}
