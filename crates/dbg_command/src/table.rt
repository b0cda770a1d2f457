//! The table, and which breakpoint halts it.

ghost use Rattle.std.specs.Prelude.{◌≡◌, ◌<◌, ◌≤◌, length, IfOk, IfErr, OnOk, None};
ghost use Rattle.dbg_base.specs.declared.refusal.Refusal.TheVariants.{Memory};
ghost use Rattle.dbg_base.specs.Trees as tree;
ghost use Rattle.dbg_base.specs.Copies.{IsCopy};
ghost use Rattle.dbg_base.specs.declared.limits.TheConstants.{BREAKPOINTS};
ghost use Rattle.dbg_base.specs.ModelStates.{opening, IsHalted, IsHaltPlace};
ghost use Rattle.proc_tree.specs.Programs.{program_of};
ghost use Rattle.break_book.specs.Books.{breakpoints_of, shown_of};
ghost use Rattle.dbg_command.specs.Boxes.{HasNamed};
ghost use Rattle.dbg_command.specs.Tables.{IsTableOf, IsReady, Unready, UnknownIn, HaltedAt, Replies, shown, state_of, IsCutOf};

use break_book::Book;
use causal_world::World;
use dbg_base::{Cut, Done, Name, Pid, Refusal, Reply};
use proc_tree::Program;
use std::alloc::Global;
use std::marker::Model;

/// A world and the breakpoints in it. Their detectors follow the world. Contracts see these two.
pub struct Table {
    pub(crate) world: World,
    pub(crate) book: Book,
}

impl Drop for Table {
    fn drop(self) {
        let Self { world, book } = self;
    }
}

impl Model for Table {
    ghost use Rattle.least_cut.specs.TreeCodes.{coded_tree};
    ghost use Rattle.std.specs.Coded.{codes};
    ghost use Rattle.dbg_command.specs.Tables.{TableState};

    ghost Value = { TableState };

    ghost coded = { Prim.hlevel (codes, coded_tree) };

    ghost view = { λ table. record { world = table.world; book = table.book } };
}

// Refuses a process that the program does not have.
pub(crate) fn known(program: &Program, pid: Pid) -> Result<(), Refusal>
    ensures here { OnOk result (pid.0 < length (program_of program.now)) }
    ensures none { IfErr result (UnknownIn (program_of program.now) pid.0) }
{
    if pid.0 < program.processes() {
        Ok(())
    } else {
        Err(Refusal::UnknownProcess)
    }
}

impl Table {
    /// The table of a program at its start: empty lines, initial values, no messages, no breakpoints. Error: `Memory`, if an allocation
    /// fails.
    pub fn new(alloc: Global, program: &Program) -> Result<Table, Refusal>
        ensures of { IfOk result (IsTableOf (program_of program.now)) }
        ensures opens { IfOk result (λ table. state_of table ≡ opening (program_of program.now)) }
        ensures refuses { IfErr result (λ refusal. refusal ≡ Memory) }
    {
        let world = World::new(alloc, program)?;
        let book = Book::new(alloc);
        Ok(Table { world, book })
    }

    /// The world.
    pub fn world(&self) -> &World
        ensures { result.now ≡ self.now.world }
    {
        &self.world
    }

    /// The breakpoints.
    pub fn book(&self) -> &Book
        ensures { result.now ≡ self.now.book }
    {
        &self.book
    }

    /// Copies the table, with as much room. Error: `Memory`, if an allocation fails.
    pub fn copy(&self) -> Result<Table, Refusal>
        ensures { IsCopy result (λ made. made ≡ self.now) }
    {
        Ok(Table {
            world: self.world.copy()?,
            book: self.book.copy()?,
        })
    }

    /// The reply to an accepted command with this result. It does not allocate.
    pub fn reply(&self, done: Done) -> Reply
        ensures { (P : tree.Program) → IsTableOf P self.now → Replies P (state_of self.now) done result }
    {
        Reply {
            done,
            halted: self.book.halted(),
        }
    }

    /// The position of the breakpoint that halts the session, from 1 in the order in which they were set, or 0 if none does. It does not
    /// allocate.
    pub fn halt_place(&self) -> u32
        ensures place { (P : tree.Program) → IsTableOf P self.now → IsHaltPlace P (state_of self.now) result }
        ensures few { result ≤ BREAKPOINTS }
    {
        self.book.halt_place()
    }

    // Error: `Halted`, if a breakpoint halts the session.
    fn unhalted(&self) -> Result<(), Refusal>
        ensures goes_on { OnOk result ((P : tree.Program) → IsTableOf P self.now → IsHalted P (state_of self.now) None) }
        ensures refuses { IfErr result (λ refusal. (P : tree.Program) → IsTableOf P self.now → HaltedAt P (state_of self.now) refusal) }
    {
        match self.book.halted() {
            Some(name) => Err(Refusal::Halted(name)),
            None => Ok(()),
        }
    }

    // Prepares for an event of the process: checks that the process exists and that no breakpoint halts the session, and makes room in each
    // detector.
    pub(crate) fn ready(&mut self, program: &Program, pid: Pid) -> Result<(), Refusal>
        requires { IsTableOf (program_of program.now) self.old }
        ensures of { IsTableOf (program_of program.now) self.new }
        ensures world { self.new.world ≡ self.old.world }
        ensures breakpoints { breakpoints_of self.new.book ≡ breakpoints_of self.old.book }
        ensures shown { shown_of self.new.book ≡ shown_of self.old.book }
        ensures ready { OnOk result (IsReady (program_of program.now) pid.0 self.new) }
        ensures refuses { IfErr result (Unready (program_of program.now) pid.0 (state_of self.old)) }
    {
        known(program, pid)?;
        self.unhalted()?;
        self.book.reserve(&self.world, pid)
    }

    // The least cut of the breakpoint of this name, if it has one.
    pub(crate) fn cut_of(&self, name: Name) -> Result<Option<Cut>, Refusal>
        ensures of { (P : tree.Program) → IsTableOf P self.now → IsCutOf P (state_of self.now) name result }
        ensures memory { IfErr result (λ refusal. refusal ≡ Memory → HasNamed name (state_of self.now)) }
    {
        let Some((_, breakpoint)) = self.book().find(name) else {
            return Err(Refusal::UnknownBreak);
        };
        match breakpoint.detector().cut() {
            Some(cut) => Ok(Some(cut.copy()?)),
            None => Ok(None),
        }
    }
}
