//! A session, as it can be looked at.

ghost use Rattle.std.specs.Prelude.{◌≡◌};
ghost use Rattle.proc_tree.specs.Programs.{program_of};
ghost use Rattle.dbg_command.specs.Tables.{IsTableOf};

use crate::table::Table;
use break_book::Book;
use causal_world::World;
use proc_tree::Program;

/// A session as its calls leave it, by reference. The world is one of the program, and the detectors of the breakpoints follow the world.
#[derive(Clone, Copy)]
pub struct SessionView<'a> {
    /// The program.
    pub program: &'a Program,
    /// The values, messages and events of the program's processes.
    pub world: &'a World,
    /// The breakpoints.
    pub book: &'a Book,
    ghost of: { ∥ IsTableOf (program_of program.now) (record { world = world.now; book = book.now }) ∥₁ },
}

impl Table {
    /// The table with its program.
    pub fn view<'a>(&'a self, program: &'a Program) -> SessionView<'a>
        requires { IsTableOf (program_of program.now) self.now }
        ensures program { result.program.now ≡ program.now }
        ensures table { record { world = result.world.now; book = result.book.now } ≡ self.now }
    {
        SessionView {
            program,
            world: self.world(),
            book: self.book(),
        }
    }
}
