//! The processes of a program: their variables and commands.

ghost use Rattle.std.specs.Prelude.{◌≤◌, vec_len};
ghost use Rattle.dbg_base.specs.declared.limits.TheConstants.{VARIABLES, COMMANDS};

use dbg_base::{Expr, Name, Pid, Sequence};

/// What a command does besides its assignments.
#[derive(Debug, Drop)]
pub enum Action {
    /// Nothing.
    Local,
    /// Appends the value to the channel to the target.
    Send { target: Pid, value: Expr },
    /// Sets the variable to the head of the channel from the source, which it removes.
    Receive { source: Pid, variable: u32 },
}

/// A variable, by its position in the process, and the expression of its new value.
#[derive(Debug, Drop)]
pub struct Assignment {
    pub variable: u32,
    pub value: Expr,
}

/// A guarded command.
#[derive(Debug, Drop)]
pub struct Guarded {
    pub guard: Expr,
    pub action: Action,
    pub assignments: Sequence<Assignment>,
}

/// A variable of a process.
#[derive(Clone, Copy, Debug)]
pub struct Variable {
    pub name: Name,
    pub start: i64,
}

/// A process.
#[derive(Debug)]
pub struct Process {
    pub name: Name,
    pub variables: Vec<Variable>,
    pub commands: Vec<Guarded>,
    pub ghost few_variables: { vec_len variables ≤ VARIABLES },
    pub ghost few_commands: { vec_len commands ≤ COMMANDS },
}

impl Drop for Process {
    fn drop(self) {
        let Self {
            name,
            variables,
            commands,
        } = self;
    }
}
