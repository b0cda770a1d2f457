//! Programs, and their parts.

ghost use Rattle.std.specs.Prelude.{◌≡◌, ◌≤◌, true};
ghost use Rattle.std.specs.Str.{bytes_eq};
ghost use Rattle.dbg_base.specs.declared.limits.TheConstants.{PROCESSES, VARIABLES, COMMANDS};
ghost use Rattle.dbg_base.specs.WellFormed.{is_well_formed};
ghost use Rattle.proc_tree.specs.ProcessTrees.{process_trees};

use crate::process::{Guarded, Process, Variable};
use dbg_base::{Choice, Name, Pid};

/// A program that has passed all checks, so it is well formed. Contracts see the tree `program_of`.
#[derive(Debug)]
pub struct Program {
    pub processes: Vec<Process>,
    pub ghost well_formed: { is_well_formed (process_trees processes.items) ≡ true },
}

impl Drop for Program {
    fn drop(self) {
        let Self { processes } = self;
    }
}

// Whether the process has this name. The names of a program differ mostly in their last byte.
fn is_named(process: &Process, name: &[u8]) -> bool
    ensures { result ≡ bytes_eq process.now.name name.now }
{
    let own = process.name.bytes();
    own.last() == name.last() && own == name
}

impl Program {
    ghost use Rattle.std.specs.Prelude.{◌≡◌, ◌≤◌, length, slice_get, MatchOption};
    ghost use Rattle.std.specs.Option.{option_map, option_copied};
    ghost use Rattle.dbg_base.specs.Names.{place_of};
    ghost use Rattle.dbg_base.specs.Trees.{no_process, process_of, command_of, names_of};
    ghost use Rattle.proc_tree.specs.Programs.{program_of};
    ghost use Rattle.proc_tree.specs.ProcessTrees.{process_tree, command_tree};

    fn process(&self, pid: Pid) -> Option<&Process>
        ensures value { option_copied result ≡ slice_get self.now.processes.items pid.0 }
        ensures found { MatchOption result (process_of (program_of self.now) pid.0 ≡ no_process)
            (λ process. process_of (program_of self.now) pid.0 ≡ process_tree process.now) }
    {
        self.processes.get(pid.0 as usize)
    }

    /// How many processes the program has, at most 32. A program from `parse_program` has at least one. Like all methods here it does not
    /// allocate.
    pub fn processes(&self) -> u32
        ensures value { result ≡ length (program_of self.now) }
        ensures few { result ≤ PROCESSES }
    {
        self.processes.len() as u32
    }

    /// The name of the process, or None if there is no such process.
    pub fn process_name(&self, pid: Pid) -> Option<Name>
        ensures { result ≡ option_map (λ process. process.name) (slice_get (program_of self.now) pid.0) }
    {
        match self.process(pid) {
            Some(process) => Some(process.name),
            None => None,
        }
    }

    /// The process of that name, or None if no process has it.
    pub fn find_process(&self, name: Name) -> Option<Pid>
        ensures { option_map (λ pid. pid.0) result ≡ place_of name (names_of (program_of self.now)) }
    {
        self.find_process_by(name.bytes())
    }

    /// The process whose name has these bytes, or None if no process has them.
    pub fn find_process_by(&self, name: &[u8]) -> Option<Pid>
        ensures { option_map (λ pid. pid.0) result ≡ place_of name.now (names_of (program_of self.now)) }
    {
        for (i, process) in self.processes.iter().enumerate() {
            if is_named(process, name) {
                return Some(Pid(i as u32));
            }
        }
        None
    }

    /// How many variables the process has, 0 if there is no such process.
    pub fn variables(&self, pid: Pid) -> u32
        ensures value { result ≡ length (process_of (program_of self.now) pid.0).variables }
        ensures few { result ≤ VARIABLES }
    {
        match self.process(pid) {
            Some(process) => process.variables.len() as u32,
            None => 0,
        }
    }

    fn variable(&self, pid: Pid, index: u32) -> Option<Variable>
        ensures { option_map (λ v. (v.name, v.start)) result
            ≡ slice_get (process_of (program_of self.now) pid.0).variables index }
    {
        let process = self.process(pid)?;
        process.variables.get(index as usize).copied()
    }

    /// The name of a variable, or None if the process has no such variable.
    pub fn variable_name(&self, pid: Pid, index: u32) -> Option<Name>
        ensures { result ≡ option_map (λ v. v.0) (slice_get (process_of (program_of self.now) pid.0).variables index) }
    {
        match self.variable(pid, index) {
            Some(variable) => Some(variable.name),
            None => None,
        }
    }

    /// The initial value of a variable, or None if the process has no such variable.
    pub fn start_value(&self, pid: Pid, index: u32) -> Option<i64>
        ensures { result ≡ option_map (λ v. v.1) (slice_get (process_of (program_of self.now) pid.0).variables index) }
    {
        match self.variable(pid, index) {
            Some(variable) => Some(variable.start),
            None => None,
        }
    }

    /// How many commands the process has, 0 if there is no such process.
    pub fn commands(&self, pid: Pid) -> u32
        ensures value { result ≡ length (process_of (program_of self.now) pid.0).commands }
        ensures few { result ≤ COMMANDS }
    {
        match self.process(pid) {
            Some(process) => process.commands.len() as u32,
            None => 0,
        }
    }

    /// A command, or None if the process has no such command.
    pub fn command(&self, pid: Pid, choice: Choice) -> Option<&Guarded>
        ensures { option_map (λ g. command_tree g.now) result
            ≡ command_of (program_of self.now) pid.0 choice.0 }
    {
        let process = self.process(pid)?;
        process.commands.get(choice.0 as usize)
    }
}
