//! The local state of a process: the values of its variables, and its counts of messages.

ghost use Rattle.std.specs.Prelude.{◌≡◌, ◌<◌, ◌↔◌, [], length, replicate, Some, IsTrue, IfOk, slice_get, slice_set};
ghost use Rattle.dbg_base.specs.Trees.{process_of};
ghost use Rattle.dbg_base.specs.LocalStates.{counts_of, no_state, start_values, start_state};
ghost use Rattle.dbg_base.specs.Configurations.{start_of};
ghost use Rattle.proc_tree.specs.Programs.{program_of};

use dbg_base::{Direction, Pid};
use proc_tree::Program;
use std::alloc::{AllocError, Global};
use std::marker::Model;

/// The local state of a process: the values of its variables, by their numbers from 0, and for each process how many messages it has sent
/// to that process and received from it. Contracts see these three lists.
pub struct Env {
    values: Vec<i64>,
    sent: Vec<u32>,
    got: Vec<u32>,
}

impl Drop for Env {
    fn drop(self) {
        let Self { values, sent, got } = self;
    }
}

impl Model for Env {
    ghost use Rattle.dbg_base.specs.LocalStates.{LocalState};

    ghost Value = { LocalState };

    ghost view = { λ env. record { values = env.values.items; sent = env.sent.items; got = env.got.items } };
}

// The initial values of a process.
fn initial_values(alloc: Global, program: &Program, pid: Pid) -> Result<Vec<i64>, AllocError>
    ensures { IfOk result (λ values. values.items ≡ start_values (process_of (program_of program.now) pid.0)) }
{
    let mut values = Vec::new(alloc);
    for index in 0..program.variables(pid) {
        if let Some(value) = program.start_value(pid, index) {
            values.push(value)?;
        }
    }
    Ok(values)
}

// Counts of no messages, for so many processes.
fn no_messages(alloc: Global, processes: u32) -> Result<Vec<u32>, AllocError>
    ensures { IfOk result (λ counts. counts.items ≡ replicate processes 0) }
{
    vec![in alloc; 0; processes as usize]
}

impl Env {
    /// The local state of a process that does not exist: no variables, and no counts. It does not allocate.
    pub fn none(alloc: Global) -> Env
        ensures { result ≡ no_state }
    {
        Env {
            values: Vec::new(alloc),
            sent: Vec::new(alloc),
            got: Vec::new(alloc),
        }
    }

    /// The start of a process: its initial values, and no messages sent or received. If the program has no such process, there are no
    /// values. Error: out of memory.
    pub fn start(alloc: Global, program: &Program, pid: Pid) -> Result<Env, AllocError>
        ensures { IfOk result (λ env. env ≡ start_state (program_of program.now) pid.0) }
    {
        let values = initial_values(alloc, program, pid)?;
        let sent = no_messages(alloc, program.processes())?;
        let got = no_messages(alloc, program.processes())?;
        Ok(Env { values, sent, got })
    }

    /// The start of each process of the program. Error: out of memory.
    pub fn starts(alloc: Global, program: &Program) -> Result<Vec<Env>, AllocError>
        ensures { IfOk result (λ states. states.items ≡ (start_of (program_of program.now)).states) }
    {
        let mut states = Vec::new(alloc);
        for p in 0..program.processes() {
            states.push(Env::start(alloc, program, Pid(p))?)?;
        }
        Ok(states)
    }

    /// How many variables there are. Like all methods that only read, it does not allocate.
    pub fn len(&self) -> usize
        ensures { result ≡ length self.now.values }
    {
        self.values.len()
    }

    /// Whether there are no variables.
    pub fn is_empty(&self) -> bool
        ensures { IsTrue result ↔ (self.now.values ≡ []) }
    {
        self.values.is_empty()
    }

    /// The value of a variable, which must exist.
    pub fn value(&self, index: u32) -> i64
        requires { index < length self.now.values }
        ensures { slice_get self.now.values index ≡ Some result }
    {
        self.values()[index as usize]
    }

    /// The values, in the order of the variables.
    pub fn values(&self) -> &[i64]
        ensures { result.now ≡ self.now.values }
    {
        self.values.as_slice()
    }

    /// How many messages the process has sent to an existing process.
    pub fn sent(&self, pid: Pid) -> u32
        requires { pid.0 < length self.now.sent }
        ensures { slice_get self.now.sent pid.0 ≡ Some result }
    {
        self.counts(Direction::Sent)[pid.0 as usize]
    }

    /// How many messages the process has received from an existing process.
    pub fn got(&self, pid: Pid) -> u32
        requires { pid.0 < length self.now.got }
        ensures { slice_get self.now.got pid.0 ≡ Some result }
    {
        self.counts(Direction::Got)[pid.0 as usize]
    }

    /// How many messages the process has sent to each process, or has received from each, in program order.
    pub fn counts(&self, direction: Direction) -> &[u32]
        ensures { result.now ≡ counts_of direction self.now }
    {
        match direction {
            Direction::Sent => self.sent.as_slice(),
            Direction::Got => self.got.as_slice(),
        }
    }

    /// Copies the values and counts of another local state of the same process into this one. It does not allocate.
    pub fn assign(&mut self, other: &Env)
        requires values { length self.old.values ≡ length other.now.values }
        requires sent { length self.old.sent ≡ length other.now.sent }
        requires got { length self.old.got ≡ length other.now.got }
        ensures { self.new ≡ other.now }
    {
        self.values.as_mut_slice().copy_from_slice(other.values());
        self.sent
            .as_mut_slice()
            .copy_from_slice(other.counts(Direction::Sent));
        self.got
            .as_mut_slice()
            .copy_from_slice(other.counts(Direction::Got));
    }

    /// Sets an existing variable. It does not allocate.
    pub fn set(&mut self, index: u32, value: i64)
        requires { index < length self.old.values }
        ensures { self.new ≡ record self.old { values = slice_set self.old.values index value } }
    {
        self.values[index as usize] = value;
    }

    /// Sets how many messages the process has sent to an existing process. It does not allocate.
    pub fn set_sent(&mut self, pid: Pid, count: u32)
        requires { pid.0 < length self.old.sent }
        ensures { self.new ≡ record self.old { sent = slice_set self.old.sent pid.0 count } }
    {
        self.sent[pid.0 as usize] = count;
    }

    /// Sets how many messages the process has received from an existing process. It does not allocate.
    pub fn set_got(&mut self, pid: Pid, count: u32)
        requires { pid.0 < length self.old.got }
        ensures { self.new ≡ record self.old { got = slice_set self.old.got pid.0 count } }
    {
        self.got[pid.0 as usize] = count;
    }

    /// Copies the local state. Error: out of memory.
    pub fn copy(&self) -> Result<Env, AllocError>
        ensures { IfOk result (λ env. env ≡ self.now) }
    {
        let values = self.values.clone()?;
        let sent = self.sent.clone()?;
        let got = self.got.clone()?;
        Ok(Env { values, sent, got })
    }

    /// Copies the local states. Error: out of memory.
    pub fn copy_all(states: &Vec<Env>) -> Result<Vec<Env>, AllocError>
        ensures { IfOk result (λ made. made.items ≡ states.now.items) }
    {
        let mut made = Vec::new(*states.allocator());
        for env in states {
            made.push(env.copy()?)?;
        }
        Ok(made)
    }
}
