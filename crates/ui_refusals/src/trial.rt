//! The commands of a batch before the refused one, made again apart from the session, to find what prevents that one.

use causal_world::World;
use dbg_base::{Choice, Direction, Pid, Plan, Refusal};
use local_eval::{Change, Env, EvalError, effect, guard};
use proc_tree::{Action, Guarded, Program};
use std::alloc::{AllocError, Global};
use ui_view::Hindrance;

// A message that a command of the batch sent.
#[derive(Clone, Copy)]
struct SentMessage {
    source: Pid,
    target: Pid,
    value: i64,
}

/// The local states of all processes, and the messages, after some commands of a batch.
#[derive(Drop)]
pub(crate) struct Trial<'a> {
    program: &'a Program,
    world: &'a World,
    envs: Vec<Env>,
    sent: Vec<SentMessage>,
    // For each message that was received its sender and its recipient.
    taken: Vec<(Pid, Pid)>,
}

// Sets the variables that a command sets.
fn set_all(env: &mut Env, change: &Change) {
    for (variable, value) in change.sets.as_slice() {
        if (*variable as usize) < env.len() {
            env.set(*variable, *value);
        }
    }
}

// Counts one more message.
fn count_one(env: &mut Env, direction: Direction, other: Pid) {
    let Some(count) = env.counts(direction).get(other.0 as usize) else {
        return;
    };
    let more = count.saturating_add(1);
    match direction {
        Direction::Sent => env.set_sent(other, more),
        Direction::Got => env.set_got(other, more),
    }
}

impl<'a> Trial<'a> {
    /// The present state of a world of this program. Error: memory ran out.
    pub(crate) fn begin(
        alloc: Global,
        program: &'a Program,
        world: &'a World,
    ) -> Result<Trial<'a>, AllocError> {
        let mut envs = Vec::new(alloc);
        for p in 0..program.processes() {
            if let Some(env) = world.local_state(Pid(p)) {
                envs.push(env.copy()?)?;
            }
        }
        Ok(Trial {
            program,
            world,
            envs,
            sent: Vec::new(alloc),
            taken: Vec::new(alloc),
        })
    }

    /// The local state of a process.
    pub(crate) fn env(&self, pid: Pid) -> Option<&Env> {
        self.envs.get(pid.0 as usize)
    }

    // How many messages from one process to another the batch received.
    fn taken_of(&self, source: Pid, target: Pid) -> usize {
        let mut count = 0usize;
        for (from, to) in &self.taken {
            if *from == source && *to == target {
                count = count.saturating_add(1);
            }
        }
        count
    }

    // The message at this position of those that the batch sent from one process to another.
    fn sent_of(&self, source: Pid, target: Pid, at: usize) -> Option<i64> {
        let mut left = at;
        for message in &self.sent {
            if message.source == source && message.target == target {
                if left == 0 {
                    return Some(message.value);
                }
                left = left.saturating_sub(1);
            }
        }
        None
    }

    // The first message on the way from one process to another.
    fn first_message(&self, source: Pid, target: Pid) -> Result<Option<i64>, Refusal> {
        let alloc = *self.sent.allocator();
        let taken = self.taken_of(source, target);
        let messages = self.world.channel(alloc, source, target)?;
        let before = messages.items().len();
        match messages.items().get(taken) {
            Some(message) => Ok(Some(*message)),
            None => Ok(self.sent_of(source, target, taken.saturating_sub(before))),
        }
    }

    // The message that a command receives, if it receives one.
    fn message_for(&self, pid: Pid, command: &Guarded) -> Result<Option<i64>, Refusal> {
        match &command.action {
            Action::Receive { source, .. } => self.first_message(*source, pid),
            _ => Ok(None),
        }
    }

    /// What prevents a command.
    pub(crate) fn find(&self, pid: Pid, choice: Choice) -> Result<Option<Hindrance>, Refusal> {
        let (Some(command), Some(env)) = (self.program.command(pid, choice), self.env(pid)) else {
            return Ok(Some(Hindrance::NoCommand));
        };
        match guard(&command.guard, env) {
            Ok(true) => {}
            Ok(false) => return Ok(Some(Hindrance::GuardFalse)),
            Err(_) => return Ok(Some(Hindrance::GuardFaults)),
        }
        let message = self.message_for(pid, command)?;
        if let (Action::Receive { source, .. }, None) = (&command.action, message) {
            return Ok(Some(Hindrance::NoMessage(*source)));
        }
        match effect(*self.sent.allocator(), command, env, message) {
            Ok(_) => Ok(None),
            Err(EvalError::Fault) => Ok(Some(Hindrance::Faults(message))),
            Err(EvalError::Memory) => Err(Refusal::Memory),
        }
    }

    // What a command changes that nothing prevents.
    fn change_of(&self, pid: Pid, command: &Guarded) -> Result<Option<Change>, Refusal> {
        let Some(env) = self.env(pid) else {
            return Ok(None);
        };
        let message = self.message_for(pid, command)?;
        match effect(*self.sent.allocator(), command, env, message) {
            Ok(change) => Ok(Some(change)),
            Err(EvalError::Fault) => Ok(None),
            Err(EvalError::Memory) => Err(Refusal::Memory),
        }
    }

    // Notes the message that a command of a process sends or receives.
    fn note_message(
        &mut self,
        pid: Pid,
        command: &Guarded,
        change: &Change,
    ) -> Result<(), AllocError> {
        match &command.action {
            Action::Receive { source, .. } => Ok(self.taken.push((*source, pid))?),
            Action::Send { target, .. } => Ok(
                self.sent.push(SentMessage {
                    source: pid,
                    target: *target,
                    value: change.message.unwrap_or(0),
                })?,
            ),
            Action::Local => Ok(()),
        }
    }

    // Changes the local state of a process as a command does.
    fn change_state(&mut self, pid: Pid, command: &Guarded, change: &Change) {
        let Some(env) = self.envs.get_mut(pid.0 as usize) else {
            return;
        };
        set_all(env, change);
        match &command.action {
            Action::Receive { source, .. } => count_one(env, Direction::Got, *source),
            Action::Send { target, .. } => count_one(env, Direction::Sent, *target),
            Action::Local => {}
        }
    }

    // Makes a command that nothing prevents.
    fn make(&mut self, pid: Pid, choice: Choice) -> Result<(), Refusal> {
        let program = self.program;
        let Some(command) = program.command(pid, choice) else {
            return Ok(());
        };
        if let Some(change) = self.change_of(pid, command)? {
            self.note_message(pid, command, &change)?;
            self.change_state(pid, command, &change);
        }
        Ok(())
    }

    // The first command of a process that nothing prevents.
    fn first_firing(&self, pid: Pid) -> Result<Option<Choice>, Refusal> {
        for number in 0..self.program.commands(pid) {
            if self.find(pid, Choice(number))?.is_none() {
                return Ok(Some(Choice(number)));
            }
        }
        Ok(None)
    }

    /// Makes a command of a batch that was accepted. Returns whether it is one that makes an event as `step` and `next` do.
    pub(crate) fn give(&mut self, plan: &Plan) -> Result<bool, Refusal> {
        match plan {
            Plan::Step(pid, choice) => {
                self.make(*pid, *choice)?;
                Ok(true)
            }
            Plan::Next(pid) => {
                if let Some(choice) = self.first_firing(*pid)? {
                    self.make(*pid, choice)?;
                }
                Ok(true)
            }
            _ => Ok(false),
        }
    }
}
