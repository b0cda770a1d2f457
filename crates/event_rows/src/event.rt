//! One event of a process.

ghost use Rattle.std.specs.Prelude.{◌≡◌, IfOk};
ghost use Rattle.event_rows.specs.Settings.{settings_of};
ghost use Rattle.event_rows.specs.Events.{after_event, before_event};

use crate::exchange::{Exchange, before, put_count};
use crate::setting::{Setting, put_new, put_old};
use dbg_base::Choice;
use local_eval::Env;
use smallvec::SmallVec;
use std::alloc::{AllocError, Global};
use std::marker::Model;

/// An event of a process: the command that it made, the variables that it set, with their values before and after, and what it sent
/// or received.
pub struct Event {
    choice: Choice,
    settings: SmallVec<Setting, 2>,
    exchange: Exchange,
}

impl Drop for Event {
    fn drop(self) {
        let Self {
            choice,
            settings,
            exchange,
        } = self;
    }
}

impl Model for Event {
    ghost use Rattle.event_rows.specs.EventValues.{EventValue};

    ghost Value = { EventValue };

    ghost view = { λ event. record { choice = event.choice.0; settings = event.settings.items; exchange = event.exchange } };
}

// The settings of these variables: their values in this local state, and their new values.
fn settings_from(
    alloc: Global,
    env: &Env,
    sets: &[(u32, i64)],
) -> Result<SmallVec<Setting, 2>, AllocError>
    ensures { IfOk result (λ settings. settings.items ≡ settings_of env.now.values sets.now) }
{
    let mut settings = SmallVec::new(alloc);
    for (variable, new) in sets {
        settings.push(Setting {
            variable: *variable,
            old: env.values().get(*variable as usize).copied().unwrap_or(0),
            new: *new,
        })?;
    }
    Ok(settings)
}

impl Event {
    /// The event with these settings, in order. Error: out of memory.
    pub fn new(
        alloc: Global,
        choice: Choice,
        settings: &[Setting],
        exchange: Exchange,
    ) -> Result<Event, AllocError>
        ensures { IfOk result (λ event. event ≡ record { choice = choice.0; settings = settings.now; exchange = exchange }) }
    {
        Ok(Event {
            choice,
            settings: SmallVec::from_slice(alloc, settings)?,
            exchange,
        })
    }

    /// The event that sets these variables in this local state of its process, in order. The old value of a variable is its value there, or
    /// 0 if it does not exist. Error: out of memory.
    pub fn of(
        alloc: Global,
        choice: Choice,
        env: &Env,
        sets: &[(u32, i64)],
        exchange: Exchange,
    ) -> Result<Event, AllocError>
        ensures { IfOk result (λ event. event
            ≡ record { choice = choice.0; settings = settings_of env.now.values sets.now; exchange = exchange }) }
    {
        Ok(Event {
            choice,
            settings: settings_from(alloc, env, sets)?,
            exchange,
        })
    }

    /// Copies the event. Error: out of memory.
    pub fn copy(&self) -> Result<Event, AllocError>
        ensures { IfOk result (λ event. event ≡ self.now) }
    {
        Ok(Event {
            choice: self.choice,
            settings: SmallVec::from_slice(*self.settings.allocator(), self.settings())?,
            exchange: self.exchange,
        })
    }

    /// The command that the process made. Like all methods that only read, it does not allocate.
    pub fn choice(&self) -> Choice
        ensures { result.0 ≡ self.now.choice }
    {
        self.choice
    }

    /// The variables that were set, in order.
    pub fn settings(&self) -> &[Setting]
        ensures { result.now ≡ self.now.settings }
    {
        self.settings.as_slice()
    }

    /// What was sent or received.
    pub fn exchange(&self) -> Exchange
        ensures { result ≡ self.now.exchange }
    {
        self.exchange
    }

    /// Changes the local state before the event into that after it: the variables get their new values, and the message is counted.
    /// Variables and processes that do not exist are left out. It does not allocate.
    pub fn redo(&self, env: &mut Env)
        ensures { env.new ≡ after_event self.now env.old }
    {
        put_new(env, self.settings());
        put_count(env, &self.exchange);
    }

    /// Changes the local state after the event into that before it: the variables get their old values, from the last setting to the first,
    /// and the message is no longer counted. Variables and processes that do not exist are left out. It does not allocate.
    pub fn undo(&self, env: &mut Env)
        ensures { env.new ≡ before_event self.now env.old }
    {
        put_old(env, self.settings());
        put_count(env, &before(&self.exchange));
    }
}
