//! What an event writes.

ghost use Rattle.std.specs.Prelude.{◌≡◌};
ghost use Rattle.ui_causes.specs.Origins.{set_by, or_later, last_set, counted, count_written, write_of, value_in};

use dbg_base::{Direction, Pid};
use event_rows::{Event, Exchange, Setting};
use local_eval::Env;
use ui_view::NamedValue;

/// A value before an event that wrote it, and after it.
#[derive(Clone, Copy, PartialEq, Eq)]
pub(crate) struct Written {
    pub(crate) old: i64,
    pub(crate) new: i64,
}

// What a setting writes to a variable, if it does.
fn set_by(setting: &Setting, variable: u32) -> Option<Written>
    ensures { result ≡ set_by variable setting.now }
{
    if setting.variable != variable {
        return None;
    }
    Some(Written {
        old: setting.old,
        new: setting.new,
    })
}

// The later write, or the earlier one if there is no later one.
fn or_later(earlier: Option<Written>, later: Option<Written>) -> Option<Written>
    ensures { result ≡ or_later earlier later }
{
    match later {
        Some(written) => Some(written),
        None => earlier,
    }
}

// What the last of these settings of a variable writes, if there is one.
fn last_set(settings: &[Setting], variable: u32) -> Option<Written>
    ensures { result ≡ last_set variable settings.now }
{
    let mut found = None;
    for setting in settings {
        found = or_later(found, set_by(setting, variable));
    }
    found
}

// A count that became this one.
fn counted(count: u32) -> Written
    ensures { result ≡ counted count }
{
    Written {
        old: i64::from(count.saturating_sub(1)),
        new: i64::from(count),
    }
}

// What an exchange writes to a count of messages to this process, or from it.
fn count_of(exchange: Exchange, direction: Direction, pid: Pid) -> Option<Written>
    ensures { result ≡ count_written direction pid.0 exchange }
{
    match (direction, exchange) {
        (Direction::Sent, Exchange::Sent { target, count, .. }) if target.0 == pid.0 => {
            Some(counted(count))
        }
        (Direction::Got, Exchange::Took { source, count, .. }) if source.0 == pid.0 => {
            Some(counted(count))
        }
        _ => None,
    }
}

/// What an event writes to a variable, or to a count of messages, if it does.
pub(crate) fn write_of(event: &Event, named: NamedValue) -> Option<Written>
    ensures { result ≡ write_of named event.now }
{
    match named {
        NamedValue::Variable(variable) => last_set(event.settings(), variable),
        NamedValue::Count(direction, pid) => count_of(event.exchange(), direction, pid),
    }
}

/// A variable or a count of messages in a local state, or 0 if there is none.
pub(crate) fn value_in(env: &Env, named: NamedValue) -> i64
    ensures { result ≡ value_in named env.now }
{
    match named {
        NamedValue::Variable(variable) => {
            env.values().get(variable as usize).copied().unwrap_or(0)
        }
        NamedValue::Count(direction, pid) => {
            let counts = env.counts(direction);
            i64::from(counts.get(pid.0 as usize).copied().unwrap_or(0))
        }
    }
}
