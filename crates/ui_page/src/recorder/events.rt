//! Events and the lines of processes, as JSON.

use crate::list::List;
use causal_world::World;
use dbg_base::Pid;
use event_rows::{Event, Exchange};
use std::alloc::AllocError;
use ui_view::{ProcessView, SourceView};

// Whether two events are equal.
fn are_same(one: Option<&Event>, other: Option<&Event>) -> bool {
    match (one, other) {
        (Some(one), Some(other)) => {
            one.choice() == other.choice() && one.exchange() == other.exchange()
        }
        _ => false,
    }
}

// How many events of a process, from the first one on, are equal in two worlds.
fn same_events(one: &World, other: &World, pid: Pid) -> u32 {
    let mut same = 0u32;
    for at in 0..one.place(pid).min(other.place(pid)) {
        if !are_same(
            one.rows().event(pid, at as usize),
            other.rows().event(pid, at as usize),
        ) {
            break;
        }
        same = same.saturating_add(1);
    }
    same
}

// Whether the redo line of a process is the same in two worlds.
fn has_same_rest(one: &World, other: &World, pid: Pid) -> bool {
    let length = one.line_len(pid);
    length == other.line_len(pid)
        && (one.place(pid)..length).all(|at| one.choice(pid, at) == other.choice(pid, at))
}

impl List {
    // The message of an event: 0, or the message with its value and its number in the channel.
    fn exchange(&mut self, scope: ProcessView<'_>, exchange: Exchange) -> Result<(), AllocError> {
        let (way, pid, value, count) = match exchange {
            Exchange::Nothing => return self.number(0),
            Exchange::Sent {
                target,
                value,
                count,
            } => ("s", target, value, count),
            Exchange::Took {
                source,
                message,
                count,
            } => ("r", source, message, count),
        };
        let shown = match exchange {
            Exchange::Took { .. } => scope.text.message(pid, scope.pid, value),
            Exchange::Sent { .. } | Exchange::Nothing => scope.text.message(scope.pid, pid, value),
        };
        let mut message = self.another_of(way)?;
        message.number(i64::from(pid.0))?;
        message.value(value, shown)?;
        message.number(i64::from(count))?;
        self.list(message)
    }

    // What an event set: of each variable its name, its value before and its value after.
    fn settings(&mut self, scope: ProcessView<'_>, event: &Event) -> Result<(), AllocError> {
        let mut settings = self.another();
        for setting in event.settings() {
            let mut one = self.another();
            one.text(scope.text.variable_name(scope.pid, setting.variable))?;
            let shown = |value| scope.text.value(scope.pid, setting.variable, value);
            one.value(setting.old, shown(setting.old))?;
            one.value(setting.new, shown(setting.new))?;
            settings.list(one)?;
        }
        self.list(settings)
    }

    // The command of an event, what it set, and the message that it sent or received.
    fn event(&mut self, scope: ProcessView<'_>, event: &Event) -> Result<(), AllocError> {
        self.number(i64::from(event.choice().0))?;
        self.settings(scope, event)?;
        self.exchange(scope, event.exchange())
    }

    /// The last event of a process, as an operation that begins with this word.
    pub(super) fn made(
        &mut self,
        word: &str,
        view: SourceView<'_>,
        pid: Pid,
    ) -> Result<(), AllocError> {
        let Some(event) = view.session.world.rows().last(pid) else {
            return Ok(());
        };
        let mut operation = self.another_of(word)?;
        operation.number(i64::from(pid.0))?;
        operation.event(view.scope(pid), event)?;
        self.list(operation)
    }

    // The events of a process from this one on.
    fn events_from(
        &mut self,
        first: u32,
        view: SourceView<'_>,
        pid: Pid,
    ) -> Result<(), AllocError> {
        let world = view.session.world;
        let mut events = self.another();
        for at in first..world.place(pid) {
            if let Some(event) = world.rows().event(pid, at as usize) {
                let mut one = self.another();
                one.event(view.scope(pid), event)?;
                events.list(one)?;
            }
        }
        self.list(events)
    }

    // The redo line of a process.
    fn choices(&mut self, world: &World, pid: Pid) -> Result<(), AllocError> {
        let mut choices = self.another();
        for at in world.place(pid)..world.line_len(pid) {
            if let Some(choice) = world.choice(pid, at) {
                choices.number(i64::from(choice.0))?;
            }
        }
        self.list(choices)
    }

    /// How a batch changed a process's line, as an operation, if it did: how many events are as before, the events after them, and the redo
    /// line.
    pub(super) fn changed_line(
        &mut self,
        view: SourceView<'_>,
        before: &World,
        pid: Pid,
    ) -> Result<(), AllocError> {
        let world = view.session.world;
        let same = same_events(before, world, pid);
        let place = world.place(pid);
        if same == place && before.place(pid) == place && has_same_rest(before, world, pid) {
            return Ok(());
        }
        let mut operation = self.another_of("l")?;
        operation.number(i64::from(pid.0))?;
        operation.number(i64::from(same))?;
        operation.events_from(same, view, pid)?;
        operation.choices(world, pid)?;
        self.list(operation)
    }
}
