//! Which events prevent an undo.

use crate::events::receiving;
use crate::view::SourceView;
use dbg_base::Pid;
use event_rows::{Event, Exchange};
use std::alloc::AllocError;
use ui_text::{Notes, Part};

impl SourceView<'_> {
    // The number, from 1, of the event of the receiver by which it received the message of the process's last event.
    fn received(&self, pid: Pid, receiver: Pid) -> Option<u32> {
        let world = self.session.world;
        match world.rows().last(pid).map(Event::exchange) {
            Some(Exchange::Sent { count, .. }) => Some(receiving(world, receiver, pid, count)),
            _ => None,
        }
    }

    /// Says which events prevent the undo of the last event of a process, and what undoes them.
    pub fn tell_consequence(
        &self,
        notes: &mut Notes,
        pid: Pid,
        receiver: Pid,
    ) -> Result<(), AllocError> {
        let Some(received) = self.received(pid, receiver) else {
            return Ok(());
        };
        let events = self.session.world.rows().len(pid);
        let scope = self.scope(pid);
        notes.say_with(
            "{} received the message of event {} of {} by its event {}",
            &[
                scope.process(receiver),
                Part::Count(events),
                scope.name(),
                Part::Natural(received),
            ],
        )?;
        notes.say_with(
            "`rollback {} {}` undoes this event and all events that depend on it",
            &[scope.name(), Part::Count(events.saturating_sub(1))],
        )
    }
}
