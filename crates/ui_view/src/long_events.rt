//! What an event did, in several lines.

use crate::events::{EventColumns, EventNews, GAP, ShownEvent};
use crate::view::SourceView;
use event_rows::Setting;
use shell_io::Style;
use std::alloc::{AllocError, Global};
use ui_text::{Notes, Part};

impl SourceView<'_> {
    // Where the settings of an event begin in further lines: below the first ones, or to the left of these if one has no room there.
    fn further_column(
        &self,
        alloc: Global,
        columns: EventColumns,
        shown: ShownEvent<'_>,
    ) -> Result<usize, AllocError> {
        let mut words = Notes::new(alloc);
        let mut longest = 0usize;
        for setting in shown.event.settings() {
            words.say("")?;
            self.scope(shown.pid).put_setting(&mut words, "", setting)?;
            longest = longest.max(words.width());
        }
        if columns.settings.saturating_add(longest) < self.width {
            Ok(columns.settings)
        } else {
            Ok(columns.message)
        }
    }

    // Appends a setting after others, in a new line if it has no room in the last one.
    fn put_further_setting(
        &self,
        notes: &mut Notes,
        column: usize,
        shown: ShownEvent<'_>,
        setting: &Setting,
    ) -> Result<(), AllocError> {
        let scope = self.scope(shown.pid);
        let mut words = Notes::new(notes.alloc());
        words.say("")?;
        scope.put_setting(&mut words, ", ", setting)?;
        if notes.width().saturating_add(words.width()) < self.width {
            return scope.put_setting(notes, ", ", setting);
        }
        notes.add(",")?;
        notes.say("")?;
        notes.tab(column)?;
        scope.put_setting(notes, "", setting)
    }

    // Begins the settings of an event, with the first one.
    fn begin_settings(
        &self,
        notes: &mut Notes,
        news: EventNews,
        column: usize,
        shown: ShownEvent<'_>,
    ) -> Result<(), AllocError> {
        if notes.width() != column {
            let width = notes.width().saturating_add(GAP);
            if width > column {
                notes.say("")?;
            }
            notes.tab(column)?;
        }
        if news == EventNews::Undone {
            notes.add("undone: ")?;
        }
        match shown.event.settings().first() {
            Some(setting) => self.scope(shown.pid).put_setting(notes, "", setting),
            None => Ok(()),
        }
    }

    /// Says what an event did in several lines, since one has no room for it.
    pub(crate) fn tell_long_event(
        &self,
        notes: &mut Notes,
        news: EventNews,
        columns: EventColumns,
        shown: ShownEvent<'_>,
    ) -> Result<(), AllocError> {
        self.begin_event(notes, columns, shown)?;
        let column = self.further_column(notes.alloc(), columns, shown)?;
        if !shown.event.settings().is_empty() || news == EventNews::Undone {
            self.begin_settings(notes, news, column, shown)?;
        }
        for setting in shown.event.settings().iter().skip(1) {
            self.put_further_setting(notes, column, shown, setting)?;
        }
        self.put_far_place(notes, columns, shown)
    }

    // Appends the place of an event's command, in a new line if it has no room in the last one.
    fn put_far_place(
        &self,
        notes: &mut Notes,
        columns: EventColumns,
        shown: ShownEvent<'_>,
    ) -> Result<(), AllocError> {
        let place = self.text.shown_place(shown.pid, shown.event.choice());
        let column = columns.command.min(self.width.saturating_sub(place.len()));
        if notes.width().saturating_add(GAP) > column {
            notes.say("")?;
        }
        notes.tab_in(Style::Place, column)?;
        notes.add_with("{}", &[Part::Bytes(place)])
    }
}
