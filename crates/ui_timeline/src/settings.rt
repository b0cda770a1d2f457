//! What an event set, in words.

use event_rows::Setting;
use std::alloc::AllocError;
use ui_text::Notes;
use ui_view::ProcessView;

/// Appends a variable with its value before and after an event to the last line.
pub fn put_setting(
    notes: &mut Notes,
    scope: ProcessView<'_>,
    setting: &Setting,
) -> Result<(), AllocError> {
    let old = scope.value(setting.variable, setting.old);
    let new = scope.value(setting.variable, setting.new);
    notes.add_with("{}", &[scope.variable(setting.variable)])?;
    if setting.old == setting.new {
        return notes.add_with(" stays {}", &[new]);
    }
    notes.add_with(" {} -> {}", &[old, new])
}
