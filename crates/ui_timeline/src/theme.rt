//! The colours of a drawing.

use std::alloc::AllocError;
use ui_text::Notes;

/// Which colours a drawing has.
#[derive(Clone, Copy, Debug, PartialEq, Eq)]
pub enum Theme {
    /// Those that whoever shows it prefers.
    Auto,
    /// Dark words on a light ground.
    Light,
    /// Light words on a dark ground.
    Dark,
}

impl Theme {
    /// Says a style: these rules, which are for a light ground, and those that differ on a dark one.
    pub fn say_style(self, notes: &mut Notes, light: &str, dark: &str) -> Result<(), AllocError> {
        notes.say("  <style>")?;
        notes.say(light)?;
        match self {
            Theme::Auto => {
                notes.say("    @media (prefers-color-scheme: dark) {")?;
                notes.say(dark)?;
                notes.say("    }")?;
            }
            Theme::Light => {}
            Theme::Dark => notes.say(dark)?,
        }
        notes.say("  </style>")
    }
}
