//! What a picture of a session is to show, and how.

use ui_timeline::Theme;

/// How a session is drawn.
#[derive(Clone, Copy, Debug, PartialEq, Eq)]
pub enum PictureForm {
    /// A space-time diagram of characters.
    Text,
    /// The same as a drawing.
    Svg,
    /// A page that goes through the session line by line.
    Html,
    /// The events with their clocks, as ShiViz reads them.
    Shiviz,
    /// A sequence diagram, as Mermaid reads it.
    Mermaid,
}

/// The state of a session that a picture shows.
#[derive(Clone, Copy, Debug, PartialEq, Eq)]
pub enum Moment {
    /// The state at the end.
    End,
    /// The state after the line of this number was answered. The first line of the input has number 1.
    Line(u32),
    /// The state at the first halt.
    Halt,
}

/// A picture that is asked for.
#[derive(Clone, Copy, Debug, PartialEq, Eq)]
pub struct Picture<'a> {
    pub form: PictureForm,
    pub moment: Moment,
    /// The names of the processes that are shown, separated by commas, if not all are.
    pub only: Option<&'a str>,
    /// Whether a picture of a halt shows the whole session, and not the cut alone.
    pub is_whole: bool,
    /// How many characters wide a diagram of characters is.
    pub width: u32,
    /// At most this many events are shown, the last ones.
    pub last: u32,
    /// The colours of a drawing.
    pub theme: Theme,
}
