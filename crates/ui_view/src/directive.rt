//! The lines that an interactive session answers itself.

/// A line that an interactive session answers itself, without a call. The name of a process is empty if the line has none.
#[derive(Clone, Copy, PartialEq, Eq)]
pub enum Directive<'a> {
    /// A comment, an expectation or a blank line. It has no answer.
    Remark,
    /// The lines that can be typed, or what this word or this number means.
    Help(&'a [u8]),
    /// The commands that can fire, of all processes or of the one of this name.
    On(&'a [u8]),
    /// The commands of all processes, or of the one of this name, and what prevents each from firing.
    List(&'a [u8]),
    /// The values and the messages on their way, of all processes or of the one of this name.
    State(&'a [u8]),
    /// The events of the process of this name.
    Line(&'a [u8]),
    /// What led to an event of the process of this name: the one of this number.
    How(&'a [u8], &'a [u8]),
    /// Where the value of a variable of the process of this name came from: of the variable of this name.
    From(&'a [u8], &'a [u8]),
    /// A picture of the events.
    Draw,
    /// The lines that lead to the present state.
    Session,
    /// The end of the session.
    Quit,
    /// A line that begins with this word, and has a word too many.
    TooLong(&'a [u8]),
    /// A line that begins with this word, and would write its answer to a file.
    ToFile(&'a [u8]),
}

impl<'a> Directive<'a> {
    /// The name of the process that it is about, which is empty if it is about none or all.
    pub fn process(&self) -> &'a [u8] {
        match self {
            Directive::On(name)
            | Directive::List(name)
            | Directive::State(name)
            | Directive::Line(name)
            | Directive::How(name, _)
            | Directive::From(name, _) => name,
            _ => &[],
        }
    }
}
