//! The jobs of the program.

use ui_diagram::Picture;

/// A job whose output is for programs.
#[derive(Clone, Copy, Debug, PartialEq, Eq)]
pub enum Job {
    /// Answer the command lines after a program text.
    Run,
    /// Check a program text.
    Check,
    /// Give `next` so many times for each process of a program, from threads.
    Crew(u32),
}

/// Whether output is coloured.
#[derive(Clone, Copy, Debug, PartialEq, Eq)]
pub enum Coloring {
    /// If it goes to a terminal that shows colours.
    Auto,
    Always,
    Never,
}

/// The work on an input.
#[derive(Clone, Copy, Debug, PartialEq, Eq)]
pub enum Work<'a> {
    /// A job whose output is for programs.
    Job(Job),
    /// Check a program text, and explain what is wrong.
    Explain,
    /// Print the plain session of one in the model notation.
    Expand,
    /// List the commands of a program, with the names that its author gave.
    NameCommands,
    /// Answer and explain the lines of a person.
    Talk(Coloring),
    /// Play a session, and draw it.
    Draw(Picture<'a>),
}

/// What the arguments ask for.
#[derive(Drop)]
pub enum Request<'a> {
    /// This work, with the file of this name, or with standard input.
    Work(Work<'a>, Option<&'a str>),
    /// Play the sessions of these files and folders, at least one, and compare their replies. The results are written as the Test Anything
    /// Protocol has them, or in words.
    Test(Vec<&'a str>, bool),
    /// Print the session of this file with the replies that it has now.
    Fill(&'a str),
    /// Play the session of the first file, and its lines on the edited program of the second.
    Replay(&'a str, &'a str),
    /// Print the version.
    Version,
}
