//! The subcommands of the program, and the arguments of each.

use crate::pictures::draw;
use crate::usage::TURNS;
use clap::builder::ValueParser;
use clap::{Arg, ArgAction, Command};
use std::alloc::{AllocError, Global};

static ABOUT: &str =
    "A debugger for processes that send each other messages: steps them, undoes events, halts at bad global states";

static GUIDE: &str =
    "The input is a program, a line `%%`, and for `talk`, `run` and `draw` command lines after it. For `check` and `crew`, all of it is
the program if no line is `%%`. rdbg reads FILE, and then standard input; without FILE, standard input alone. `check`, `crew`,
`test` and `replay` read their files alone. `draw` and `expand` do not wait for a terminal. An interactive session answers `help`, too.
`rdbg --version` prints the version.
`talk`, `draw`, `test`, `replay` and `check --explain` also read the model notation, and `expand` prints the plain session of one in it.

Command lines, each after a seat from 1 to 16:
  step P K, next P, redo P       make an event of the process P
  undo P, rollback P N, goto B   undo events
  break B P E [P E ..]           set the breakpoint B, which halts if E holds in P, and so on for each pair
  arm B, pass B, clear B         arm, disarm or delete the breakpoint B
  batch C ; C ..                 give these commands as one, all or none
  back                           take back the last accepted command, if the same seat gave it
  vars P, chan P Q, clock P, place P, can P, cut B, why B, breaks
                                 show something, and change nothing

Refusals: `no` and a number; then for 7 a process, for 9 a breakpoint, for 17 a seat, for 25 two numbers. They change nothing.
  1   no process has this name
  2   the process has no such command
  3   the guard of the command is false
  4   an evaluation faults: a number out of range, or a division by 0
  5   there is no message to receive
  6   the process has no event to undo
  7   a process has received the message that the event sent
  8   the process has nothing to redo
  9   a breakpoint halts the session
  10  the process has fewer events
  11  a breakpoint already has this name
  12  no breakpoint has this name
  13  the breakpoint has no cut
  14  the breakpoint is not armed
  15  the breakpoint is already armed
  16  no command is left to take back
  17  another seat gave the last command
  18  the process has 20,000 events, the maximum
  19  there are 64 breakpoints, the maximum
  20  100,000 calls were entered, the maximum
  21  out of memory
  22  syntax error
  23  a predicate is not a truth expression of its process, or the process already has one
  24  no command of the process can fire
  25  a command of the batch is refused: the numbers are its position, from 1, and its refusal

Example of an input for `run`:
  process a { var x = 0; when (x < 3) : x := (x + 1); }
  %%
  1 break two a (x = 2)
  1 next a
  1 next a
  1 undo a
  1 vars a";

// The file of a subcommand, if it has one.
fn file<'a>(alloc: Global) -> Arg<'a> {
    Arg::new(alloc, "file").value_name("FILE")
}

/// An option that has no value.
pub(crate) fn flag<'a>(alloc: Global, name: &'a str, help: &'a str) -> Arg<'a> {
    Arg::new(alloc, name)
        .long(name)
        .action(ArgAction::SetTrue)
        .help(help)
}

/// An option with a value of this name.
pub(crate) fn valued<'a>(alloc: Global, name: &'a str, value: &'a str, help: &'a str) -> Arg<'a> {
    Arg::new(alloc, name)
        .long(name)
        .value_name(value)
        .help(help)
}

/// The subcommand of this name, which may have a file.
pub(crate) fn with_file<'a>(
    alloc: Global,
    name: &'a str,
    about: &'a str,
    help: &'a str,
) -> Result<Command<'a>, AllocError> {
    Command::new(alloc, name)
        .about(about)
        .arg(file(alloc).help(help))
}

static COLORINGS: [&str; 3] = ["auto", "always", "never"];

fn talk<'a>(alloc: Global) -> Result<Command<'a>, AllocError> {
    with_file(
        alloc,
        "talk",
        "Interactive session: like `run`, with an explanation after each reply",
        "The program and the first lines; those of standard input follow",
    )?
    .arg(
        valued(
            alloc,
            "color",
            "WHEN",
            "Whether output is coloured; `auto`: at a terminal, unless NO_COLOR is set or TERM is dumb",
        )
        .default_value("auto")
        .value_parser(ValueParser::Names(&COLORINGS)),
    )
}

fn expand<'a>(alloc: Global) -> Result<Command<'a>, AllocError> {
    with_file(
        alloc,
        "expand",
        "Prints the plain session of one in the model notation",
        "The program and the first lines; those of standard input follow",
    )?
    .arg(flag(
        alloc,
        "names",
        "Lists the commands of the program with their names in the text, in columns with tabs between",
    ))
}

fn run<'a>(alloc: Global) -> Result<Command<'a>, AllocError> {
    with_file(
        alloc,
        "run",
        "Reads a program, a line `%%` and command lines, and answers each line",
        "The program and the first lines; those of standard input follow",
    )
}

fn check<'a>(alloc: Global) -> Result<Command<'a>, AllocError> {
    with_file(
        alloc,
        "check",
        "Reads a program and prints how many processes and commands it has, or what is wrong",
        "The program, in place of standard input",
    )?
    .arg(flag(
        alloc,
        "explain",
        "Prints the line and the place of what is wrong, and the likely correction",
    ))
}

fn crew<'a>(alloc: Global) -> Result<Command<'a>, AllocError> {
    with_file(
        alloc,
        "crew",
        "Reads a program, gives `next` for each process N times, from threads, and prints how many calls there were",
        "The program, in place of standard input",
    )?
    .arg(
        valued(
            alloc,
            "turns",
            "N",
            "How often to give `next` for each process, from 1 to 100000",
        )
        .required(true)
        .value_parser(clap::value_parser!(u32).range(1..=i64::from(TURNS))),
    )
}

fn test<'a>(alloc: Global) -> Result<Command<'a>, AllocError> {
    Command::new(alloc, "test")
        .about(
            "Plays sessions, and compares the reply to each command line with the line `> REPLY` after it",
        )
        .arg(
            file(alloc).required(true).num_args(1..).help(
                "The sessions, or folders: each session `*.rdbg` below a folder is played",
            ),
        )?
        .arg(flag(
            alloc,
            "tap",
            "Prints the results as the Test Anything Protocol has them",
        ))?
        .arg(flag(
            alloc,
            "fill",
            "Prints the session of one FILE with the replies that it has now, and compares nothing",
        ))
}

// A file that has to be named.
fn named_file<'a>(alloc: Global, id: &'a str, name: &'a str, help: &'a str) -> Arg<'a> {
    Arg::new(alloc, id)
        .value_name(name)
        .required(true)
        .help(help)
}

fn replay<'a>(alloc: Global) -> Result<Command<'a>, AllocError> {
    Command::new(alloc, "replay")
        .about(
            "Plays a session again on an edited program, and prints the first line that goes another way",
        )
        .arg(named_file(
            alloc,
            "session",
            "SESSION",
            "The session: a program, and command lines after it",
        ))?
        .arg(named_file(
            alloc,
            "program",
            "PROGRAM",
            "The edited program; lines after it are not played",
        ))
}

#[derive(Clone, Copy)]
enum Subcommand {
    Talk,
    Expand,
    Run,
    Check,
    Crew,
    Test,
    Replay,
    Draw,
}

// In the order of the help.
static SUBCOMMANDS: [Subcommand; 8] = [
    Subcommand::Talk,
    Subcommand::Expand,
    Subcommand::Run,
    Subcommand::Check,
    Subcommand::Crew,
    Subcommand::Test,
    Subcommand::Replay,
    Subcommand::Draw,
];

// The subcommand, with its arguments.
fn described<'a>(alloc: Global, subcommand: Subcommand) -> Result<Command<'a>, AllocError> {
    match subcommand {
        Subcommand::Talk => talk(alloc),
        Subcommand::Expand => expand(alloc),
        Subcommand::Run => run(alloc),
        Subcommand::Check => check(alloc),
        Subcommand::Crew => crew(alloc),
        Subcommand::Test => test(alloc),
        Subcommand::Replay => replay(alloc),
        Subcommand::Draw => draw(alloc),
    }
}

/// The arguments of the program.
pub(crate) fn command<'a>(alloc: Global) -> Result<Command<'a>, AllocError> {
    let mut command = Command::new(alloc, "rdbg")
        .about(ABOUT)
        .after_help(GUIDE)
        .subcommand_required(true);
    for subcommand in &SUBCOMMANDS {
        command = command.subcommand(described(alloc, *subcommand)?)?;
    }
    Ok(command)
}
