//! What the arguments of the program ask for.

ghost use Rattle.std.specs.Prelude.{IfOk};
ghost use Rattle.dbg_shell.specs.Jobs.{IsJob, IsWork, IsRequest};

use crate::jobs::{Coloring, Job, Request, Work};
use crate::pictures::named_picture;
use crate::subcommands::command;
use clap::error::ErrorKind;
use clap::{ArgMatches, Command, Error};
use dbg_base::limits::CALLS;
use std::alloc::{AllocError, Global};
use std::convert::AsStr;

/// The most turns of a crew.
pub(crate) const TURNS: u32 = 100_000;

const _: () = prove!(TURNS as usize == CALLS);

// The coloring of this name.
fn named_coloring(name: Option<&str>) -> Coloring {
    match name {
        Some("always") => Coloring::Always,
        Some("never") => Coloring::Never,
        _ => Coloring::Auto,
    }
}

// The work of the subcommand of this name.
fn named_work<'a>(
    command: &mut Command<'_>,
    name: &str,
    matches: &ArgMatches<'a>,
) -> Result<Work<'a>, Error>
    ensures { IfOk result IsWork }
{
    match name {
        "talk" => Ok(Work::Talk(named_coloring(matches.get_str("color")))),
        "expand" if matches.get_flag("names") => Ok(Work::NameCommands),
        "expand" => Ok(Work::Expand),
        "draw" => Ok(Work::Draw(named_picture(command, matches)?)),
        "check" if matches.get_flag("explain") => Ok(Work::Explain),
        "check" => Ok(Work::Job(Job::Check)),
        "crew" => match matches.get_one::<u32>("turns") {
            Some(turns) if 1 <= turns && turns <= TURNS => Ok(Work::Job(Job::Crew(turns))),
            // The parser has already checked the number.
            _ => Err(command.error(ErrorKind::ValueValidation, "a crew has 1 to 100000 turns")?),
        },
        _ => Ok(Work::Job(Job::Run)),
    }
}

// The files that the arguments name.
fn named_files<'a>(alloc: Global, matches: &ArgMatches<'a>) -> Result<Vec<&'a str>, AllocError> {
    match matches.get_strs("file") {
        Some(names) => Vec::from_slice(alloc, names),
        None => Ok(Vec::new(alloc)),
    }
}

// The request of `test`.
fn named_test<'a>(
    alloc: Global,
    command: &mut Command<'_>,
    matches: &ArgMatches<'a>,
) -> Result<Request<'a>, Error>
    ensures { IfOk result IsRequest }
{
    let files = named_files(alloc, matches)?;
    if !matches.get_flag("fill") {
        return Ok(Request::Test(files, matches.get_flag("tap")));
    }
    if matches.get_flag("tap") {
        return Err(command.error(
            ErrorKind::ArgumentConflict,
            "'--fill' and '--tap' cannot be used together",
        )?);
    }
    match files.as_slice() {
        [file] => Ok(Request::Fill(file)),
        _ => Err(command.error(ErrorKind::TooManyValues, "'--fill' takes one file")?),
    }
}

// The request of `replay`.
fn named_replay<'a>(
    command: &mut Command<'_>,
    matches: &ArgMatches<'a>,
) -> Result<Request<'a>, Error>
    ensures { IfOk result IsRequest }
{
    match (matches.get_str("session"), matches.get_str("program")) {
        (Some(session), Some(program)) => Ok(Request::Replay(session, program)),
        // The parser has required both.
        _ => Err(command.error(
            ErrorKind::MissingRequiredArgument,
            "'replay' takes a session and a program",
        )?),
    }
}

// Whether the arguments ask for the version.
fn is_version<S: AsStr>(words: &[S]) -> bool {
    match words {
        [_, word] => matches!(word.as_str(), "--version" | "-V"),
        _ => false,
    }
}

/// What the arguments ask for; the first is the program's own name. The error is a request for help, or wrong arguments. It has the text to
/// print and the exit status. A crew has 1 to 100,000 turns.
pub fn asked<'a, S: AsStr>(alloc: Global, words: &'a [S]) -> Result<Request<'a>, Error>
    ensures { IfOk result IsRequest }
{
    if is_version(words) {
        return Ok(Request::Version);
    }
    let mut command = command(alloc)?;
    let matches = command.try_get_matches_from_mut(words)?;
    match matches.subcommand() {
        Some(("test", own)) => named_test(alloc, &mut command, own),
        Some(("replay", own)) => named_replay(&mut command, own),
        Some((name, own)) => {
            let work = named_work(&mut command, name, own)?;
            Ok(Request::Work(work, own.get_str("file")))
        }
        // The parser has required a subcommand.
        None => Ok(Request::Work(Work::Job(Job::Run), None)),
    }
}

/// The job that the arguments ask for. If they ask for something else, the error is of the kind `InvalidSubcommand`.
pub fn job<'a, S: AsStr>(alloc: Global, words: &'a [S]) -> Result<Job, Error>
    ensures { IfOk result IsJob }
{
    match asked(alloc, words)? {
        Request::Work(Work::Job(job), _) => Ok(job),
        _ => Err(command(alloc)?.error(
            ErrorKind::InvalidSubcommand,
            "the subcommand is not run, check or crew",
        )?),
    }
}
