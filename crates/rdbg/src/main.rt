//! The program `rdbg`: passes its arguments to `asked` and its streams to `serve`, `check` or `run_crew`, and ends with their status.
#![tactic(auto)]

mod paint;
mod replaying;
mod serving;
mod sessions;
mod talking;
mod testing;
mod typing;
mod words;

use clap::error::ErrorKind;
use dbg_shell::{Coloring, Job, Request, Work, asked, check, crew_status, run_crew, status};
use paint::{Look, Painted, Stream};
use replaying::replay_files;
use serving::run;
use shell_io::{Noted, Output, Sink, one_after_the_other};
use std::io::{Error, IsTerminal};
use std::process::ExitCode;
use std::sync::Wait;
use std::thread::Threads;
use std::{env, io};
use talking::talk_again;
use testing::test;
use typing::{Device, FileInput, Typing, open};
use ui_diagram::PictureForm;
use ui_expect::{ReplayNames, fill_session};
use ui_picture::{draw, draw_status};
use ui_repl::{expand, explain, name_commands, tell_notation};
use words::{WordsFault, words};

static VERSION: &str = "rdbg 1.0";

// The status if output could not be written, or if a session did not have the expected replies.
pub(crate) const FAILED: u8 = 1;

// The status if a program was refused.
const REFUSED: u8 = 3;

// What this work reads: the file of this name, standard input, or one after the other. `-` means standard input. Nobody is to type what a
// picture or an expanded session is made of.
pub(crate) fn device_of<'a>(
    rt: &'a HostRuntime,
    work: Option<Work<'_>>,
    name: &str,
) -> io::Result<Device<'a>> {
    let is_terminal = rt.stdin().is_terminal();
    let is_typed = is_terminal && matches!(work, Some(Work::Talk(_)));
    if name == "-" {
        return Ok(Device::Input(Typing::new(rt, is_typed, false)));
    }
    // At a terminal, the program ends with the file.
    let file = FileInput::new(open(rt, name)?, is_typed);
    let reads_on = match work {
        Some(Work::Job(Job::Run) | Work::Talk(_)) => true,
        Some(Work::Expand | Work::Draw(_)) => !is_terminal,
        _ => false,
    };
    if !reads_on {
        return Ok(Device::File(file));
    }
    let input = Typing::new(rt, is_typed, true);
    Ok(Device::Both(one_after_the_other(file, input)))
}

// Does this work from this input to this writer, and returns the exit status.
fn do_work<R: Threads + Wait + Sync, W: Sink, E: Sink>(
    rt: &HostRuntime,
    threads: &R,
    work: Work<'_>,
    input: Device<'_>,
    writer: &mut W,
    errors: &mut E,
) -> u8 {
    let alloc = rt.alloc();
    let mut reader = Noted::new(input);
    match work {
        Work::Job(Job::Run) => run(alloc, &mut reader, writer),
        Work::Job(Job::Check) => status(&check(alloc, &mut reader, writer)),
        Work::Job(Job::Crew(turns)) => {
            crew_status(&run_crew(threads, alloc, turns, &mut reader, writer))
        }
        Work::Explain => status(&explain(alloc, &mut reader, writer)),
        Work::Expand => status(&expand(alloc, &mut reader, writer, errors)),
        Work::NameCommands => status(&name_commands(alloc, &mut reader, writer, errors)),
        Work::Talk(_) => {
            let width = line_width(rt);
            status(&talk_again(alloc, width, reader.into_inner(), writer))
        }
        Work::Draw(picture) => { draw_status(&draw(alloc, picture, &mut reader, writer, errors)) }
    }
}

// Says what reads the program of a file that is refused, if it is in the model notation, which a run and a check do not read. It is read
// again, unless it can be read only once.
fn hint<E: Sink>(rt: &HostRuntime, work: Work<'_>, name: &str, errors: &mut E) {
    let is_plain = matches!(work, Work::Job(Job::Run | Job::Check));
    if let Ok(file) = open(rt, name) {
        if is_plain && file.metadata().is_ok_and(|data| data.is_file()) {
            let mut reader = Noted::new(FileInput::new(file, false));
            let _ = tell_notation(rt.alloc(), name, &mut reader, errors);
        }
    }
}

// Reports that a file cannot be read, and returns the status of a usage error.
pub(crate) fn tell_unreadable(rt: &HostRuntime, name: &str, error: &Error) -> u8 {
    let _ = eprintln!(rt;
        "error: the file '{name}' cannot be read: {error}\n\nFor more information, try '--help'."
    );
    2
}

// Writes the session of this file with its replies, and returns the exit status.
fn fill<W: Sink, E: Sink>(rt: &HostRuntime, name: &str, writer: &mut W, errors: &mut E) -> u8 {
    match device_of(rt, None, name) {
        Ok(device) => { status(&fill_session(rt.alloc(), &mut Noted::new(device), writer, errors)) }
        Err(error) => tell_unreadable(rt, name, &error),
    }
}

// How many characters wide the lines of an interactive session are: as wide as the terminal, if COLUMNS says how wide that is, without the
// two blanks before them.
fn line_width(rt: &HostRuntime) -> Option<usize> {
    match env::var(rt, "COLUMNS") {
        Ok(columns) => match columns.as_str().parse::<usize>() {
            Ok(width) if 22 <= width && width <= 1_000 => Some(width - 2),
            _ => None,
        },
        Err(_) => None,
    }
}

// Whether standard output is a terminal that shows colours.
fn shows_colours(rt: &HostRuntime) -> bool {
    let is_able = env::var(rt, "TERM").is_ok_and(|term| term.as_str() != "dumb");
    let is_unwanted = env::var(rt, "NO_COLOR").is_ok_and(|value| !value.is_empty());
    rt.stdout().is_terminal() && is_able && !is_unwanted
}

// How the output of a request is written. What a program reads goes out as it is, and what a person reads as text.
fn look_of(rt: &HostRuntime, request: &Request<'_>) -> Look {
    match request {
        Request::Work(Work::Talk(Coloring::Auto), _) if shows_colours(rt) => Look::Coloured,
        Request::Work(Work::Talk(Coloring::Always), _) => Look::Coloured,
        Request::Work(Work::Talk(_) | Work::Explain, _)
        | Request::Test(_, _)
        | Request::Replay(_, _) => Look::Visible,
        Request::Work(Work::Draw(picture), _) if picture.form == PictureForm::Text => Look::Visible,
        Request::Work(Work::Job(_) | Work::Expand | Work::NameCommands | Work::Draw(_), _)
        | Request::Fill(_)
        | Request::Version => Look::Raw,
    }
}

// Does what the arguments ask for, and returns the exit status.
fn do_request<R: Threads + Wait + Sync>(
    rt: &HostRuntime,
    threads: &R,
    request: &Request<'_>,
) -> u8 {
    let look = look_of(rt, request);
    let (output, errors) = (Stream::Output(rt.stdout()), Stream::Errors(rt.stderr()));
    let mut writer = Output::new(Painted::new(rt.alloc(), output, look));
    let mut errors = Output::new(Painted::new(rt.alloc(), errors, Look::Visible));
    match request {
        Request::Work(work, file) => {
            let name = file.unwrap_or("-");
            match device_of(rt, Some(*work), name) {
                Ok(input) => {
                    let status = do_work(rt, threads, *work, input, &mut writer, &mut errors);
                    if status == REFUSED {
                        hint(rt, *work, name, &mut errors);
                    }
                    status
                }
                Err(error) => tell_unreadable(rt, name, &error),
            }
        }
        Request::Test(names, is_tap) => test(rt, names.as_slice(), *is_tap, &mut writer),
        Request::Fill(file) => fill(rt, file, &mut writer, &mut errors),
        Request::Replay(session, program) => {
            replay_files(rt, ReplayNames { session, program }, &mut writer)
        }
        Request::Version => match println!(rt; "{VERSION}") {
            Ok(()) => 0,
            Err(_) => FAILED,
        },
    }
}

fn main(rt: HostRuntime) -> ExitCode {
    let words = match words(&rt) {
        Ok(words) => words,
        Err(fault) => {
            if fault == WordsFault::NotText {
                let _ = eprintln!(rt;
                    "error: an argument is not valid UTF-8\n\nFor more information, try '--help'."
                );
            }
            return ExitCode::from(fault.status());
        }
    };
    match asked(rt.alloc(), words.as_slice()) {
        Ok(request) => ExitCode::from(do_request(&rt, &rt, &request)),
        Err(error) => {
            if error.kind() == ErrorKind::OutOfMemory {
                return ExitCode::from(WordsFault::Memory.status());
            }
            let is_help = error.exit_code() == 0;
            match error.print(&rt) {
                Err(_) if is_help => ExitCode::from(FAILED),
                _ => ExitCode::from(error.exit_code() as u8),
            }
        }
    }
}
