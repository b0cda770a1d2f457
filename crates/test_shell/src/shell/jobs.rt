//! What arguments ask for. The first lines of refused ones are in tests/tables/arguments.txt.

use crate::expecting::expect_same;
use clap::Error;
use clap::error::ErrorKind;
use dbg_shell::{Coloring, Job, Request, Work, asked, job};
use std::alloc::Global;
use std::process::Abort;
use test_programs::MEMORY;
use ui_diagram::Moment::{End, Halt, Line};
use ui_diagram::PictureForm::{Html, Mermaid, Shiviz, Svg, Text};
use ui_diagram::{ALL_EVENTS, Moment, Picture, PictureForm};
use ui_timeline::Theme;
use ui_timeline::Theme::{Auto, Dark, Light};

// Arguments; the first is the program's name.
type ArgumentList = &'static [&'static str];

// The job that the arguments ask for, if they do.
fn job_of(alloc: Global, words: ArgumentList) -> Option<Job> {
    job(alloc, words).ok()
}

const JOBS: [(ArgumentList, Option<Job>); 6] = [
    (&["rdbg", "run"], Some(Job::Run)),
    (&["rdbg", "check"], Some(Job::Check)),
    (&["rdbg", "crew", "--turns", "1"], Some(Job::Crew(1))),
    (
        &["rdbg", "crew", "--turns=100000"],
        Some(Job::Crew(100_000)),
    ),
    (&["rdbg", "crew", "--turns", "0"], None),
    (&["rdbg"], None),
];

#[test]
fn words_ask_for_jobs(rt: HostRuntime) {
    for (words, want) in &JOBS {
        let found = job_of(rt.alloc(), words);
        expect_same(&rt, (*words, found), (*words, *want));
    }
}

// The kind and the status of an error.
fn refused<T: Drop>(outcome: Result<T, Error>) -> Option<(ErrorKind, i32)> {
    match outcome {
        Ok(_) => None,
        Err(error) => Some((error.kind(), error.exit_code())),
    }
}

const NO_JOBS: [ArgumentList; 4] = [
    &["rdbg", "talk"],
    &["rdbg", "check", "--explain"],
    &["rdbg", "test", "one"],
    &["rdbg", "draw"],
];

#[test]
fn other_work_is_no_job(rt: HostRuntime) {
    for words in &NO_JOBS {
        let found = refused(job(rt.alloc(), *words));
        let want = Some((ErrorKind::InvalidSubcommand, 2));
        expect_same(&rt, (*words, found), (*words, want));
    }
}

// The program's name, and the words of a line.
fn arguments(rt: &impl Abort, alloc: Global, line: &'static str) -> Vec<&'static str> {
    let mut words = Vec::from_array(alloc, ["rdbg"]).expect(rt, MEMORY);
    for word in line.split_whitespace() {
        words.push(word).expect(rt, MEMORY);
    }
    words
}

const WORKS: [(&str, Work<'static>); 7] = [
    ("talk", Work::Talk(Coloring::Auto)),
    ("talk --color always", Work::Talk(Coloring::Always)),
    ("talk --color=never", Work::Talk(Coloring::Never)),
    ("check --explain", Work::Explain),
    ("expand", Work::Expand),
    ("expand --names", Work::NameCommands),
    ("run", Work::Job(Job::Run)),
];

// Expects the words of a line to ask for this work.
fn expect_work(rt: &impl Abort, alloc: Global, line: &'static str, want: Work<'_>) {
    let words = arguments(rt, alloc, line);
    let found = match asked(alloc, words.as_slice()) {
        Ok(Request::Work(work, _)) => Some(work),
        _ => None,
    };
    expect_same(rt, (line, found), (line, Some(want)));
}

#[test]
fn words_ask_for_work(rt: HostRuntime) {
    for (line, want) in &WORKS {
        expect_work(&rt, rt.alloc(), line, *want);
    }
}

// Arguments, and the form, the moment, the width, the number of events and the theme of the picture that they ask for.
const PICTURES: [(&str, PictureForm, Moment, u32, u32, Theme); 11] = [
    ("draw", Text, End, 120, ALL_EVENTS, Auto),
    ("draw --as svg", Svg, End, 120, 2_000, Auto),
    ("draw --as=html", Html, End, 120, ALL_EVENTS, Auto),
    ("draw --as shiviz", Shiviz, End, 120, ALL_EVENTS, Auto),
    ("draw --as mermaid", Mermaid, End, 120, ALL_EVENTS, Auto),
    ("draw --at 12", Text, Line(12), 120, ALL_EVENTS, Auto),
    ("draw --at-halt --as=svg", Svg, Halt, 120, 2_000, Auto),
    ("draw --width 1000", Text, End, 1000, ALL_EVENTS, Auto),
    ("draw --last 7", Text, End, 120, 7, Auto),
    (
        "draw --as=svg --theme dark --last=1",
        Svg,
        End,
        120,
        1,
        Dark,
    ),
    ("draw --as=svg --theme=light", Svg, End, 120, 2_000, Light),
];

#[test]
fn words_ask_for_pictures(rt: HostRuntime) {
    for (line, form, moment, width, last, theme) in &PICTURES {
        let picture = Picture {
            form: *form,
            moment: *moment,
            only: None,
            is_whole: line.contains("--last"),
            width: *width,
            last: *last,
            theme: *theme,
        };
        expect_work(&rt, rt.alloc(), line, Work::Draw(picture));
    }
}

// Arguments, and the form, the number of events and the processes of the picture that they ask for.
const SELECTIONS: [(&str, PictureForm, u32, &str); 3] = [
    ("draw --only a", Text, ALL_EVENTS, "a"),
    ("draw --as=svg --only=left,right", Svg, 2_000, "left,right"),
    ("draw --only a,b --as mermaid", Mermaid, ALL_EVENTS, "a,b"),
];

#[test]
fn words_ask_for_some_processes(rt: HostRuntime) {
    for (line, form, last, only) in &SELECTIONS {
        let picture = Picture {
            form: *form,
            moment: End,
            only: Some(only),
            is_whole: true,
            width: 120,
            last: *last,
            theme: Auto,
        };
        expect_work(&rt, rt.alloc(), line, Work::Draw(picture));
    }
}
