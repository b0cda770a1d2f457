//! The arguments of `draw`.

use crate::subcommands::{flag, valued, with_file};
use clap::builder::ValueParser;
use clap::error::ErrorKind;
use clap::{Arg, ArgMatches, Command, Error};
use std::alloc::{AllocError, Global};
use ui_diagram::{ALL_EVENTS, Moment, Picture, PictureForm, WIDTH};
use ui_timeline::Theme;

static PICTURES: [&str; 5] = ["text", "svg", "html", "shiviz", "mermaid"];

static THEMES: [&str; 3] = ["auto", "light", "dark"];

// How many events a drawing shows if `--last` does not say it: the time for more would exceed that for playing the session.
const DRAWN_EVENTS: u32 = 2_000;

// An option of `draw`.
#[derive(Clone, Copy)]
enum DrawOption {
    As,
    At,
    AtHalt,
    Whole,
    Width,
    Last,
    Only,
    Theme,
}

// In the order of the help.
static OPTIONS: [DrawOption; 8] = [
    DrawOption::As,
    DrawOption::At,
    DrawOption::AtHalt,
    DrawOption::Whole,
    DrawOption::Width,
    DrawOption::Last,
    DrawOption::Only,
    DrawOption::Theme,
];

// The option `--at`.
fn line<'a>(alloc: Global) -> Result<Arg<'a>, AllocError> {
    valued(
        alloc,
        "at",
        "LINE",
        "Draws the state after this line of the input, from 1, in place of the end",
    )
    .value_parser(clap::value_parser!(u32).range(1..))
    .conflicts_with("at-halt")
}

// The option `--as`.
fn form<'a>(alloc: Global) -> Arg<'a> {
    valued(alloc, "as", "FORM", "The form of the picture")
        .default_value("text")
        .value_parser(ValueParser::Names(&PICTURES))
}

// The option `--width`.
fn width<'a>(alloc: Global) -> Arg<'a> {
    valued(
        alloc,
        "width",
        "N",
        "How many characters wide a text picture is at most, from 20 to 1000, if not 120",
    )
    .value_parser(clap::value_parser!(u32).range(20..=1_000))
}

// The option `--last`.
fn last<'a>(alloc: Global) -> Arg<'a> {
    valued(
        alloc,
        "last",
        "N",
        "Draws at most the last N events; for an svg picture 2000 if not given",
    )
    .value_parser(clap::value_parser!(u32).range(1..))
}

// The option `--theme`.
fn theme<'a>(alloc: Global) -> Arg<'a> {
    valued(
        alloc,
        "theme",
        "COLOURS",
        "The colours of an svg picture: those that a reader prefers, light ones or dark ones",
    )
    .value_parser(ValueParser::Names(&THEMES))
}

// The option, as it is described in the help.
fn described<'a>(alloc: Global, option: DrawOption) -> Result<Arg<'a>, AllocError> {
    let halt =
        "Draws the state at the first halt, in place of the end; as svg its earliest state alone";
    let whole = "With --at-halt: draws the whole session also as svg";
    let only = "Draws only these processes, their names separated by commas";
    match option {
        DrawOption::As => Ok(form(alloc)),
        DrawOption::At => line(alloc),
        DrawOption::AtHalt => Ok(flag(alloc, "at-halt", halt)),
        DrawOption::Whole => Ok(flag(alloc, "whole", whole)),
        DrawOption::Width => Ok(width(alloc)),
        DrawOption::Last => Ok(last(alloc)),
        DrawOption::Only => Ok(valued(alloc, "only", "P,Q", only)),
        DrawOption::Theme => Ok(theme(alloc)),
    }
}

/// The subcommand `draw`.
pub(crate) fn draw<'a>(alloc: Global) -> Result<Command<'a>, AllocError> {
    let mut command = with_file(
        alloc,
        "draw",
        "Plays a session, and draws its end, or another state; or, as html, a page to go through it",
        "The program and the first lines; those of standard input follow",
    )?;
    for option in &OPTIONS {
        command = command.arg(described(alloc, *option)?)?;
    }
    Ok(command)
}

// The form of this name.
fn named_form(name: Option<&str>) -> PictureForm {
    match name {
        Some("svg") => PictureForm::Svg,
        Some("html") => PictureForm::Html,
        Some("shiviz") => PictureForm::Shiviz,
        Some("mermaid") => PictureForm::Mermaid,
        _ => PictureForm::Text,
    }
}

// The state that the picture shows.
fn named_moment(matches: &ArgMatches<'_>) -> Moment {
    match matches.get_one::<u32>("at") {
        Some(line) => Moment::Line(line),
        None if matches.get_flag("at-halt") => Moment::Halt,
        None => Moment::End,
    }
}

// The colours of this name.
fn named_theme(name: Option<&str>) -> Theme {
    match name {
        Some("light") => Theme::Light,
        Some("dark") => Theme::Dark,
        _ => Theme::Auto,
    }
}

// How many events a picture shows at most, if `--last` does not say it.
fn usual_last(form: PictureForm) -> u32 {
    match form {
        PictureForm::Svg => DRAWN_EVENTS,
        PictureForm::Text | PictureForm::Html | PictureForm::Shiviz | PictureForm::Mermaid => {
            ALL_EVENTS
        }
    }
}

// Why these arguments of `draw` cannot be used together, if they cannot.
fn conflict(matches: &ArgMatches<'_>, form: PictureForm, moment: Moment) -> Option<&'static str> {
    if form == PictureForm::Html && moment != Moment::End {
        return Some("a page has all states: '--as html' cannot be used with '--at' or '--at-halt'");
    }
    if form != PictureForm::Text && matches.get_one::<u32>("width").is_some() {
        return Some("only a text picture has a width: '--width' cannot be used with another form");
    }
    if moment != Moment::Halt && matches.get_flag("whole") {
        return Some("a picture is whole unless it is one of a halt: '--whole' needs '--at-halt'");
    }
    let has_all_events = matches!(form, PictureForm::Html | PictureForm::Shiviz);
    if has_all_events && matches.get_one::<u32>("last").is_some() {
        return Some(
            "a page and a log have all events: '--last' cannot be used with '--as html' or '--as shiviz'",
        );
    }
    if has_all_events && matches.get_str("only").is_some() {
        return Some(
            "a page and a log have all processes: '--only' cannot be used with '--as html' or '--as shiviz'",
        );
    }
    if form != PictureForm::Svg && matches.get_str("theme").is_some() {
        return Some("only an svg picture has a theme: '--theme' cannot be used with another form");
    }
    None
}

/// The picture that the arguments of `draw` ask for.
pub(crate) fn named_picture<'a>(
    command: &mut Command<'_>,
    matches: &ArgMatches<'a>,
) -> Result<Picture<'a>, Error> {
    let form = named_form(matches.get_str("as"));
    let moment = named_moment(matches);
    if let Some(why) = conflict(matches, form, moment) {
        return Err(command.error(ErrorKind::ArgumentConflict, why)?);
    }
    let only = matches.get_str("only");
    let has_selection = only.is_some() || matches.get_one::<u32>("last").is_some();
    Ok(Picture {
        form,
        moment,
        only,
        is_whole: has_selection || matches.get_flag("whole"),
        width: matches.get_one::<u32>("width").unwrap_or(WIDTH),
        last: matches.get_one::<u32>("last").unwrap_or(usual_last(form)),
        theme: named_theme(matches.get_str("theme")),
    })
}
