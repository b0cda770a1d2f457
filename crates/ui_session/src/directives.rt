//! Directives: the lines that an interactive session answers itself.

ghost use Rattle.std.specs.Prelude.{◌≡◌, is_some};
ghost use Rattle.std.specs.List.{list_any};
ghost use Rattle.std.specs.Str.{bytes_eq};
ghost use Rattle.ui_session.specs.Dialogues.{is_remark, is_directive, is_quit, is_seat, needs_seat, directive_words, quit_words};
ghost use Rattle.ui_session.specs.Verbs.{is_quit_verb};

use shell_parse::{next_word, without_return};
use shell_serve::LineSort;
use ui_view::Directive;

// The first word of each directive that is answered.
#[derive(Clone, Copy, PartialEq, Eq)]
pub(crate) enum Verb {
    Help,
    On,
    List,
    State,
    Line,
    How,
    From,
    Draw,
    Session,
    Quit,
}

// Whether there is no word, or it begins a comment or an expectation.
fn is_remark(word: &[u8]) -> bool
    ensures { result ≡ is_remark word.now }
{
    match word.first() {
        Some(byte) => *byte == b'#' || *byte == b'>',
        None => true,
    }
}

// The directive that begins with this word.
fn verb_of(word: &[u8]) -> Option<Verb>
    ensures is { is_some result ≡ list_any (bytes_eq word.now) directive_words }
    ensures quits { is_quit_verb result ≡ list_any (bytes_eq word.now) quit_words }
{
    if word == b"help".as_slice() || word == b"?".as_slice() {
        Some(Verb::Help)
    } else if word == b"on".as_slice() {
        Some(Verb::On)
    } else if word == b"list".as_slice() {
        Some(Verb::List)
    } else if word == b"state".as_slice() {
        Some(Verb::State)
    } else if word == b"line".as_slice() {
        Some(Verb::Line)
    } else if word == b"how".as_slice() {
        Some(Verb::How)
    } else if word == b"from".as_slice() {
        Some(Verb::From)
    } else if word == b"draw".as_slice() {
        Some(Verb::Draw)
    } else if word == b"session".as_slice() {
        Some(Verb::Session)
    } else if word == b"quit".as_slice() || word == b"exit".as_slice() || word == b"q".as_slice() {
        Some(Verb::Quit)
    } else {
        None
    }
}

// The same for a line of which it is not known whether it begins with a seat.
#[inline(never)]
fn sort_words(line: &[u8]) -> LineSort
    ensures directive { result.is_directive ≡ is_directive line.now }
    ensures ends { result.ends ≡ is_quit line.now }
    ensures seat { result.needs_seat ≡ needs_seat line.now }
{
    let (word, rest) = next_word(without_return(line));
    let verb = verb_of(word);
    LineSort {
        is_directive: is_remark(word) || verb.is_some(),
        ends: matches!(verb, Some(Verb::Quit)) && is_remark(next_word(rest).0),
        needs_seat: !is_seat(word),
    }
}

/// What a line is to an interactive session. Most lines begin with a seat, and no directive does.
#[inline(always)]
pub(crate) fn sort(line: &[u8]) -> LineSort
    ensures directive { result.is_directive ≡ is_directive line.now }
    ensures ends { result.ends ≡ is_quit line.now }
    ensures seat { result.needs_seat ≡ needs_seat line.now }
{
    if !is_seat(line) {
        return sort_words(line);
    }
    LineSort {
        is_directive: false,
        ends: false,
        needs_seat: false,
    }
}

impl Verb {
    // How many words may follow it.
    fn arguments(self) -> usize {
        match self {
            Verb::Draw | Verb::Session | Verb::Quit => 0,
            Verb::Help | Verb::On | Verb::List | Verb::State | Verb::Line => 1,
            Verb::How | Verb::From => 2,
        }
    }

    // The directive with these arguments, each of which is empty if it is missing.
    fn with<'a>(self, argument: &'a [u8], second: &'a [u8]) -> Directive<'a> {
        match self {
            Verb::Help => Directive::Help(argument),
            Verb::On => Directive::On(argument),
            Verb::List => Directive::List(argument),
            Verb::State => Directive::State(argument),
            Verb::Line => Directive::Line(argument),
            Verb::How => Directive::How(argument, second),
            Verb::From => Directive::From(argument, second),
            Verb::Draw => Directive::Draw,
            Verb::Session => Directive::Session,
            Verb::Quit => Directive::Quit,
        }
    }
}

// The next word that is not one of a comment, or nothing, and what follows it.
fn next_argument(line: &[u8]) -> (&[u8], &[u8]) {
    let (word, rest) = next_word(line);
    if is_remark(word) {
        (&[], &[])
    } else {
        (word, rest)
    }
}

/// The directive that a line is, if an interactive session answers it itself.
pub(crate) fn directive(line: &[u8]) -> Directive<'_> {
    let (word, rest) = next_word(without_return(line));
    let Some(verb) = verb_of(word) else {
        return Directive::Remark;
    };
    if verb != Verb::Quit && next_word(rest).0.first() == Some(&b'>') {
        return Directive::ToFile(word);
    }
    let (argument, rest) = next_argument(rest);
    let (second, rest) = next_argument(rest);
    let given = [argument, second, next_argument(rest).0];
    match given.get(verb.arguments()) {
        Some([]) | None => verb.with(argument, second),
        Some(_) => Directive::TooLong(word),
    }
}

fn is_seat(word: &[u8]) -> bool
    ensures { result ≡ is_seat word.now }
{
    match word.first() {
        Some(byte) => byte.is_ascii_digit(),
        None => false,
    }
}
