//! The command words and directives, with what each does.

use crate::notes::Notes;
use crate::numbers::meaning;
use crate::part::Part;
use std::alloc::{AllocError, Global};
use strsim::osa_distance;

// The commands, which make calls: the form of the line, after the seat, and what the line does. Words in brackets, and those after a `;`, may
// be missing. `..` means more words.
static COMMANDS: [&str; 20] = [
    "`next P [N]`: process P makes its first command that fires, up to N times: a refusal or a halt ends that",
    "`step P K`: process P makes its command K: a number, from 0, or in a model a label",
    "`undo P`: undoes P's last event",
    "`redo P`: P makes the command at its place again",
    "`rollback P N`: P goes back to its first N events, and the others no further than they must",
    "`break B P E [P E ..]`: sets the breakpoint B: E has to hold in P, and so on for each pair",
    "`goto B`: all processes go back to B's cut",
    "`pass B`: B no longer halts the session",
    "`arm B`: B halts the session again",
    "`clear B`: removes B",
    "`batch C ; C ..`: gives up to 32 of the commands above as one",
    "`back`: takes back the last accepted command, if the same seat gave it",
    "`vars P`: shows the values of P's variables",
    "`chan P Q`: shows the messages on their way from P to Q",
    "`clock P`: shows how many events of each process come before P's state",
    "`place P`: shows how many events P has, and how many with its redo list",
    "`can P`: shows whether P's last event may be undone",
    "`cut B`: shows the least global state in which B holds",
    "`why B`: shows how far the search for B's cut came",
    "`breaks`: shows all breakpoints, and whether they are armed",
];

// The lines that an interactive session answers itself.
static DIRECTIVES: [&str; 10] = [
    "`on [P]`: shows which commands can fire now, of all processes or of P",
    "`list [P]`: shows all commands, and what prevents each from firing",
    "`state [P]`: shows all variables and counts, and the messages on their way",
    "`line P`: shows the events of P, and what it can redo",
    "`draw`: draws a picture: a column for each process, events downward",
    "`how P N`: says what led to P's N-th event, what it led to, and what undoes it",
    "`from P X`: says where the value of P's variable X came from, the last step first",
    "`session`: shows the lines that lead to the present state, to keep them or to play them again",
    "`help [WORD]`: shows these lines, or what a command or the number of a refusal means; so does `?`",
    "`quit`: ends the session; so do `exit` and `q`",
];

// What `for` means before a line of a model.
static FOR: &str =
    "`for I: LOW..HIGH : LINE`: gives LINE for each number I, as in `for i: 1..3 : next p[i]`; in a model";

// The word that this one is another word for, or the word itself.
fn full_word(word: &[u8]) -> &[u8] {
    match word {
        b"?" => b"help",
        b"exit" | b"q" => b"quit",
        _ => word,
    }
}

// The form of this line of the help: what is between its first two backquotes.
fn form_of(line: &'static str) -> &'static str {
    line.split('`').nth(1).unwrap_or(line)
}

// The word with which the form of this line of the help begins.
fn word_of(line: &'static str) -> &'static str {
    form_of(line).split(' ').next().unwrap_or(line)
}

// Whether the form of this line of the help begins with these bytes.
fn is_begun_by(line: &str, bytes: &[u8]) -> bool {
    let form = line.as_bytes().get(1..).unwrap_or(&[]);
    form.starts_with(bytes)
}

// Whether this line of the help is about the command or directive of this name. Most lines begin with another byte.
fn is_about(line: &str, word: &[u8]) -> bool {
    let end = line.as_bytes().get(word.len().saturating_add(1));
    let begins_alike = line.as_bytes().get(1) == word.first();
    begins_alike && matches!(end, Some(b' ' | b'`')) && is_begun_by(line, word)
}

// The line of the help about the command or directive of this name.
fn line_about(word: &[u8]) -> Option<&'static str> {
    let mut lines = COMMANDS.iter().chain(&DIRECTIVES).copied();
    lines.find(|line| is_about(line, word))
}

// The same for a word that may be another word for it.
fn help_line(word: &[u8]) -> Option<&'static str> {
    line_about(word).or_else(|| line_about(full_word(word)))
}

// Whether so many words may follow the first word of this form.
fn takes(form: &str, arguments: usize) -> bool {
    let least = form
        .split(' ')
        .skip(1)
        .take_while(|word| !word.starts_with('[') && *word != ";")
        .count();
    let most = form.split(' ').skip(1).count();
    least <= arguments && (arguments <= most || form.contains(".."))
}

// Whether this line of the help is about a word that is short only where no other word is, so that older short lines keep their meaning.
fn is_late(line: &str) -> bool {
    is_about(line, b"session") || is_about(line, b"how") || is_about(line, b"from")
}

// Whether another word than one of these is short in this way, so that they are not.
fn is_taken(word: &[u8]) -> bool {
    let lines = COMMANDS.iter().chain(&DIRECTIVES);
    let mut older = lines.filter(|line| !is_late(line));
    older.any(|line| is_begun_by(line, word))
}

/// Whether this is a command or directive.
pub fn is_whole_word(word: &[u8]) -> bool {
    help_line(word).is_some()
}

/// The command or directive of which this word is the start, if there is exactly one that can have so many more words. The newest directives
/// give way to all other words.
pub fn whole_word(word: &[u8], arguments: usize) -> Option<&'static str> {
    if word.is_empty() {
        return None;
    }
    let is_taken = is_taken(word);
    let mut found = None;
    for line in COMMANDS.iter().chain(&DIRECTIVES) {
        let is_found = is_begun_by(line, word) && takes(form_of(line), arguments);
        if is_found && !(is_taken && is_late(line)) {
            match found {
                None => found = Some(word_of(line)),
                Some(_) => return None,
            }
        }
    }
    found
}

/// Whether a word begins a line that an interactive session answers itself.
pub fn is_directive_word(word: &[u8]) -> bool {
    let full = full_word(word);
    DIRECTIVES.iter().any(|line| is_about(line, full))
}

// The value of a number of one or two digits.
fn small_number(word: &[u8]) -> Option<u32> {
    if word.len() > 2 || !word.iter().all(|byte| byte.is_ascii_digit()) {
        return None;
    }
    str::from_utf8(word).ok()?.parse::<u32>().ok()
}

/// Shows the form of the command that begins with this word. False if there is none.
pub fn tell_word(notes: &mut Notes, word: &[u8]) -> Result<bool, AllocError> {
    let found = help_line(word).or(is_about(FOR, word).then_some(FOR));
    if let Some(line) = found {
        notes.say(line)?;
    }
    Ok(found.is_some())
}

/// Whether one text becomes the other by at most one edit: a character is replaced, removed or inserted, or two neighbours are swapped
/// (optimal string alignment). Error: memory ran out.
pub(crate) fn are_near(alloc: Global, one: &[u8], other: &[u8]) -> Result<bool, AllocError> {
    let (Ok(one), Ok(other)) = (str::from_utf8(one), str::from_utf8(other)) else {
        return Ok(false);
    };
    Ok(one.len().abs_diff(other.len()) <= 1 && osa_distance(alloc, one, other)? <= 1)
}

/// Begins a line with a word and these words, of which the first byte is the backquote after the word.
pub(crate) fn say_of_word(
    notes: &mut Notes,
    word: &[u8],
    words: &'static str,
) -> Result<(), AllocError> {
    notes.say_with("`{}{}", &[Part::Bytes(word), Part::Text(words)])
}

// Shows the commands that this word begins. False if there are none.
fn tell_begun(notes: &mut Notes, word: &[u8]) -> Result<bool, AllocError> {
    let mut is_begun = false;
    for line in COMMANDS.iter().chain(&DIRECTIVES) {
        if !is_begun_by(line, word) {
            continue;
        }
        if !is_begun {
            let words = "` is short for more than one command, or has the wrong words after it:";
            say_of_word(notes, word, words)?;
        }
        notes.say(line)?;
        is_begun = true;
    }
    Ok(is_begun)
}

/// Says which command was probably meant by a word that begins none.
pub fn tell_near_word(notes: &mut Notes, word: &[u8]) -> Result<(), AllocError> {
    if tell_begun(notes, word)? {
        return Ok(());
    }
    for line in COMMANDS.iter().chain(&DIRECTIVES) {
        if are_near(notes.alloc(), word_of(line).as_bytes(), word)? {
            say_of_word(notes, word, "` is not a command; did you mean this one?")?;
            return notes.say(line);
        }
    }
    say_of_word(notes, word, "` is not a command; `help` lists the commands")
}

/// Says that a line which begins with this word has a word too many, and shows its form.
pub fn tell_too_long(notes: &mut Notes, word: &[u8]) -> Result<(), AllocError> {
    notes.say("the line has a word too many")?;
    let _found = tell_word(notes, word)?;
    Ok(())
}

/// Says that a directive, which begins with this word, writes no file.
pub fn tell_to_file(notes: &mut Notes, word: &[u8]) -> Result<(), AllocError> {
    say_of_word(notes, word, "` is answered here, and writes no file")?;
    let words = if word == b"draw".as_slice() {
        "`rdbg draw SESSION > FILE` writes the picture into one"
    } else {
        "`rdbg talk SESSION > FILE` writes a session with its answers into one"
    };
    notes.say(words)
}

/// Shows the lines that can be typed, or what a word or the number of a refusal means.
pub fn tell_help(notes: &mut Notes, word: &[u8]) -> Result<(), AllocError> {
    if word.is_empty() {
        notes.say(
            "a line is a seat, from 1 to 16, and a command; a line without a seat is one of seat 1",
        )?;
        for line in COMMANDS.iter().chain(&DIRECTIVES) {
            notes.say(line)?;
        }
        return notes.say("`#` begins a comment");
    }
    if let Some(number) = small_number(word) {
        return notes.say(meaning(number));
    }
    if !tell_word(notes, word)? {
        tell_near_word(notes, word)?;
    }
    Ok(())
}
