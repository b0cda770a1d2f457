//! Faults in words: what is wrong, and what was probably meant.

use dbg_base::FaultKind;
use notation_tree::fault::{Expected, Fault, Meaning, Problem};
use notation_tree::token::{Mark, mark_text, part};
use std::alloc::{AllocError, Global};

// What is expected.
fn expected_text(expected: Expected) -> &'static str {
    match expected {
        Expected::Mark(mark) => mark_text(mark),
        Expected::Name => "a name",
        Expected::Expression => "an expression",
        Expected::Declaration => "`const`, `let`, `enum`, `message` or `process`",
        Expected::Item => "an item or `}`",
        Expected::When => "`when`",
        Expected::Action => "`send`, `recv` or an assignment",
        Expected::Case => "`when`, `else` or the label of a case",
        Expected::End => "the end of the text",
    }
}

// What has the name already.
fn meaning_text(meaning: Meaning) -> &'static str {
    match meaning {
        Meaning::Constant => "a constant has this name already",
        Meaning::Definition => "a definition has this name already",
        Meaning::Member => "a member of a range has this name already",
        Meaning::Parameter => "another parameter has this name already",
        Meaning::Variable => "a variable has this name already",
        Meaning::Type => "an enum or a message has this name already",
        Meaning::Field => "another field of the message has this name",
    }
}

// What the process language finds.
fn plain_text(kind: FaultKind) -> &'static str {
    match kind {
        FaultKind::Byte => "no word and no sign begins with this byte",
        FaultKind::Token =>
            "a name has at most 32 bytes, and a number is at most 9223372036854775807",
        FaultKind::Grammar => "this cannot stand here in the process language",
        FaultKind::NameTaken => "the name is taken",
        FaultKind::NameUnknown => "nothing has this name",
        FaultKind::TypeWrong =>
            "a number is used where a truth value is expected, or a truth value where a number is",
        FaultKind::Limit => "there are too many of these",
        FaultKind::SelfSend =>
            "a process does not send to itself, and does not receive from itself",
        FaultKind::SetTwice => "the command sets this variable already",
    }
}

// The words of a problem that needs no name and no number.
fn problem_text(problem: Problem) -> &'static str {
    match problem {
        Problem::Byte => "no word and no sign begins with this byte",
        Problem::LongWord => "a word has at most 32 bytes",
        Problem::LargeNumber => "a number is at most 9223372036854775807",
        Problem::Expected(expected) => expected_text(expected),
        Problem::ComparisonChain => "comparisons do not chain",
        Problem::FormName => "a definition cannot have the name of a form",
        Problem::NameTaken(meaning) => meaning_text(meaning),
        Problem::NotADefinition => "no definition has this name",
        Problem::Arguments { .. } => "the definition has another number of parameters",
        Problem::VariableComputed =>
            "the value is computed before the session, so it cannot depend on a variable",
        Problem::CountComputed =>
            "the value is computed before the session, so it cannot depend on messages",
        Problem::NumberExpected => "a number is expected, and this is a truth value",
        Problem::TruthExpected => "a truth value is expected, and this is a number",
        Problem::Overflow => "the result is not a number of 64 bits",
        Problem::DivisionByZero => "division by 0",
        Problem::BelowZero => "an index in a name cannot be below 0",
        Problem::NoType => "no enum and no message has this name",
        Problem::NoField =>
            "no message has this field, or not the one that the variable is declared with",
        Problem::FieldOfSeveral => "several messages have this field",
        Problem::EmptyRange => "the range of a field has at least one value",
        Problem::OtherEnum => "this is a constant of another enum",
        Problem::ReadsReceived =>
            "the guard of a case is looked at before the message is there, so it cannot read what the case receives",
        Problem::CaseAfterElse => "no case follows `else`",
        Problem::LabelTaken => "another command of the process has this label",
        Problem::NoLabel => "no command of the process has this label",
        Problem::ManyParameters => "a definition has at most 64 parameters",
        Problem::DeepNesting => "at most 128 brackets and 64 `for` can be open at once",
        Problem::DeepUnfolding => "definitions are put into one another more than 512 deep",
        Problem::LongText => "the plain text would have more than 1048576 bytes",
        Problem::MuchWork => "the expansion takes more than 2000000 steps",
        Problem::SessionWork => "the lines of a session take more than 10000000 steps",
        Problem::ManyCopies =>
            "one line expands to at most 65536 plain lines, and a breakpoint has at most as many parts",
        Problem::Plain(kind) => plain_text(kind),
        Problem::Disagreement =>
            "the plain text that rdbg made is not what this text means: this is a fault of rdbg, and not of the text",
    }
}

// What was probably meant where something else is expected.
fn likely_instead(expected: Expected) -> Option<&'static str> {
    match expected {
        Expected::Mark(Mark::Becomes) => Some("a command sets a variable by `:=`; `=` compares"),
        Expected::Mark(Mark::CloseBracket) => Some("a `]` is missing"),
        Expected::Mark(Mark::CloseParenthesis) => Some("a `)` or an operator is missing"),
        Expected::Mark(Mark::Semicolon) => Some("a `;` or an operator is missing"),
        Expected::Mark(Mark::Range) => Some("a range is `1..3`"),
        Expected::Name => Some(
            "a name is a small letter, and then small letters, digits and `_`; words of the language are no names",
        ),
        Expected::Declaration => Some(
            "a model is made of constants, definitions, enums, messages and processes",
        ),
        Expected::Item => Some(
            "an item begins with `const`, `let`, `var`, `when`, a label and `:`, or `for`",
        ),
        Expected::When => Some("a label is before its command: `NAME: when ..`"),
        Expected::Action => Some(
            "a command sends or receives once at most, and first; then it assigns: `X := E`, with commas between",
        ),
        _ => None,
    }
}

/// What was probably meant, where that can be said.
pub fn likely(problem: Problem) -> Option<&'static str> {
    match problem {
        Problem::Byte => {
            Some("the words are `and`, `or`, `not`; unequal is `!=`; a range is `1..3`")
        }
        Problem::Expected(expected) => likely_instead(expected),
        Problem::ComparisonChain => Some("join two comparisons by `and`: `a < b and b < c`"),
        Problem::FormName => Some(
            "`all`, `some`, `sum` and `at_least` join the members of a range",
        ),
        Problem::NameTaken(_) => Some("choose another name: one name has one meaning"),
        Problem::NotADefinition => Some("define it before: `let NAME(PARAMETER) = EXPRESSION;`"),
        Problem::VariableComputed | Problem::CountComputed => {
            Some("use numbers, constants, members of ranges and definitions of these")
        }
        Problem::NoType => {
            Some("declare it before: `enum NAME { ONE, OTHER }` or `message NAME { FIELD: 0..9 }`")
        }
        Problem::FieldOfSeveral => {
            Some("declare the variable with its message: `var NAME: MESSAGE = ..`")
        }
        Problem::LabelTaken => Some(
            "a label in a `for` has the values of its members as indices; otherwise choose another name",
        ),
        Problem::NoLabel => Some(
            "a label has the values of the members of each `for` around it: `hear[2]`",
        ),
        Problem::LongText | Problem::MuchWork | Problem::SessionWork | Problem::ManyCopies => {
            Some("a range is too large")
        }
        Problem::Plain(FaultKind::Limit) => Some(
            "a program has at most 32 processes, and a process 32 variables and 64 commands; 32 parentheses can be open",
        ),
        _ => None,
    }
}

// What is wrong.
fn problem_line(alloc: Global, problem: Problem) -> Result<String, AllocError> {
    let text = problem_text(problem);
    match problem {
        Problem::Expected(Expected::Mark(_)) => format!(in alloc; "`{text}` is expected here"),
        Problem::Expected(_) => format!(in alloc; "{text} is expected here"),
        Problem::Arguments { wanted, found } => {
            format!(in alloc; "{text}: {wanted}, and here are {found}")
        }
        _ => format!(in alloc; "{text}"),
    }
}

// Appends in which copy a fault is.
fn put_members(line: &mut Vec<u8>, alloc: Global, fault: &Fault) -> Result<(), AllocError> {
    let mut joint = ", in the copy with ";
    for member in fault.members() {
        line.extend_from_slice(joint.as_bytes())?;
        line.extend_from_slice(member.name.bytes())?;
        let value = format!(in alloc; " = {}", member.value)?;
        line.extend_from_slice(value.as_bytes())?;
        joint = ", ";
    }
    Ok(())
}

/// The line and the column of an offset, each from 1.
pub fn line_and_column(text: &[u8], at: usize) -> (usize, usize) {
    let mut line = 1usize;
    let mut column = 1usize;
    for byte in text.iter().take(at) {
        if *byte == b'\n' {
            line = line.saturating_add(1);
            column = 1;
        } else {
            column = column.saturating_add(1);
        }
    }
    (line, column)
}

// The first byte of the line of an offset, and how many bytes the line has.
fn line_bytes(text: &[u8], at: usize) -> (usize, usize) {
    let mut from = 0usize;
    for line in text.split(|byte| *byte == b'\n') {
        let to = from.saturating_add(line.len());
        if at <= to {
            return (from, line.len());
        }
        from = to.saturating_add(1);
    }
    (text.len(), 0)
}

// The line of an offset, and below it a mark under the place.
fn put_marked(
    lines: &mut Vec<Vec<u8>>,
    alloc: Global,
    text: &[u8],
    at: usize,
) -> Result<(), AllocError> {
    let (from, length) = line_bytes(text, at);
    let line = part(text, from, length).trim_ascii_end();
    lines.push(Vec::from_slice(alloc, line)?)?;
    let mut mark = Vec::new(alloc);
    for byte in line.iter().take(at.saturating_sub(from)) {
        mark.push(if *byte == b'\t' { b'\t' } else { b' ' })?;
    }
    mark.push(b'^')?;
    lines.push(mark)?;
    Ok(())
}

/// A fault of this text, which follows so many lines, for a person, line by line: the line and the column, the line of the text with a mark
/// under the place, what is wrong and in which copy, and what was probably meant.
pub fn message(
    alloc: Global,
    before: usize,
    text: &[u8],
    fault: &Fault,
) -> Result<Vec<Vec<u8>>, AllocError> {
    let (line, column) = line_and_column(text, fault.at());
    let line = line.saturating_add(before);
    let mut lines = Vec::new(alloc);
    lines.push(format!(in alloc; "line {line}, column {column}")?.into_bytes())?;
    put_marked(&mut lines, alloc, text, fault.at())?;
    let mut wrong = problem_line(alloc, fault.problem())?.into_bytes();
    put_members(&mut wrong, alloc, fault)?;
    lines.push(wrong)?;
    if let Some(meant) = likely(fault.problem()) {
        lines.push(Vec::from_slice(alloc, meant.as_bytes())?)?;
    }
    Ok(lines)
}
