//! The lines of an explanation, made of parts.

use crate::indices::base_length;
use crate::part::{NamedNumber, PackedValue, Part, ShownValue};
use itoa::Buffer;
use shell_io::Style;
use std::alloc::{AllocError, Global};

// The fewest blanks between two columns.
const GAP: usize = 2;

// How many bytes the place of a part has in a text: `{}`.
const HOLE: usize = 2;

// How much more room is made than is needed, in bytes.
const ROOM: usize = 256;

// What is before a line in the text: the end of the line before it, and two blanks.
const BEGIN: &[u8] = b"\n  ";

/// A style that a line has from this byte on, up to the next change.
#[derive(Clone, Copy)]
pub struct StyleChange {
    pub at: usize,
    pub style: Style,
}

/// A line of an explanation, without a line end.
#[derive(Clone, Copy)]
pub struct NoteLine<'a> {
    pub bytes: &'a [u8],
    /// The style in which the line begins.
    pub first_style: Style,
    /// Where the style changes, in order.
    pub changes: &'a [StyleChange],
}

// Where a line begins in the text of all lines, after its two blanks, and in the changes of all lines.
#[derive(Clone, Copy)]
struct LineStart {
    text: usize,
    changes: usize,
    first_style: Style,
}

/// The lines of an explanation. They share one text, so that those which are cleared and filled again need no new memory.
#[derive(Drop)]
pub struct Notes {
    // The text, and blanks after it, as room for more.
    text: Vec<u8>,
    length: usize,
    changes: Vec<StyleChange>,
    starts: Vec<LineStart>,
    // Where the last line begins in the text, and the style of its next bytes.
    last: usize,
    style: Style,
    has_styles: bool,
}

impl Notes {
    /// No line. It does not allocate.
    pub fn new(alloc: Global) -> Notes {
        Notes {
            text: Vec::new(alloc),
            length: 0,
            changes: Vec::new(alloc),
            starts: Vec::new(alloc),
            last: 0,
            style: Style::Plain,
            has_styles: true,
        }
    }

    /// The allocator of the lines.
    pub fn alloc(&self) -> Global {
        *self.text.allocator()
    }

    /// Forgets all lines after so many.
    pub fn truncate(&mut self, count: usize) {
        let end = self.start(count);
        let length = end.text.saturating_sub(BEGIN.len());
        let last = self.length.saturating_add(1).min(self.text.len());
        if let Some(rest) = self.text.as_mut_slice().get_mut(length..last) {
            rest.fill(b' ');
        }
        self.length = length;
        self.changes.truncate(end.changes);
        self.starts.truncate(count);
        self.last = self.start(count.saturating_sub(1)).text;
    }

    /// Forgets all lines. The next ones have styles, or all are plain.
    pub fn begin(&mut self, has_styles: bool) {
        let end = self.length.saturating_add(1);
        if let Some(used) = self.text.as_mut_slice().get_mut(..end) {
            used.fill(b' ');
        }
        self.length = 0;
        self.changes.clear();
        self.starts.clear();
        self.has_styles = has_styles;
    }

    /// How many lines there are.
    pub fn count(&self) -> usize {
        self.starts.len()
    }

    /// How many bytes all lines have, each with two blanks and a line end.
    pub fn length(&self) -> usize {
        self.length
    }

    /// The line of this number, from 0, or an empty one if there is none.
    pub fn line(&self, number: usize) -> NoteLine<'_> {
        let next = self.start(number.saturating_add(1));
        let start = self.start(number);
        let end = next.text.saturating_sub(BEGIN.len());
        NoteLine {
            bytes: self.text.get(start.text..end).unwrap_or(&[]),
            first_style: start.first_style,
            changes: self.changes.get(start.changes..next.changes).unwrap_or(&[]),
        }
    }

    /// The same line after two blanks, and with a line end, once the lines are ended.
    pub fn whole_line(&self, number: usize) -> &[u8] {
        let begin = self.start(number).text.saturating_sub(GAP);
        let next = self.start(number.saturating_add(1));
        self.text
            .get(begin..next.text.saturating_sub(GAP))
            .unwrap_or(&[])
    }

    /// Whether lines have styles.
    pub fn has_styles(&self) -> bool {
        self.has_styles
    }

    // Where the line of this number begins, or would begin.
    fn start(&self, number: usize) -> LineStart {
        match self.starts.get(number) {
            Some(start) => *start,
            None => LineStart {
                text: self.length.saturating_add(BEGIN.len()),
                changes: self.changes.len(),
                first_style: Style::Plain,
            },
        }
    }

    /// How many bytes the last line has.
    pub fn width(&self) -> usize {
        self.length.saturating_sub(self.last)
    }

    /// Puts an end to the last line.
    pub fn end(&mut self) {
        if let Some(end) = self.text.as_mut_slice().get_mut(self.length) {
            *end = b'\n';
        }
    }

    // Appends bytes for which there is no room yet.
    #[cold]
    #[inline(never)]
    fn put_in_new_room(&mut self, bytes: &[u8]) -> Result<(), AllocError> {
        self.text.resize(self.length, b' ')?;
        self.text.extend_from_slice(bytes)?;
        self.length = self.text.len();
        self.text.resize(self.length.saturating_add(ROOM), b' ')
    }

    // Appends bytes. After them there is room for one more.
    #[inline(always)]
    fn put_bytes(&mut self, bytes: &[u8]) -> Result<(), AllocError> {
        match self.length.checked_add(bytes.len()) {
            Some(to) if to < self.text.len() => {
                if let Some(place) = self.text.as_mut_slice().get_mut(self.length..to) {
                    place.copy_from_slice(bytes);
                    self.length = to;
                }
                Ok(())
            }
            _ => self.put_in_new_room(bytes),
        }
    }

    // From this byte on, the last line has this style.
    fn change_style(&mut self, at: usize, style: Style) -> Result<(), AllocError> {
        self.style = style;
        Ok(self.changes.push(StyleChange { at, style })?)
    }

    // Appends bytes in a style. The bytes after them have the style before.
    fn put_styled(&mut self, style: Style, bytes: &[u8]) -> Result<(), AllocError> {
        let before = self.style;
        self.change_style(self.width(), style)?;
        self.put_bytes(bytes)?;
        self.change_style(self.width(), before)
    }

    // Appends a number by way of a buffer.
    #[inline(never)]
    fn put_digits(&mut self, number: i64) -> Result<(), AllocError> {
        self.put_bytes(Buffer::new().format(number).as_bytes())
    }

    // Appends a number. Most are of one digit.
    fn put_number(&mut self, number: i64) -> Result<(), AllocError> {
        match u8::try_from(number) {
            Ok(digit) if digit < 10 => self.put_bytes(&[b'0' + digit]),
            _ => self.put_digits(number),
        }
    }

    // Appends a number of events.
    #[inline(never)]
    fn put_events(&mut self, count: u32) -> Result<(), AllocError> {
        self.put_number(i64::from(count))?;
        let word = if count == 1 { " event" } else { " events" };
        self.put_bytes(word.as_bytes())
    }

    // Appends a plain name, with the indices at its end in brackets.
    fn put_indexed(&mut self, name: &[u8]) -> Result<(), AllocError> {
        let length = base_length(name);
        self.put_bytes(name.get(..length).unwrap_or(name))?;
        let indices = name.get(length..).unwrap_or(&[]);
        for index in indices.split(|byte| *byte == b'_').skip(1) {
            self.put_bytes(b"[")?;
            self.put_bytes(index)?;
            self.put_bytes(b"]")?;
        }
        Ok(())
    }

    // Appends a number, or its name.
    fn put_named(&mut self, named: NamedNumber<'_>) -> Result<(), AllocError> {
        match named.name {
            Some(name) => self.put_bytes(name),
            None => self.put_number(named.number),
        }
    }

    // Appends the type of a message, and its fields in parentheses.
    #[inline(never)]
    fn put_packed(&mut self, packed: &PackedValue<'_>) -> Result<(), AllocError> {
        self.put_bytes(packed.name())?;
        let mut before = b"(";
        for at in 0..packed.len() {
            self.put_bytes(before)?;
            before = b",";
            self.put_named(packed.field(at))?;
        }
        self.put_bytes(if packed.len() == 0 { b"()" } else { b")" })
    }

    // Appends what is shown for a value.
    fn put_shown(&mut self, shown: &ShownValue<'_>) -> Result<(), AllocError> {
        match shown {
            ShownValue::Plain(named) => self.put_named(*named),
            ShownValue::Packed(packed) => self.put_packed(packed),
        }
    }

    // Appends a new value in its style.
    fn put_new_value(&mut self, shown: &ShownValue<'_>) -> Result<(), AllocError> {
        let before = self.style;
        self.change_style(self.width(), Style::Value)?;
        self.put_shown(shown)?;
        self.change_style(self.width(), before)
    }

    /// Appends a part to the last line.
    #[inline(always)]
    pub fn put(&mut self, part: &Part<'_>) -> Result<(), AllocError> {
        match part {
            Part::Text(words) => self.put_bytes(words.as_bytes()),
            Part::Bytes(bytes) => self.put_bytes(bytes),
            Part::Name(name) => self.put_bytes(name.bytes()),
            Part::Indexed(name) => self.put_indexed(name.bytes()),
            Part::Number(number) => self.put_number(*number),
            Part::Natural(number) => self.put_number(i64::from(*number)),
            Part::Events(count) => self.put_events(*count),
            Part::Count(count) => self.put_number(i64::try_from(*count).unwrap_or(i64::MAX)),
            Part::Process(name, number) if self.has_styles => {
                self.put_styled(Style::Process(*number), name)
            }
            Part::Process(name, _) => self.put_bytes(name),
            Part::Shown(shown) => self.put_shown(shown),
            Part::Value(shown) if self.has_styles => self.put_new_value(shown),
            Part::Value(shown) => self.put_shown(shown),
        }
    }

    /// Begins a line with this text.
    pub fn say(&mut self, text: &str) -> Result<(), AllocError> {
        self.begin_line(Style::Plain)?;
        self.add(text)
    }

    /// Begins a line with this text, in which each `{}` is replaced by the next of these parts.
    pub fn say_with(&mut self, text: &str, parts: &[Part<'_>]) -> Result<(), AllocError> {
        self.begin_line(Style::Plain)?;
        self.add_with(text, parts)
    }

    /// Begins a line in this style.
    #[inline(always)]
    pub fn begin_line(&mut self, style: Style) -> Result<(), AllocError> {
        self.style = style;
        self.last = self.length.saturating_add(BEGIN.len());
        self.starts.push(LineStart {
            text: self.last,
            changes: self.changes.len(),
            first_style: style,
        })?;
        self.put_bytes(BEGIN)
    }

    /// Appends this text to the last line.
    pub fn add(&mut self, text: &str) -> Result<(), AllocError> {
        self.put_bytes(text.as_bytes())
    }

    /// Appends this text to the last line in a style, unless lines are plain.
    pub fn add_in(&mut self, style: Style, text: &str) -> Result<(), AllocError> {
        if self.has_styles {
            self.put_styled(style, text.as_bytes())
        } else {
            self.add(text)
        }
    }

    /// Appends this text to the last line, in which each `{}` is replaced by the next of these parts. The text has no other braces.
    pub fn add_with(&mut self, text: &str, parts: &[Part<'_>]) -> Result<(), AllocError> {
        let mut rest = text.as_bytes();
        for part in parts {
            let length = rest.iter().take_while(|byte| **byte != b'{').count();
            self.put_bytes(rest.get(..length).unwrap_or(rest))?;
            self.put(part)?;
            rest = rest.get(length.saturating_add(HOLE)..).unwrap_or(&[]);
        }
        self.put_bytes(rest)
    }

    /// Appends blanks to the last line, up to this width and at least two.
    pub fn tab(&mut self, width: usize) -> Result<(), AllocError> {
        let to = self.last.saturating_add(width);
        let to = to.max(self.length.saturating_add(GAP));
        if to >= self.text.len() {
            self.text.resize(to.saturating_add(ROOM), b' ')?;
        }
        self.length = to;
        Ok(())
    }

    /// The same. From the last two blanks on, the line has this style.
    pub fn tab_in(&mut self, style: Style, width: usize) -> Result<(), AllocError> {
        self.tab(width)?;
        if !self.has_styles {
            return Ok(());
        }
        self.change_style(self.width().saturating_sub(GAP), style)
    }
}
