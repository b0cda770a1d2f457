//! Lists of JSON that are being made.

use dbg_base::Name;
use itoa::Buffer;
use serde_json::Value;
use std::alloc::{AllocError, Global};
use ui_text::{Notes, Part, ShownValue};
use ui_view::SourceView;

/// The items of a list.
#[derive(Drop)]
pub(crate) struct List {
    alloc: Global,
    items: Vec<Value>,
}

// The sign of a byte in a text. For a byte that is not ASCII, or that might end a script, its number is 256 more. So the data are valid UTF-8
// whatever the session has, and a text has no `<`. The script of the page makes bytes of the signs again.
fn sign(byte: u8) -> char {
    match byte {
        b'<' | 0x7f..=0xff => { char::from_u32(u32::from(byte).saturating_add(256)).unwrap_or('?') }
        _ => char::from(byte),
    }
}

/// A text as JSON.
pub(crate) fn text_value(alloc: Global, text: &[u8]) -> Result<Value, AllocError> {
    let mut signs = String::new(alloc);
    for byte in text {
        signs.push(sign(*byte))?;
    }
    Ok(Value::String(signs))
}

impl List {
    pub(crate) fn new(alloc: Global) -> List {
        List {
            alloc,
            items: Vec::new(alloc),
        }
    }

    /// Another list, in the same memory.
    pub(crate) fn another(&self) -> List {
        List::new(self.alloc)
    }

    /// Another list that begins with this word.
    pub(crate) fn another_of(&self, word: &str) -> Result<List, AllocError> {
        let mut list = self.another();
        list.text(word.as_bytes())?;
        Ok(list)
    }

    pub(crate) fn len(&self) -> usize {
        self.items.len()
    }

    /// The whole list.
    pub(crate) fn into_value(self) -> Value {
        Value::Array(self.items)
    }

    pub(crate) fn push(&mut self, value: Value) -> Result<(), AllocError> {
        Ok(self.items.push(value)?)
    }

    pub(crate) fn list(&mut self, list: List) -> Result<(), AllocError> {
        self.push(list.into_value())
    }

    pub(crate) fn number(&mut self, number: i64) -> Result<(), AllocError> {
        self.push(Value::from(number))
    }

    pub(crate) fn count(&mut self, count: usize) -> Result<(), AllocError> {
        self.push(Value::from(count))
    }

    /// How many events of each process there are.
    pub(crate) fn counts(&mut self, counts: &[u32]) -> Result<(), AllocError> {
        let mut list = self.another();
        for count in counts {
            list.number(i64::from(*count))?;
        }
        self.list(list)
    }

    pub(crate) fn text(&mut self, text: &[u8]) -> Result<(), AllocError> {
        let value = text_value(self.alloc, text)?;
        self.push(value)
    }

    /// A value of the language, as a text of digits: it may be larger than a number of a script can be. If a word is shown for it, that
    /// follows a blank.
    pub(crate) fn value(&mut self, value: i64, shown: ShownValue<'_>) -> Result<(), AllocError> {
        if shown.is_number() {
            let mut buffer = Buffer::new();
            return self.text(buffer.format(value).as_bytes());
        }
        let mut words = Notes::new(self.alloc);
        words.say_with("{} {}", &[Part::Number(value), Part::Shown(shown)])?;
        self.text(words.line(0).bytes)
    }

    /// The name of a breakpoint as its author wrote it, or none.
    pub(crate) fn breakpoint(
        &mut self,
        view: SourceView<'_>,
        name: Option<Name>,
    ) -> Result<(), AllocError> {
        let Some(name) = name else {
            return self.push(Value::Null);
        };
        let mut words = Notes::new(self.alloc);
        words.say_with("{}", &[view.breakpoint(name)])?;
        self.text(words.line(0).bytes)
    }
}
