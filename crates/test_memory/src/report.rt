//! What is reported.

use std::fmt::Debug;
use std::io::Write;

/// Reports a result.
pub(crate) fn tell<T: Debug>(name: &str, answer: &T, report: &mut Vec<u8>) {
    let _ = write!(report, "{name}: {answer:?}\n");
}

/// Reports the text that is written for a name.
pub(crate) fn tell_text(name: &str, text: &[u8], report: &mut Vec<u8>) {
    let _ = report.extend_from_slice(name.as_bytes());
    let _ = report.extend_from_slice(b": ");
    let _ = report.extend_from_slice(text);
}
