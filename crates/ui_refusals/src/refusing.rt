//! A session that refuses a line.

use ui_view::SourceView;

/// A session that refuses a line, of which sentences are made for a person.
#[derive(Clone, Copy)]
pub struct RefusingSession<'a> {
    pub view: SourceView<'a>,
}
