//! A session that is explained.

use ui_view::SourceView;

/// A session of which sentences are made, for a person.
#[derive(Clone, Copy)]
pub struct ExplainedSession<'a> {
    pub view: SourceView<'a>,
}
