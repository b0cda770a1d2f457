//! Draws the page of a session.

use crate::artist::Artist;
use dbg_base::{Call, Said};
use dbg_command::SessionView;
use proc_tree::Program;
use shell_io::Sink;
use shell_parse::next_word;
use shell_print::ServeFault;
use std::alloc::{AllocError, Global};
use ui_diagram::{ALL_EVENTS, Moment, Picture, PictureForm};
use ui_page::{Incomplete, Recorder, write_page};
use ui_repl::{AnsweredLine, ExpandedLine, Sentences, WrittenProgram};
use ui_text::Notes;
use ui_view::{Explainer, Told};

// How wide the drawing is that readers without scripts see, in characters.
const WIDTH: u32 = 100;

// How many characters a line of an explanation has at most. A page wraps it.
const LINE: usize = 1_000;

// Whether nothing was accepted or answered.
fn is_refused(told: Told<'_>) -> bool {
    matches!(told, Told::Refused(_) | Told::Said(_, Said::Refused(_), _))
}

/// Records a session for its page, with an explanation of each refusal. Draws what readers without scripts see, as text: the state at the first
/// halt, or else the one at the end.
#[derive(Drop)]
pub(crate) struct PageDrawer<'a> {
    recorder: Recorder<'a>,
    sentences: Sentences<'a>,
    artist: Artist<'a>,
    is_model: bool,
}

impl<'a> PageDrawer<'a> {
    /// A drawer of the page of a session in which no line was answered.
    pub(crate) fn new(
        alloc: Global,
        wanted: Picture<'a>,
        program: &Program,
        written: &'a WrittenProgram,
    ) -> PageDrawer<'a> {
        let drawing = Picture {
            form: PictureForm::Text,
            moment: Moment::Halt,
            only: None,
            is_whole: true,
            width: WIDTH,
            last: ALL_EVENTS,
            theme: wanted.theme,
        };
        PageDrawer {
            recorder: Recorder::new(alloc, program, written.text()),
            sentences: Sentences::new(alloc, written, Some(LINE)),
            artist: Artist::new(drawing, written.text()),
            is_model: written.text().is_model(),
        }
    }

    // The line as the page shows it: in a model as its author wrote it, unless it makes a line for each member of a range.
    fn shown<'x>(&self, line: &ExpandedLine<'x>) -> &'x [u8] {
        if self.is_model && next_word(line.written).0 != b"for".as_slice() {
            return line.written;
        }
        line.played.unwrap_or(line.written)
    }

    /// A line is about to be answered.
    pub(crate) fn hear(&mut self, line: &ExpandedLine<'_>) {
        let shown = self.shown(line);
        self.recorder.begin_line(shown);
    }

    /// A call is about to be made.
    pub(crate) fn prepare(&mut self, view: SessionView<'_>, call: &Call, notes: &mut Notes) {
        self.recorder.prepare(view, call);
        self.sentences.prepare(view, call, notes);
    }

    /// This was said to a line.
    pub(crate) fn explain(
        &mut self,
        line: &AnsweredLine<'_>,
        notes: &mut Notes,
    ) -> Result<(), AllocError> {
        self.artist.look(notes.alloc(), line.view, line.told)?;
        if is_refused(line.told) {
            self.sentences.explain(line, notes)?;
            self.recorder.explain_line(notes);
        }
        self.recorder
            .end_line(line.view, line.told, line.replies.shown);
        Ok(())
    }

    /// The session is over.
    pub(crate) fn end(&mut self, alloc: Global, view: SessionView<'_>) -> Result<(), AllocError> {
        match self.artist.picture() {
            Some(_) => Ok(()),
            None => self.artist.draw(alloc, view),
        }
    }

    /// Writes the page, unless something was not recorded.
    pub(crate) fn write<W: Sink>(
        &mut self,
        alloc: Global,
        writer: &mut W,
    ) -> Result<Result<(), Incomplete>, ServeFault> {
        let drawing = self.artist.take_picture(alloc);
        match self.recorder.session() {
            Ok(page) => {
                write_page(&page, drawing.as_slice(), writer)?;
                Ok(Ok(()))
            }
            Err(incomplete) => Ok(Err(incomplete)),
        }
    }
}
