//! Draws a session: one state of it, or a page to go through it.

use crate::artist::Artist;
use crate::page_drawer::PageDrawer;
use dbg_base::Call;
use dbg_command::SessionView;
use proc_tree::Program;
use std::alloc::{AllocError, Global};
use ui_diagram::{Picture, PictureForm};
use ui_repl::{AnsweredLine, ExpandedLine, LineFault, WrittenProgram};
use ui_text::Notes;
use ui_view::{Echo, Explainer};

/// An explainer that draws a session.
#[derive(Drop)]
pub(crate) enum Drawer<'a> {
    State(Artist<'a>),
    Page(PageDrawer<'a>),
}

impl<'a> Drawer<'a> {
    /// A drawer of this picture of a session in which no line was answered.
    pub(crate) fn new(
        alloc: Global,
        wanted: Picture<'a>,
        program: &Program,
        written: &'a WrittenProgram,
    ) -> Drawer<'a> {
        match wanted.form {
            PictureForm::Html => Drawer::Page(PageDrawer::new(alloc, wanted, program, written)),
            _ => Drawer::State(Artist::new(wanted, written.text())),
        }
    }
}

impl Explainer<Option<LineFault>> for Drawer<'_> {
    fn keeps_replies(&self) -> bool {
        matches!(self, Drawer::Page(_))
    }

    fn hear(&mut self, line: &ExpandedLine<'_>) -> Result<Echo, AllocError> {
        if let Drawer::Page(page) = self {
            page.hear(line);
        }
        Ok(Echo::Nothing)
    }

    fn prepare(&mut self, view: SessionView<'_>, call: &Call, notes: &mut Notes) {
        if let Drawer::Page(page) = self {
            page.prepare(view, call, notes);
        }
    }

    fn explain(&mut self, line: &AnsweredLine<'_>, notes: &mut Notes) -> Result<(), AllocError> {
        match self {
            Drawer::State(artist) => artist.look(notes.alloc(), line.view, line.told),
            Drawer::Page(page) => page.explain(line, notes),
        }
    }

    fn end(&mut self, alloc: Global, view: SessionView<'_>) -> Result<(), AllocError> {
        match self {
            Drawer::State(artist) => artist.end(alloc, view),
            Drawer::Page(page) => page.end(alloc, view),
        }
    }
}
