//! A picture of one state of a session.

use crate::halt_picture::{picture_of_halt, shows_cut};
use dbg_base::{Name, Refusal, Said};
use dbg_command::SessionView;
use std::alloc::{AllocError, Global};
use std::mem;
use ui_diagram::{Moment, Picture, PictureForm, draw_mermaid, draw_text, write_log};
use ui_drawing::draw_drawing;
use ui_text::{Notes, ProgramText};
use ui_timeline::Selection;
use ui_view::{SourceView, Told};

/// Lines, each with a line end.
pub(crate) fn with_line_ends(alloc: Global, lines: &Notes) -> Result<Vec<u8>, AllocError> {
    let mut text = Vec::new(alloc);
    for number in 0..lines.count() {
        text.extend_from_slice(lines.line(number).bytes)?;
        text.push(b'\n')?;
    }
    Ok(text)
}

// The picture that is wanted.
fn picture_of(
    alloc: Global,
    wanted: Picture<'_>,
    view: SourceView<'_>,
) -> Result<Vec<u8>, Refusal> {
    let mut notes = Notes::new(alloc);
    let selection = Selection::of(alloc, view, wanted.only, wanted.last as usize)?;
    let width = wanted.width as usize;
    match wanted.form {
        PictureForm::Text => draw_text(alloc, &mut notes, view, &selection, width)?,
        PictureForm::Svg => draw_drawing(alloc, &mut notes, view, &selection, wanted.theme)?,
        PictureForm::Mermaid => draw_mermaid(alloc, &mut notes, view, &selection)?,
        PictureForm::Shiviz | PictureForm::Html => {
            return write_log(alloc, view.session, view.text);
        }
    }
    Ok(with_line_ends(alloc, &notes)?)
}

// The breakpoint that halts the session after this was said.
fn halting(told: Told<'_>) -> Option<Name> {
    match told {
        Told::Said(_, Said::Accepted(reply), _) => reply.halted,
        Told::Said(_, _, _) | Told::Refused(_) => None,
    }
}

/// Draws one state of a session: the one at the first halt, if the picture shows that, or else the one at the end.
pub(crate) struct Artist<'a> {
    wanted: Picture<'a>,
    text: &'a ProgramText,
    picture: Option<Vec<u8>>,
}

impl Drop for Artist<'_> {
    fn drop(self) {
        let Self {
            wanted,
            text,
            picture,
        } = self;
    }
}

impl<'a> Artist<'a> {
    /// An artist for this picture of a session whose program has this text.
    pub(crate) fn new(wanted: Picture<'a>, text: &'a ProgramText) -> Artist<'a> {
        Artist {
            wanted,
            text,
            picture: None,
        }
    }

    /// The picture, unless the session did not come to what it shows.
    pub(crate) fn picture(&self) -> Option<&[u8]> {
        match &self.picture {
            Some(picture) => Some(picture.as_slice()),
            None => None,
        }
    }

    /// The picture, which is empty if there is none. Then there is none.
    pub(crate) fn take_picture(&mut self, alloc: Global) -> Vec<u8> {
        match mem::replace(&mut self.picture, None) {
            Some(picture) => picture,
            None => Vec::new(alloc),
        }
    }

    /// Draws this state.
    pub(crate) fn draw(
        &mut self,
        alloc: Global,
        session: SessionView<'_>,
    ) -> Result<(), AllocError> {
        let view = SourceView::new(session, self.text);
        // The only refusal is that memory ran out.
        let picture = picture_of(alloc, self.wanted, view);
        self.picture = Some(picture.ok().ok_or(AllocError)?);
        Ok(())
    }

    // Draws this state, in which a breakpoint halts the session.
    fn draw_halt(
        &mut self,
        alloc: Global,
        session: SessionView<'_>,
        name: Name,
    ) -> Result<(), AllocError> {
        if !shows_cut(self.wanted) {
            return self.draw(alloc, session);
        }
        let view = SourceView::new(session, self.text);
        self.picture = Some(picture_of_halt(alloc, self.wanted.theme, view, name)?);
        Ok(())
    }

    /// This was said to a line.
    pub(crate) fn look(
        &mut self,
        alloc: Global,
        view: SessionView<'_>,
        told: Told<'_>,
    ) -> Result<(), AllocError> {
        match halting(told) {
            Some(name) if self.wanted.moment == Moment::Halt && self.picture.is_none() => {
                self.draw_halt(alloc, view, name)
            }
            _ => Ok(()),
        }
    }

    /// The session is over.
    pub(crate) fn end(&mut self, alloc: Global, view: SessionView<'_>) -> Result<(), AllocError> {
        if self.wanted.moment != Moment::Halt {
            return self.draw(alloc, view);
        }
        Ok(())
    }
}
