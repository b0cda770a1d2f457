//! A picture of a halt.

use crate::artist::with_line_ends;
use dbg_base::{Cut, Name};
use least_cut::Detector;
use std::alloc::{AllocError, Global};
use ui_diagram::{Picture, PictureForm};
use ui_explain::ExplainedSession;
use ui_halt::Halt;
use ui_lanes::{HaltScene, draw_halt};
use ui_text::Notes;
use ui_timeline::Theme;
use ui_view::SourceView;

/// Whether a picture of a halt in this form shows the cut alone.
pub(crate) fn shows_cut(wanted: Picture<'_>) -> bool {
    !wanted.is_whole && wanted.form == PictureForm::Svg
}

// Draws a halt in these colours.
fn draw(
    notes: &mut Notes,
    theme: Theme,
    view: SourceView<'_>,
    name: Name,
    detector: &Detector,
    cut: &Cut,
) -> Result<(), AllocError> {
    let halt = Halt::of(notes.alloc(), view.session.world, detector, cut)?;
    let mut sentences = Notes::new(notes.alloc());
    sentences.begin(false);
    ExplainedSession { view }.tell_why(&mut sentences, name, detector, cut, &halt)?;
    let scene = HaltScene {
        view,
        name,
        detector,
        cut,
        halt: &halt,
        sentences: &sentences,
        theme,
    };
    draw_halt(notes, &scene)
}

/// The drawing of the halt by this breakpoint, in these colours. It is empty if the breakpoint has no cut.
pub(crate) fn picture_of_halt(
    alloc: Global,
    theme: Theme,
    view: SourceView<'_>,
    name: Name,
) -> Result<Vec<u8>, AllocError> {
    let mut notes = Notes::new(alloc);
    notes.begin(false);
    if let Some(detector) = view.detector_of(name) {
        if let Some(cut) = detector.cut() {
            draw(&mut notes, theme, view, name, detector, cut)?;
        }
    }
    with_line_ends(alloc, &notes)
}
