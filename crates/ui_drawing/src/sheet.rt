//! A space-time diagram as a drawing (SVG): a line downward for each process.

use crate::arrangement::Arrangement;
use crate::labels::EventWords;
use crate::layout::Layout;
use crate::places::WordPlaces;
use dbg_base::Refusal;
use std::alloc::{AllocError, Global};
use ui_text::{Notes, Part};
use ui_timeline::{NamedCut, Selection, ShownEvent, Theme, Timeline, event_of, named_cuts, size};
use ui_view::SourceView;

/// What a drawing shows.
#[derive(Clone, Copy)]
pub(crate) struct Scene<'a> {
    pub(crate) alloc: Global,
    pub(crate) view: SourceView<'a>,
    pub(crate) timeline: &'a Timeline,
    pub(crate) cuts: &'a [NamedCut],
    pub(crate) selection: &'a Selection,
    /// How many events are left out, before those that are shown.
    pub(crate) left: usize,
    /// The events that are shown.
    pub(crate) events: &'a [ShownEvent],
}

/// A drawing that is being made.
#[derive(Clone, Copy)]
pub(crate) struct SvgSheet<'a> {
    pub(crate) scene: Scene<'a>,
    pub(crate) layout: &'a Layout,
    pub(crate) words: &'a [EventWords],
    pub(crate) places: &'a WordPlaces,
    pub(crate) heading: &'a Notes,
    pub(crate) key: &'a Notes,
    /// A number for the names in this drawing, so that a page may have several drawings.
    pub(crate) id: i64,
    pub(crate) theme: Theme,
}

// The next number of a series that differs where what is added differs.
fn mixed(number: u32, added: u32) -> u32 {
    number.wrapping_mul(31).wrapping_add(added)
}

// The last events of the processes of a selection, without so many of the first events.
fn selected_events(
    alloc: Global,
    timeline: &Timeline,
    selection: &Selection,
    left: usize,
) -> Result<Vec<ShownEvent>, AllocError> {
    let mut events = Vec::new(alloc);
    for shown in timeline.last_events(left) {
        if selection.contains(shown.pid) {
            events.push(*shown)?;
        }
    }
    Ok(events)
}

impl Scene<'_> {
    // A number that is the same for the same events.
    fn events_number(&self) -> u32 {
        let mut number = self.processes();
        for shown in self.events {
            number = mixed(number, shown.pid.0);
            if let Some(event) = event_of(self.view.session.world, *shown) {
                number = mixed(number, event.choice().0);
            }
        }
        number
    }

    // A number that is the same for the same cuts.
    fn cuts_number(&self) -> u32 {
        let mut number = 1u32;
        for cut in self.cuts {
            let events = u32::try_from(size(&cut.cut, self.processes())).unwrap_or(0);
            number = mixed(mixed(number, events), u32::from(cut.halts));
        }
        number
    }

    // A number that differs between most drawings.
    fn id(&self) -> i64 {
        i64::from(mixed(self.events_number(), self.cuts_number()))
    }
}

impl SvgSheet<'_> {
    fn say_lines(&self, notes: &mut Notes) -> Result<(), AllocError> {
        for pid in self.scene.selection.pids() {
            self.say_process_line(notes, *pid)?;
        }
        Ok(())
    }

    fn say_cuts(&self, notes: &mut Notes) -> Result<(), AllocError> {
        for cut in self.scene.cuts {
            self.say_cut(notes, cut)?;
        }
        Ok(())
    }

    fn say_arrows(&self, notes: &mut Notes) -> Result<(), AllocError> {
        for shown in self.scene.events {
            self.say_arrow(notes, *shown)?;
        }
        Ok(())
    }

    fn say_events(&self, notes: &mut Notes) -> Result<(), AllocError> {
        for shown in self.scene.events {
            self.say_event(notes, *shown)?;
        }
        Ok(())
    }

    fn say_marks(&self, notes: &mut Notes) -> Result<(), AllocError> {
        for cut in self.scene.cuts {
            self.say_deciding(notes, cut)?;
        }
        Ok(())
    }

    // What the words are written over.
    fn say_shapes(&self, notes: &mut Notes) -> Result<(), AllocError> {
        self.say_inside(notes)?;
        self.say_lines(notes)?;
        self.say_cuts(notes)?;
        self.say_arrows(notes)?;
        self.say_events(notes)?;
        self.say_marks(notes)
    }

    fn say_names(&self, notes: &mut Notes) -> Result<(), AllocError> {
        for pid in self.scene.selection.pids() {
            self.say_process_name(notes, *pid)?;
            self.say_redo_line(notes, *pid)?;
        }
        Ok(())
    }

    fn say_labels(&self, notes: &mut Notes) -> Result<(), AllocError> {
        let events = self.scene.events.iter().zip(self.words);
        for ((shown, words), places) in events.zip(&self.places.events) {
            self.say_arrow_label(notes, words, places.message)?;
            self.say_label(notes, *shown, words, places.label)?;
        }
        Ok(())
    }

    fn say_cut_names(&self, notes: &mut Notes) -> Result<(), AllocError> {
        for (cut, at) in self.scene.cuts.iter().zip(&self.places.names) {
            self.say_cut_name(notes, cut, *at)?;
        }
        Ok(())
    }

    fn say_words(&self, notes: &mut Notes) -> Result<(), AllocError> {
        self.say_heading(notes)?;
        self.say_names(notes)?;
        self.say_labels(notes)?;
        self.say_cut_names(notes)?;
        self.say_legend(notes)
    }
}

// Draws a scene.
fn draw_scene(notes: &mut Notes, scene: Scene<'_>, theme: Theme) -> Result<(), AllocError> {
    let heading = scene.heading()?;
    let key = scene.key()?;
    let words = scene.words()?;
    let arrangement = Arrangement::of(scene, heading.count(), words.as_slice())?;
    let sheet = SvgSheet {
        scene,
        layout: &arrangement.layout,
        words: words.as_slice(),
        places: &arrangement.places,
        heading: &heading,
        key: &key,
        id: scene.id(),
        theme,
    };
    sheet.say_head(notes)?;
    sheet.say_shapes(notes)?;
    sheet.say_words(notes)?;
    notes.say("</svg>")
}

/// Draws a session in its present state, as `draw_text` does, as a drawing (SVG): its lines. Only the events of the processes of
/// the selection are shown, and the last of them.
pub fn draw_drawing(
    alloc: Global,
    notes: &mut Notes,
    view: SourceView<'_>,
    selection: &Selection,
    theme: Theme,
) -> Result<(), Refusal> {
    let mut cuts = named_cuts(alloc, view)?;
    let timeline = Timeline::of(alloc, view.session.world, cuts.as_mut_slice())?;
    let left = timeline.left_out_of(selection, selection.last());
    let events = selected_events(alloc, &timeline, selection, left)?;
    let scene = Scene {
        alloc,
        view,
        timeline: &timeline,
        cuts: cuts.as_slice(),
        selection,
        left,
        events: events.as_slice(),
    };
    Ok(draw_scene(notes, scene, theme)?)
}
