//! The cuts of breakpoints that a picture shows, with their predicates in words.

use break_book::Breakpoint;
use dbg_base::{Cut, Name, Pid, Refusal};
use std::alloc::{AllocError, Global};
use ui_text::{Notes, Part, index_count};
use ui_view::SourceView;

/// A cut that is shown, with its breakpoint.
pub struct NamedCut {
    pub name: Name,
    // Whether the indices at the end of the name are shown in brackets.
    is_indexed: bool,
    /// The position of the breakpoint among all, from 0.
    pub place: usize,
    pub cut: Cut,
    /// Whether the breakpoint halts the session.
    pub halts: bool,
    /// Whether the events of the cut are listed before all others.
    pub is_prefix: bool,
    /// The processes that the predicate names.
    pub pids: Vec<Pid>,
    /// The part of the predicate that each of them has, as `left (state = 2)`.
    parts: Notes,
}

impl Drop for NamedCut {
    fn drop(self) {
        let Self {
            name,
            is_indexed,
            place,
            cut,
            halts,
            is_prefix,
            pids,
            parts,
        } = self;
    }
}

/// The first line, if there is one.
pub fn bytes_of(words: &Notes) -> &[u8] {
    words.line(0).bytes
}

/// Appends these lines to the last line, with this between them.
pub fn put_joined(
    notes: &mut Notes,
    lines: &Notes,
    between: &'static str,
) -> Result<(), AllocError> {
    let mut word = "";
    for number in 0..lines.count() {
        let line = Part::Bytes(lines.line(number).bytes);
        notes.add_with("{}{}", &[Part::Text(word), line])?;
        word = between;
    }
    Ok(())
}

// Reads the parts of a predicate.
fn put_parts(
    pids: &mut Vec<Pid>,
    parts: &mut Notes,
    view: SourceView<'_>,
    breakpoint: &Breakpoint,
) -> Result<(), AllocError> {
    for at in 0..view.session.program.processes() {
        let Some((pid, expr)) = breakpoint.detector().conjunct(at as usize) else {
            break;
        };
        let scope = view.scope(pid);
        pids.push(pid)?;
        parts.say_with("{} ", &[scope.name()])?;
        scope.put_expression(parts, expr)?;
    }
    Ok(())
}

// The cut of the breakpoint of this name, if it has one.
fn named_cut(alloc: Global, view: SourceView<'_>, name: Name) -> Result<Option<NamedCut>, Refusal> {
    let Some((place, breakpoint)) = view.session.book.find(name) else {
        return Ok(None);
    };
    let Some(cut) = breakpoint.detector().cut() else {
        return Ok(None);
    };
    let mut pids = Vec::new(alloc);
    let mut parts = Notes::new(alloc);
    put_parts(&mut pids, &mut parts, view, breakpoint)?;
    Ok(Some(NamedCut {
        name,
        is_indexed: view.text.is_model(),
        place,
        cut: cut.copy()?,
        halts: view.session.book.halted() == Some(name),
        is_prefix: false,
        pids,
        parts,
    }))
}

// Appends the cuts of the breakpoints that halt the session, or of the others.
fn put_cuts(
    alloc: Global,
    cuts: &mut Vec<NamedCut>,
    view: SourceView<'_>,
    marks: &[(Name, bool)],
    halts: bool,
) -> Result<(), Refusal> {
    for (name, _) in marks {
        if (view.session.book.halted() == Some(*name)) == halts {
            if let Some(cut) = named_cut(alloc, view, *name)? {
                cuts.push(cut)?;
            }
        }
    }
    Ok(())
}

/// The cuts of the breakpoints, that of the one that halts the session first.
pub fn named_cuts(alloc: Global, view: SourceView<'_>) -> Result<Vec<NamedCut>, Refusal> {
    let marks = view.session.book.list(alloc)?;
    let mut cuts = Vec::new(alloc);
    put_cuts(alloc, &mut cuts, view, marks.items(), true)?;
    put_cuts(alloc, &mut cuts, view, marks.items(), false)?;
    Ok(cuts)
}

/// The cut of the breakpoint that halts the session.
pub fn halting(cuts: &[NamedCut]) -> Option<&NamedCut> {
    match cuts.first() {
        Some(cut) if cut.halts => Some(cut),
        _ => None,
    }
}

/// How many events of so many processes a cut has.
pub fn size(cut: &Cut, processes: u32) -> usize {
    let mut size = 0usize;
    for p in 0..processes {
        size = size.saturating_add(cut.count(Pid(p)) as usize);
    }
    size
}

impl NamedCut {
    /// The name of the breakpoint, as its author wrote it.
    pub fn name(&self) -> Part<'static> {
        if self.is_indexed {
            Part::Indexed(self.name)
        } else {
            Part::Name(self.name)
        }
    }

    /// How many bytes that name has.
    pub fn name_length(&self) -> usize {
        let name = self.name.bytes();
        if self.is_indexed {
            name.len().saturating_add(index_count(name))
        } else {
            name.len()
        }
    }

    /// The name of the breakpoint, and whether it halts the session.
    pub fn title(&self, alloc: Global) -> Result<Notes, AllocError> {
        let mut title = Notes::new(alloc);
        let halts = Part::Text(if self.halts { " halts here" } else { "" });
        title.say_with("{}{}", &[self.name(), halts])?;
        Ok(title)
    }

    /// Appends what the breakpoint asks for to the last line: `left (state = 2) and right (state = 3)`.
    pub fn put_predicate(&self, notes: &mut Notes) -> Result<(), AllocError> {
        put_joined(notes, &self.parts, " and ")
    }

    /// The name of the breakpoint and what it asks for, in one line: `split: left (state = 2) and right (state = 3)`.
    pub fn heading(&self, alloc: Global) -> Result<Notes, AllocError> {
        let mut heading = Notes::new(alloc);
        heading.say_with("{}: ", &[self.name()])?;
        self.put_predicate(&mut heading)?;
        Ok(heading)
    }

    /// The same, with a line for each part.
    pub fn heading_lines(&self, alloc: Global) -> Result<Notes, AllocError> {
        let mut heading = Notes::new(alloc);
        let mut word = self.name();
        let mut between = ": ";
        for number in 0..self.parts.count() {
            let part = Part::Bytes(self.parts.line(number).bytes);
            heading.say_with("{}{}{}", &[word, Part::Text(between), part])?;
            word = Part::Text("and");
            between = " ";
        }
        Ok(heading)
    }

    /// Appends how many events of each process the cut has to the last line.
    pub fn put_counts(&self, notes: &mut Notes, view: SourceView<'_>) -> Result<(), AllocError> {
        let mut word = "";
        for p in 0..view.session.program.processes() {
            let count = self.cut.count(Pid(p));
            if count > 0 {
                let count = Part::Natural(count);
                let name = view.scope(Pid(p)).name();
                notes.add_with("{}{} of {}", &[Part::Text(word), count, name])?;
                word = ", ";
            }
        }
        Ok(())
    }
}
