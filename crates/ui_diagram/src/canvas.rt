//! Rows of characters, with a column for each process.

use dbg_base::Pid;
use std::alloc::{AllocError, Global};

// The least width of a column.
const NARROWEST: usize = 8;

/// Where the column of a process begins, unless it is not shown.
#[derive(Clone, Copy)]
struct Column {
    begin: usize,
    is_shown: bool,
}

/// The columns of the processes.
#[derive(Drop)]
pub(crate) struct Canvas {
    columns: Vec<Column>,
    // Where the last one ends.
    end: usize,
}

/// A row of characters.
#[derive(Drop)]
pub(crate) struct CanvasRow {
    bytes: Vec<u8>,
}

// How wide a column is that needs so much, if no column is wider than another number, except that none is narrower than the least. Only the
// column of a process that is not shown needs nothing.
fn width_of(need: usize, widest: usize) -> usize {
    if need == 0 {
        0
    } else {
        need.min(widest).max(NARROWEST)
    }
}

// How wide all columns are.
fn total(needs: &[usize], widest: usize) -> usize {
    let mut total = 0usize;
    for need in needs {
        total = total.saturating_add(width_of(*need, widest));
    }
    total
}

// The largest number that no column may exceed, so that all are within this width.
fn widest(needs: &[usize], width: usize) -> usize {
    let mut widest = NARROWEST;
    for more in NARROWEST..=width {
        if total(needs, more) > width {
            break;
        }
        widest = more;
    }
    widest
}

impl Canvas {
    /// Columns that need so much, within this width. If that is too little, the widest columns get less than they need.
    pub(crate) fn new(alloc: Global, needs: &[usize], width: usize) -> Result<Canvas, AllocError> {
        let widest = widest(needs, width);
        let mut columns = Vec::new(alloc);
        let mut end = 0usize;
        for need in needs {
            let (begin, is_shown) = (end, *need > 0);
            columns.push(Column { begin, is_shown })?;
            end = end.saturating_add(width_of(*need, widest));
        }
        Ok(Canvas { columns, end })
    }

    /// Makes the last column so wide that the rows have this width at least.
    pub(crate) fn widen(&mut self, width: usize) {
        self.end = self.end.max(width);
    }

    /// The position of the line of a process.
    pub(crate) fn place(&self, pid: Pid) -> usize {
        match self.columns.get(pid.0 as usize) {
            Some(column) => column.begin,
            None => self.end,
        }
    }

    /// How many characters a column has room for, with a blank before the next one.
    pub(crate) fn room(&self, pid: Pid) -> usize {
        let next = self.place(Pid(pid.0.saturating_add(1)));
        next.saturating_sub(self.place(pid)).saturating_sub(1)
    }

    /// A row that is filled with this character.
    pub(crate) fn filled(&self, alloc: Global, with: u8) -> Result<CanvasRow, AllocError> {
        let mut bytes = Vec::new(alloc);
        for _ in 0..self.end {
            bytes.push(with)?;
        }
        Ok(CanvasRow { bytes })
    }

    /// A row with the line of each process that is shown.
    pub(crate) fn lines(&self, alloc: Global) -> Result<CanvasRow, AllocError> {
        let mut row = self.filled(alloc, b' ')?;
        for column in &self.columns {
            if column.is_shown {
                row.put(column.begin, b"|");
            }
        }
        Ok(row)
    }
}

impl CanvasRow {
    /// The characters, without blanks at the end.
    pub(crate) fn text(&self) -> &[u8] {
        self.bytes.as_slice().trim_ascii_end()
    }

    /// Puts these characters at a position, as far as the row goes.
    pub(crate) fn put(&mut self, at: usize, text: &[u8]) {
        let mut place = at;
        for byte in text {
            if let Some(old) = self.bytes.get_mut(place) {
                *old = *byte;
            }
            place = place.saturating_add(1);
        }
    }

    /// Puts at most so many of these characters at a position. If there are more, the last two are dots.
    pub(crate) fn put_cut(&mut self, at: usize, text: &[u8], room: usize) {
        if text.len() <= room {
            self.put(at, text);
        } else {
            let kept = room.saturating_sub(2);
            self.put(at, text.get(..kept).unwrap_or(text));
            self.put(at.saturating_add(kept), b"..");
        }
    }

    /// Fills from one position to before another.
    pub(crate) fn fill(&mut self, from: usize, to: usize, with: u8) {
        for place in from..to {
            self.put(place, &[with]);
        }
    }
}
