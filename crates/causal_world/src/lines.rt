//! The lines of choices, with a place in each.

ghost use Rattle.std.specs.Prelude.{◌≡◌, ◌<◌, ◌++◌, ◌∷◌, [], length, map, take, drop, replicate, IfOk, OnOk, OnErr, slice_get};
ghost use Rattle.dbg_base.specs.declared.limits.TheConstants.{EVENTS};
ghost use Rattle.dbg_base.specs.SystemStates.{line_of, place_at, redo_line, last_choice, after_choice, after_redo, after_undo};
ghost use Rattle.causal_world.specs.Scenes.{restored};

use dbg_base::{Choice, Pid, count_of};
use std::alloc::{AllocError, Global};
use std::marker::Model;

/// For each process its line of choices and its place in it. Contracts see a state of the model.
#[derive(Drop)]
pub(crate) struct ChoiceLines {
    lines: Vec<Vec<u32>>,
    places: Vec<u32>,
}

impl Model for ChoiceLines {
    ghost use Rattle.std.specs.Prelude.{map};
    ghost use Rattle.dbg_base.specs.SystemStates.{SystemState};

    ghost Value = { SystemState };

    ghost view = { λ l. record { lines = map (λ line. line.items) l.lines.items; places = l.places.items } };
}

fn empty_lines(alloc: Global, processes: u32) -> Result<Vec<Vec<u32>>, AllocError>
    ensures { IfOk result (λ lines. map (λ line. line.items) lines.items ≡ replicate processes []) }
{
    let mut lines = Vec::new(alloc);
    for _ in 0..processes {
        lines.push(Vec::new(alloc))?;
    }
    Ok(lines)
}

// Copies the lines.
fn copy_lines(lines: &Vec<Vec<u32>>) -> Result<Vec<Vec<u32>>, AllocError>
    ensures { IfOk result (λ made. map (λ line. line.items) made.items ≡ map (λ line. line.items) lines.now.items) }
{
    let mut made = Vec::new(*lines.allocator());
    for line in lines {
        made.push(Vec::from_slice(*line.allocator(), line.as_slice())?)?;
    }
    Ok(made)
}

// Cuts the line at the place and appends the choice. If an allocation fails, nothing changes.
fn append_choice(line: &mut Vec<u32>, place: usize, choice: u32) -> Result<(), AllocError>
    ensures appended { OnOk result (line.new.items ≡ take place line.old.items ++ choice ∷ []) }
    ensures kept { OnErr result (line.new.items ≡ line.old.items) }
{
    if place < line.len() {
        line[place] = choice;
        line.truncate(place + 1);
    } else {
        line.push(choice)?;
    }
    Ok(())
}

// Cuts the line at the place and appends these choices. If an allocation fails, nothing changes.
fn replace_end(line: &mut Vec<u32>, place: usize, choices: &[u32]) -> Result<(), AllocError>
    ensures replaced { OnOk result (line.new.items ≡ take place line.old.items ++ choices.now) }
    ensures kept { OnErr result (line.new.items ≡ line.old.items) }
{
    line.reserve(choices.len())?;
    line.truncate(place);
    line.extend_from_slice(choices)
}

// The choices of a line from a place on.
fn beyond(line: &[u32], place: usize) -> &[u32]
    ensures { result.now ≡ drop place line.now }
{
    line.get(place..).unwrap_or(&[])
}

impl ChoiceLines {
    /// Empty lines.
    pub(crate) fn new(alloc: Global, processes: u32) -> Result<ChoiceLines, AllocError>
        ensures { IfOk result (λ lines. lines ≡ record { lines = replicate processes []; places = replicate processes 0 }) }
    {
        Ok(ChoiceLines {
            lines: empty_lines(alloc, processes)?,
            places: vec![in alloc; 0u32; processes as usize]?,
        })
    }

    /// Copies the lines and places. Error: out of memory.
    pub(crate) fn copy(&self) -> Result<ChoiceLines, AllocError>
        ensures { IfOk result (λ lines. lines ≡ self.now) }
    {
        Ok(ChoiceLines {
            lines: copy_lines(&self.lines)?,
            places: self.places.clone()?,
        })
    }

    // The line of a process, empty if there is no such process.
    fn line(&self, pid: Pid) -> &[u32]
        ensures { result.now ≡ line_of self.now pid.0 }
    {
        match self.lines.get(pid.0 as usize) {
            Some(line) => line.as_slice(),
            None => &[],
        }
    }

    /// The place of a process, 0 if there is no such process.
    pub(crate) fn place(&self, pid: Pid) -> u32
        ensures { result ≡ place_at self.now pid.0 }
    {
        count_of(&self.places, pid)
    }

    /// The places of all processes. Error: out of memory.
    pub(crate) fn places(&self, alloc: Global) -> Result<Vec<u32>, AllocError>
        ensures { IfOk result (λ places. places.items ≡ self.now.places) }
    {
        Vec::from_slice(alloc, self.places.as_slice())
    }

    /// The length of the line of a process.
    pub(crate) fn line_len(&self, pid: Pid) -> usize
        ensures { result ≡ length (line_of self.now pid.0) }
    {
        self.line(pid).len()
    }

    /// The choice at this place of the line of a process.
    pub(crate) fn choice(&self, pid: Pid, at: u32) -> Option<u32>
        ensures { result ≡ slice_get (line_of self.now pid.0) at }
    {
        self.line(pid).get(at as usize).copied()
    }

    /// The choice at the place of a process, which it can make again.
    pub(crate) fn next(&self, pid: Pid) -> Option<u32>
        ensures { result ≡ slice_get (line_of self.now pid.0) (place_at self.now pid.0) }
    {
        self.line(pid).get(self.place(pid) as usize).copied()
    }

    /// The choice before the place of a process, which it made last.
    pub(crate) fn last(&self, pid: Pid) -> Option<u32>
        ensures { result ≡ last_choice self.now pid.0 }
    {
        let before = self.place(pid).checked_sub(1)?;
        self.line(pid).get(before as usize).copied()
    }

    /// The choices from the place on. Error: out of memory.
    pub(crate) fn redo_line(&self, alloc: Global, pid: Pid) -> Result<Vec<u32>, AllocError>
        ensures { IfOk result (λ choices. choices.items ≡ redo_line self.now pid.0) }
    {
        Vec::from_slice(alloc, beyond(self.line(pid), self.place(pid) as usize))
    }

    /// Cuts the line at its place, appends the choice, and moves the place forward by one. If an allocation fails, nothing changes.
    #[tactic(auto, using(dbg_base::proofs::Places::one_place))]
    pub(crate) fn append(&mut self, pid: Pid, choice: Choice) -> Result<(), AllocError>
        requires line { pid.0 < length self.old.lines }
        requires place { pid.0 < length self.old.places }
        requires room { place_at self.old pid.0 < EVENTS }
        ensures appended { OnOk result (self.new ≡ after_choice self.old pid.0 choice.0) }
        ensures kept { OnErr result (self.new ≡ self.old) }
    {
        let p = pid.0 as usize;
        let place = self.places[p];
        append_choice(&mut self.lines[p], place as usize, choice.0)?;
        self.places[p] = place + 1;
        Ok(())
    }

    /// Moves the place forward by one. The line stays.
    pub(crate) fn advance(&mut self, pid: Pid)
        requires place { pid.0 < length self.old.places }
        requires room { place_at self.old pid.0 < EVENTS }
        ensures { self.new ≡ after_redo self.old pid.0 }
    {
        let p = pid.0 as usize;
        self.places[p] = self.places[p] + 1;
    }

    /// Moves the place back by one. The line stays.
    pub(crate) fn retreat(&mut self, pid: Pid)
        ensures { self.new ≡ after_undo self.old pid.0 }
    {
        let p = pid.0 as usize;
        if p < self.places.len() {
            self.places[p] = self.places[p].saturating_sub(1);
        }
    }

    /// Moves the place back by one, and replaces the choices from there on by these. If an allocation fails, nothing changes.
    #[tactic(auto, using(dbg_base::proofs::Places::one_place))]
    pub(crate) fn restore(&mut self, pid: Pid, choices: &[u32]) -> Result<(), AllocError>
        requires line { pid.0 < length self.old.lines }
        requires place { pid.0 < length self.old.places }
        ensures restored { OnOk result (self.new ≡ restored self.old pid.0 choices.now) }
        ensures kept { OnErr result (self.new ≡ self.old) }
    {
        let p = pid.0 as usize;
        let place = self.places[p].saturating_sub(1);
        replace_end(&mut self.lines[p], place as usize, choices)?;
        self.places[p] = place;
        Ok(())
    }
}
