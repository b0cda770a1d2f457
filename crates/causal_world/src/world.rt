//! A world: a system of processes that its events change in place.

ghost use Rattle.std.specs.Prelude.{◌≡◌, ℕ, List, ◌<◌, ◌≤◌, ◌⊎◌, length, IfOk, IfErr, MatchResult, OnOk, OnErr};
ghost use Rattle.std.specs.Prelude.{Some, Ok, Err, slice_get, slice_index, slice_index_or, []};
ghost use Rattle.std.specs.Option.{option_map};
ghost use Rattle.dbg_base.specs.declared.limits.TheConstants.{EVENTS};
ghost use Rattle.dbg_base.specs.declared.refusal.Refusal.TheVariants.{Memory};
ghost use Rattle.dbg_base.specs.Copies.{IsCopy};
ghost use Rattle.dbg_base.specs.Trees as tree;
ghost use Rattle.dbg_base.specs.Configurations.{values_of, channel_of};
ghost use Rattle.dbg_base.specs.SystemStates.{opening_state, line_of, place_at, redo_line, history_of, last_choice};
ghost use Rattle.dbg_base.specs.SystemStates.{after_choice, after_redo};
ghost use Rattle.dbg_base.specs.Clocks.{IsClock};
ghost use Rattle.dbg_base.specs.Choices.{step_choice, next_choice, redo_choice};
ghost use Rattle.dbg_base.specs.Reversal.{IsRollback};
ghost use Rattle.cut_core.specs.ConsistentCuts.{IsConsistentCut};
ghost use Rattle.proc_tree.specs.Programs.{program_of};
ghost use Rattle.causal_world.specs.Pasts.{AreClocksOf, row_at};
ghost use Rattle.causal_world.specs.Scenes.{IsWorldOf, made};
ghost use Rattle.causal_world.specs.Worlds.{CanMake, IsSomeWorld};
ghost use Rattle.dbg_base.specs.LocalStates.{no_state};
ghost use Rattle.event_rows.specs.Events.{past_of};

mod backward;
mod forth;

use crate::deciding::{lowest, try_choice};
use crate::events::{happen, make_room};
use crate::lines::ChoiceLines;
use crate::past::Past;
use crate::rolled::Cutoff;
use cut_core::{Tally, greatest_below};
use dbg_base::limits::EVENTS;
use dbg_base::{Choice, Cut, Pid, Refusal, Sequence, count_of};
use event_rows::{Event, Rows};
use fifo_grid::Grid;
use local_eval::Env;
use proc_tree::Program;
use std::alloc::Global;
use std::marker::Model;

/// For each process its line of choices and its place in it, its local state and its events; and for each ordered pair of processes the
/// messages on their way. Contracts see these. A world holds no program: an event has all that is needed to undo it.
pub struct World {
    lines: ChoiceLines,
    envs: Vec<Env>,
    grid: Grid,
    past: Past,
}

impl Drop for World {
    fn drop(self) {
        let Self {
            lines,
            envs,
            grid,
            past,
        } = self;
    }
}

impl Model for World {
    ghost use Rattle.causal_world.specs.Scenes.{Scene, scene};
    ghost use Rattle.causal_world.specs.Worlds.{IsSomeWorld};

    ghost Value = { Scene };

    ghost view = { λ w. scene w.lines w.envs.items w.grid.channels w.past };

    ghost invariant = { λ w. IsSomeWorld (scene w.lines w.envs.items w.grid.channels w.past) };
}

impl World {
    /// The world of a program at its start: empty lines, initial values, no messages. Error: `Memory`, if an allocation fails.
    pub fn new(alloc: Global, program: &Program) -> Result<World, Refusal>
        ensures of { IfOk result (λ world. IsWorldOf (program_of program.now) world) }
        ensures opens { IfOk result (λ world. world.state ≡ opening_state (program_of program.now)) }
        ensures refuses { IfErr result (λ refusal. refusal ≡ Memory) }
    {
        let processes = program.processes();
        let lines = ChoiceLines::new(alloc, processes)?;
        let envs = Env::starts(alloc, program)?;
        let grid = Grid::new(alloc, processes)?;
        let past = Past::new(alloc, program)?;
        Ok(World {
            lines,
            envs,
            grid,
            past,
        })
    }

    /// Copies the world. Error: `Memory`, if an allocation fails.
    pub fn copy(&self) -> Result<World, Refusal>
        ensures { IsCopy result (λ world. world ≡ self.now) }
    {
        Ok(World {
            lines: self.lines.copy()?,
            envs: Env::copy_all(&self.envs)?,
            grid: self.grid.copy()?,
            past: self.past.copy()?,
        })
    }

    // Makes this event of the process: cuts its line at its place, and appends the choice. If an allocation fails, nothing changes.
    fn append(
        &mut self,
        alloc: Global,
        pid: Pid,
        choice: Choice,
        event: Event,
    ) -> Result<Cutoff, Refusal>
        requires can { CanMake self.old pid.0 choice.0 event }
        requires few { place_at self.old.state pid.0 < EVENTS }
        ensures made { OnOk result (self.new ≡ made self.old pid.0 event (after_choice self.old.state pid.0 choice.0) self.new.clocks) }
        ensures clocks { OnOk result (AreClocksOf self.new.kinds self.new.clocks) }
        ensures cut { IfOk result (λ cutoff. cutoff ≡ redo_line self.old.state pid.0) }
        ensures refuses { IfErr result (λ refusal. refusal ≡ Memory) }
        ensures kept { OnErr result (self.new ≡ self.old) }
    {
        let choices = self.lines.redo_line(alloc, pid)?;
        make_room(&mut self.grid, &mut self.past, pid, event.exchange())?;
        self.lines.append(pid, choice)?;
        happen(&mut self.envs, &mut self.grid, &mut self.past, pid, event);
        Ok(Cutoff { choices })
    }

    // Makes this event of the process, which is the choice at its place, again. If an allocation fails, nothing changes.
    fn repeat(&mut self, pid: Pid, choice: Choice, event: Event) -> Result<(), Refusal>
        requires can { CanMake self.old pid.0 choice.0 event }
        requires next { slice_get (line_of self.old.state pid.0) (place_at self.old.state pid.0) ≡ Some choice.0 }
        ensures made { OnOk result (self.new ≡ made self.old pid.0 event (after_redo self.old.state pid.0) self.new.clocks) }
        ensures clocks { OnOk result (AreClocksOf self.new.kinds self.new.clocks) }
        ensures refuses { IfErr result (λ refusal. refusal ≡ Memory) }
        ensures kept { OnErr result (self.new ≡ self.old) }
    {
        make_room(&mut self.grid, &mut self.past, pid, event.exchange())?;
        self.lines.advance(pid);
        happen(&mut self.envs, &mut self.grid, &mut self.past, pid, event);
        Ok(())
    }

    /// Makes the process fire this command of the world's program: cuts its line at its place, appends the choice, and moves the place
    /// forward by one. Returns the choices that were cut off. On an error nothing changes. Errors: `UnknownChoice` if the process has no
    /// such command, `ProcessFull` if it has as many events as a process may have, and `GuardFalse`, `Fault` or `ChannelEmpty` if the
    /// command does not fire. `Memory` if an allocation fails.
    pub fn step(
        &mut self,
        alloc: Global,
        program: &Program,
        pid: Pid,
        choice: Choice,
    ) -> Result<Cutoff, Refusal>
        requires process { pid.0 < length (program_of program.now) }
        requires of { IsWorldOf (program_of program.now) self.old }
        ensures of { IsWorldOf (program_of program.now) self.new }
        ensures moves { OnOk result ((step_choice (program_of program.now) self.old.state pid.0 choice.0 ≡ Ok choice.0)
            × (self.new.state ≡ after_choice self.old.state pid.0 choice.0)) }
        ensures cut { IfOk result (λ cutoff. cutoff ≡ redo_line self.old.state pid.0) }
        ensures refuses { IfErr result (λ refusal. (step_choice (program_of program.now) self.old.state pid.0 choice.0 ≡ Err refusal)
            ⊎ (refusal ≡ Memory)) }
        ensures kept { OnErr result (self.new ≡ self.old) }
    {
        if choice.0 >= program.commands(pid) {
            return Err(Refusal::UnknownChoice);
        }
        if self.lines.place(pid) >= EVENTS {
            return Err(Refusal::ProcessFull);
        }
        let event = try_choice(
            alloc,
            program,
            choice,
            self.envs.as_slice(),
            &self.grid,
            pid,
        )??;
        self.append(alloc, pid, choice, event)
    }

    /// Makes the process fire its first command that can fire, like `step`, and returns which one it was. On an error nothing changes.
    /// Errors: `ProcessFull`, `NoneEnabled`, and `Memory` if an allocation fails.
    pub fn next(
        &mut self,
        alloc: Global,
        program: &Program,
        pid: Pid,
    ) -> Result<(Choice, Cutoff), Refusal>
        requires process { pid.0 < length (program_of program.now) }
        requires of { IsWorldOf (program_of program.now) self.old }
        ensures of { IsWorldOf (program_of program.now) self.new }
        ensures moves { IfOk result (λ made. (next_choice (program_of program.now) self.old.state pid.0 ≡ Ok made.0.0)
            × (self.new.state ≡ after_choice self.old.state pid.0 made.0.0)) }
        ensures cut { IfOk result (λ made. made.1 ≡ redo_line self.old.state pid.0) }
        ensures refuses { IfErr result (λ refusal. (next_choice (program_of program.now) self.old.state pid.0 ≡ Err refusal)
            ⊎ (refusal ≡ Memory)) }
        ensures kept { OnErr result (self.new ≡ self.old) }
    {
        if self.lines.place(pid) >= EVENTS {
            return Err(Refusal::ProcessFull);
        }
        let found = lowest(alloc, program, self.envs.as_slice(), &self.grid, pid)?;
        let (choice, event) = found.ok_or(Refusal::NoneEnabled)?;
        let cutoff = self.append(alloc, pid, choice, event)?;
        Ok((choice, cutoff))
    }

    /// Makes the process fire the choice at its place again, in the present state: the place moves forward by one, and the line stays.
    /// Returns the choice. On an error nothing changes. Errors: `NothingToRedo` if the place is at the line's end, and `GuardFalse`,
    /// `Fault` or `ChannelEmpty` if the command does not fire. `Memory` if an allocation fails.
    pub fn redo(&mut self, alloc: Global, program: &Program, pid: Pid) -> Result<Choice, Refusal>
        requires process { pid.0 < length (program_of program.now) }
        requires of { IsWorldOf (program_of program.now) self.old }
        ensures of { IsWorldOf (program_of program.now) self.new }
        ensures moves { IfOk result (λ choice. (redo_choice (program_of program.now) self.old.state pid.0 ≡ Ok choice.0)
            × (self.new.state ≡ after_redo self.old.state pid.0)) }
        ensures refuses { IfErr result (λ refusal. (redo_choice (program_of program.now) self.old.state pid.0 ≡ Err refusal)
            ⊎ (refusal ≡ Memory)) }
        ensures kept { OnErr result (self.new ≡ self.old) }
    {
        let choice = Choice(self.lines.next(pid).ok_or(Refusal::NothingToRedo)?);
        let event = try_choice(
            alloc,
            program,
            choice,
            self.envs.as_slice(),
            &self.grid,
            pid,
        )??;
        self.repeat(pid, choice, event)?;
        Ok(choice)
    }

    /// The values of the process's variables, none if there is no such process. Error: `Memory`, if an allocation fails.
    pub fn vars(&self, alloc: Global, pid: Pid) -> Result<Sequence<i64>, Refusal>
        ensures { MatchResult result (λ values. values ≡ values_of self.now.standing pid.0) (λ refusal. refusal ≡ Memory) }
    {
        match self.envs.get(pid.0 as usize) {
            Some(env) => Ok(Sequence::new(Vec::from_slice(alloc, env.values())?)),
            None => Ok(Sequence::new(Vec::new(alloc))),
        }
    }

    /// The messages on their way from the first process to the second, the head first. Error: `Memory`, if an allocation fails.
    pub fn channel(&self, alloc: Global, source: Pid, target: Pid) -> Result<Sequence<i64>, Refusal>
        ensures { MatchResult result (λ messages. messages ≡ channel_of self.now.standing source.0 target.0)
            (λ refusal. refusal ≡ Memory) }
    {
        Ok(self.grid.items(alloc, source, target)?)
    }

    /// The place of a process in its line: how many events it has. It is 0 if there is no such process. Like all methods that only read,
    /// except `vars`, `channel`, `clock`, `places` and `rollback_cut`, it does not allocate.
    pub fn place(&self, pid: Pid) -> u32
        ensures { result ≡ place_at self.now.state pid.0 }
    {
        self.lines.place(pid)
    }

    /// The places of all processes. Error: `Memory`, if an allocation fails.
    pub fn places(&self, alloc: Global) -> Result<Cut, Refusal>
        ensures { MatchResult result (λ places. places ≡ self.now.state.places) (λ refusal. refusal ≡ Memory) }
    {
        Ok(Cut::new(self.lines.places(alloc)?))
    }

    /// The length of the process's line.
    pub fn line_len(&self, pid: Pid) -> u32
        ensures { result ≡ length (line_of self.now.state pid.0) }
    {
        self.lines.line_len(pid) as u32
    }

    /// The choice at this place of the process's line, from 0, or None if the line is shorter. The choices before the process's place are
    /// its events, and the others can be made again.
    pub fn choice(&self, pid: Pid, at: u32) -> Option<Choice>
        ensures { option_map (λ choice. choice.0) result ≡ slice_get (line_of self.now.state pid.0) at }
    {
        self.lines.choice(pid, at).map(Choice)
    }

    /// The choice of the process's last event, or None if it has no event.
    pub fn last(&self, pid: Pid) -> Option<Choice>
        ensures { option_map (λ choice. choice.0) result ≡ last_choice self.now.state pid.0 }
    {
        self.lines.last(pid).map(Choice)
    }

    /// The local state of a process, or None if there is no such process.
    pub fn local_state(&self, pid: Pid) -> Option<&Env>
        ensures { option_map (λ env. env.now) result ≡ slice_get self.now.standing.states pid.0 }
    {
        self.envs.get(pid.0 as usize)
    }

    /// The local state of an existing process.
    pub fn env(&self, pid: Pid) -> &Env
        requires { pid.0 < length self.now.state.places }
        ensures present { slice_get self.now.standing.states pid.0 ≡ Some result.now }
        ensures past { result.now ≡ past_of (slice_index_or self.now.starts pid.0 no_state) (slice_index_or self.now.events pid.0 [])
            (length (slice_index_or self.now.events pid.0 [])) }
    {
        &self.envs[pid.0 as usize]
    }

    /// The clock of an existing process after its n-th event, which it must have: how many events of each process are in its causal past,
    /// the event included. Error: `Memory`, if an allocation fails.
    pub fn clock(&self, alloc: Global, pid: Pid, n: u32) -> Result<Cut, Refusal>
        requires process { pid.0 < length self.now.state.places }
        requires event { n ≤ place_at self.now.state pid.0 }
        ensures clock { IfOk result (λ cut. (P : tree.Program) → IsWorldOf P self.now → IsClock P (history_of self.now.state) pid.0 n cut) }
        ensures refuses { IfErr result (λ refusal. refusal ≡ Memory) }
    {
        Ok(Cut::new(Vec::from_slice(alloc, self.past.clock(pid, n))?))
    }

    /// Component `of` of the clock of the process `pid` after its n-th event: how many events of the process `of` are in its causal past.
    /// It does not allocate.
    pub fn clock_part(&self, pid: Pid, n: u32, of: Pid) -> u32
        requires process { pid.0 < length self.now.state.places }
        requires event { n ≤ place_at self.now.state pid.0 }
        ensures row { result ≡ slice_index (row_at self.now.clocks pid.0 n) of.0 }
        ensures part { (P : tree.Program) (cut : List ℕ) → IsWorldOf P self.now → IsClock P (history_of self.now.state) pid.0 n cut
            → result ≡ slice_index cut of.0 }
    {
        count_of(self.past.clock(pid, n), of)
    }

    /// The clock of an existing process after its n-th event, as the row that is kept of it: one count for each process. It does not
    /// allocate.
    pub fn clock_row(&self, pid: Pid, n: u32) -> &[u32]
        requires process { pid.0 < length self.now.state.places }
        requires event { n ≤ place_at self.now.state pid.0 }
        ensures row { result.now ≡ row_at self.now.clocks pid.0 n }
        ensures len { length result.now ≡ length self.now.state.places }
    {
        self.past.clock(pid, n)
    }

    /// What the events did to messages: the sends and receives of each process, in order. The world is always one of some program.
    pub fn tally(&self) -> &Tally
        ensures kinds { result.now.kinds ≡ self.now.kinds }
        ensures world { IsSomeWorld self.now }
    {
        self.past.tally()
    }

    /// The cut of a rollback of an existing process to n, which must be at most its place: the greatest consistent cut with at most n
    /// events of the process. Error: `Memory`, if an allocation fails.
    pub fn rollback_cut(&self, alloc: Global, pid: Pid, n: u32) -> Result<Cut, Refusal>
        requires process { pid.0 < length self.now.state.places }
        requires event { n ≤ place_at self.now.state pid.0 }
        ensures consistent { IfOk result (λ cut. IsConsistentCut self.now.kinds cut) }
        ensures greatest { IfOk result (λ cut. (P : tree.Program) → IsWorldOf P self.now
            → IsRollback P (history_of self.now.state) pid.0 n cut) }
        ensures refuses { IfErr result (λ refusal. refusal ≡ Memory) }
    {
        let mut places = self.lines.places(alloc)?;
        places[pid.0 as usize] = n;
        Ok(greatest_below(alloc, self.past.tally(), &Cut::new(places))?)
    }

    /// The starts of the processes and their events.
    pub fn rows(&self) -> &Rows
        ensures starts { result.now.starts ≡ self.now.starts }
        ensures events { result.now.events ≡ self.now.events }
    {
        self.past.rows()
    }
}
