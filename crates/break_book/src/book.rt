//! The list of breakpoints.

ghost use Rattle.std.specs.Prelude.{◌≡◌, ◌<◌, ◌≤◌, ◌⊎◌, ◌++◌, ◌∷◌, [], length, map, insert, None, Some, true, false, slice_get};
ghost use Rattle.std.specs.Prelude.{IfOk, IfErr, IfSome, OnOk, OnErr, MatchOption};
ghost use Rattle.std.specs.List.{AllByRecursion};
ghost use Rattle.dbg_base.specs.declared.refusal.Refusal.TheVariants.{Memory, UnknownBreak};
ghost use Rattle.dbg_base.specs.declared.limits.TheConstants.{BREAKPOINTS};
ghost use Rattle.dbg_base.specs.Trees as tree;
ghost use Rattle.dbg_base.specs.Calls.{conjunct_of};
ghost use Rattle.dbg_base.specs.Copies.{IsCopy};
ghost use Rattle.dbg_base.specs.Breakpoints.{named, without, with_mark, name_refusal, IsHaltedBy, HaltsAt};
ghost use Rattle.dbg_base.specs.SystemStates.{history_of};
ghost use Rattle.dbg_base.specs.Views.{mark_of};
ghost use Rattle.causal_world.specs.Scenes.{Scene, IsWorldOf};
ghost use Rattle.least_cut.specs.Watches.{scan_of};
ghost use Rattle.least_cut.specs.Detectors.{IsDetectorOf};
ghost use Rattle.dbg_base.specs.Breakpoints as model;
ghost use Rattle.break_book.specs.Books.{breakpoint_of, breakpoints_of, new_breakpoint, AreDetectorsOf, HasDistinctNames, IsPlacedAt};
ghost use Rattle.break_book.specs.Books.{marked_at, arm_refusal, first_halt, MayPass, CannotPass};

mod following;

use crate::breakpoint::Breakpoint;
use causal_world::World;
use dbg_base::limits::BREAKPOINTS;
use dbg_base::{Conjunct, Name, Refusal, Sequence};
use indexmap::IndexMap;
use least_cut::{Detector, Scan};
use std::alloc::Global;
use std::marker::Model;

/// The breakpoints of a session, at most 64, by name and in the order in which they were set. The book belongs to a world, and its
/// detectors follow the world as events are made and undone. Contracts see the list of names with what is kept of each.
pub struct Book {
    breaks: IndexMap<Name, Breakpoint>,
    // The position of the breakpoint that halts the session, from 0, or the number of breakpoints if none does.
    halting: usize,
}

impl Drop for Book {
    fn drop(self) {
        let Self { breaks, halting } = self;
    }
}

impl Model for Book {
    ghost use Rattle.std.specs.Prelude.{List, ◌≡◌, ◌≤◌, length};
    ghost use Rattle.dbg_base.specs.declared.limits.TheConstants.{BREAKPOINTS};
    ghost use Rattle.least_cut.specs.TreeCodes.{coded_tree};
    ghost use Rattle.std.specs.Coded.{codes};
    ghost use Rattle.break_book.specs.Books.{Entry, first_halt};

    ghost Value = { List Entry };

    ghost coded = { Prim.hlevel (codes, coded_tree) };

    ghost view = { λ book. book.breaks.entries };

    ghost invariant = { λ book. (length book.breaks.entries ≤ BREAKPOINTS) × (book.halting ≡ first_halt book.breaks.entries) };
}

// Appends a breakpoint with a new name.
fn append(
    breaks: &mut IndexMap<Name, Breakpoint>,
    name: Name,
    breakpoint: Breakpoint,
) -> Result<(), Refusal>
    requires { named name (breakpoints_of breaks.old.entries) ≡ None }
    ensures appended { OnOk result (breaks.new.entries ≡ breaks.old.entries ++ (name, breakpoint) ∷ []) }
    ensures refuses { IfErr result (λ refusal. refusal ≡ Memory) }
{
    breaks.insert(name, breakpoint)?;
    Ok(())
}

// The position of the first breakpoint that is armed and has a cut, from 0, or the number of breakpoints if there is none.
fn first_halting(breaks: &IndexMap<Name, Breakpoint>) -> usize
    ensures { result ≡ first_halt breaks.now.entries }
{
    for i in 0..breaks.len() {
        if breaks[i].halts() {
            return i;
        }
    }
    breaks.len()
}

impl Book {
    /// No breakpoints. It does not allocate.
    pub fn new(alloc: Global) -> Book
        ensures { result ≡ [] }
    {
        Book {
            breaks: IndexMap::new(alloc),
            halting: 0,
        }
    }

    /// Copies the breakpoints, with as much room. Error: `Memory`, if an allocation fails.
    pub fn copy(&self) -> Result<Book, Refusal>
        ensures { IsCopy result (λ made. made ≡ self.now) }
    {
        let mut breaks = IndexMap::new(*self.breaks.allocator());
        for (name, breakpoint) in self.breaks.iter() {
            append(&mut breaks, *name, breakpoint.copy()?)?;
        }
        Ok(Book {
            breaks,
            halting: self.halting,
        })
    }

    /// Whether a further breakpoint of this name may be set. Errors: `BreakTaken` if the name is taken, otherwise `BreaksFull` if there are
    /// 64. It does not allocate.
    pub fn may_set(&self, name: Name) -> Result<(), Refusal>
        ensures may { OnOk result (name_refusal name (breakpoints_of self.now) ≡ None) }
        ensures refuses { IfErr result (λ refusal. name_refusal name (breakpoints_of self.now) ≡ Some refusal) }
    {
        if self.breaks.contains_key(&name) {
            return Err(Refusal::BreakTaken);
        }
        if self.breaks.len() >= BREAKPOINTS {
            return Err(Refusal::BreaksFull);
        }
        Ok(())
    }

    /// Sets an armed breakpoint after all others. It has these conjuncts, at least one, of processes of the world; the scan says where they
    /// are true. On an error nothing changes. Errors: those of `may_set`, and `Memory` if an allocation fails.
    pub fn set(
        &mut self,
        alloc: Global,
        name: Name,
        conjuncts: Sequence<Conjunct>,
        scan: Scan,
        world: &World,
    ) -> Result<(), Refusal>
        requires of { AreDetectorsOf world.now self.old }
        requires here { AllByRecursion (λ conjunct. conjunct.process < length world.now.state.places) (map conjunct_of conjuncts) }
        requires scan { scan ≡ scan_of world.now (map conjunct_of conjuncts) }
        ensures of { AreDetectorsOf world.now self.new }
        ensures sets { OnOk result ((name_refusal name (breakpoints_of self.old) ≡ None)
            × (breakpoints_of self.new ≡ breakpoints_of self.old ++ new_breakpoint name (map conjunct_of conjuncts) ∷ [])) }
        ensures refuses { IfErr result (λ refusal. (name_refusal name (breakpoints_of self.old) ≡ Some refusal) ⊎ (refusal ≡ Memory)) }
        ensures kept { OnErr result (self.new ≡ self.old) }
    {
        self.may_set(name)?;
        let detector = Detector::new(alloc, conjuncts, scan, world)?;
        self.breaks
            .insert(name, Breakpoint::new(detector))
            .map_err(|_| Refusal::Memory)?;
        self.halting = first_halting(&self.breaks);
        Ok(())
    }

    /// Removes the breakpoint of this name, and returns it with its position, from 0. Then the name is free, and there is room for one more
    /// breakpoint, as `restore_at` requires. Error: `UnknownBreak` if there is none; then nothing changes. It does not allocate.
    pub fn clear(&mut self, name: Name) -> Result<(usize, Breakpoint), Refusal>
        ensures clears { IfOk result (λ taken. (named name (breakpoints_of self.old) ≡ Some (breakpoint_of (name, taken.1)))
            × (breakpoints_of self.new ≡ without name (breakpoints_of self.old))) }
        ensures position { IfOk result (λ taken. (taken.0 ≤ length self.new) × (self.old ≡ insert self.new taken.0 (name, taken.1))) }
        ensures free { OnOk result (named name (breakpoints_of self.new) ≡ None) }
        ensures few { OnOk result (length self.new < BREAKPOINTS) }
        ensures refuses { IfErr result (λ refusal. (named name (breakpoints_of self.old) ≡ None) × (refusal ≡ UnknownBreak)) }
        ensures kept { OnErr result (self.new ≡ self.old) }
        ensures of { (w : Scene) → AreDetectorsOf w self.old → AreDetectorsOf w self.new }
    {
        let Some((position, _, breakpoint)) = self.breaks.shift_remove_full(&name) else {
            return Err(Refusal::UnknownBreak);
        };
        self.halting = first_halting(&self.breaks);
        Ok((position, breakpoint))
    }

    /// Restores a breakpoint that `clear` returned: at its position, with its mark and its cut. If an allocation fails, it returns the
    /// breakpoint, and nothing changes.
    pub fn restore_at(
        &mut self,
        position: usize,
        name: Name,
        breakpoint: Breakpoint,
    ) -> Result<(), (Refusal, Breakpoint)>
        requires position { position ≤ length self.old }
        requires few { length self.old < BREAKPOINTS }
        requires name { named name (breakpoints_of self.old) ≡ None }
        ensures restores { OnOk result (self.new ≡ insert self.old position (name, breakpoint)) }
        ensures refuses { IfErr result (λ refused. (refused.0 ≡ Memory) × (refused.1 ≡ breakpoint)) }
        ensures kept { OnErr result (self.new ≡ self.old) }
        ensures of { (w : Scene) → AreDetectorsOf w self.old → IsDetectorOf w breakpoint.detector → AreDetectorsOf w self.new }
    {
        match self.breaks.insert_before(position, name, breakpoint) {
            Ok(_) => {
                self.halting = first_halting(&self.breaks);
                Ok(())
            }
            Err(failed) => Err((Refusal::Memory, failed.value.1)),
        }
    }

    /// Arms the breakpoint of this name. On an error nothing changes. Errors: `UnknownBreak` if there is none, and `AlreadyArmed` if it is
    /// armed. It does not allocate.
    pub fn arm(&mut self, name: Name) -> Result<(), Refusal>
        ensures arms { OnOk result ((arm_refusal (named name (breakpoints_of self.old)) ≡ None)
            × (breakpoints_of self.new ≡ with_mark name true (breakpoints_of self.old))) }
        ensures refuses { IfErr result (λ refusal. arm_refusal (named name (breakpoints_of self.old)) ≡ Some refusal) }
        ensures kept { OnErr result (self.new ≡ self.old) }
        ensures of { (w : Scene) → AreDetectorsOf w self.old → AreDetectorsOf w self.new }
    {
        let (position, breakpoint) = self.entry(name)?;
        if breakpoint.is_armed() {
            return Err(Refusal::AlreadyArmed);
        }
        self.mark(position, true);
        Ok(())
    }

    /// Disarms the armed breakpoint of this name, which has a cut and so halts the session. On an error nothing changes. Errors:
    /// `UnknownBreak` if there is none, `NotArmed` if it is not armed, and `NoCut` if it has no cut. It does not allocate.
    pub fn pass(&mut self, name: Name) -> Result<(), Refusal>
        ensures passes { OnOk result ((breakpoints_of self.new ≡ with_mark name false (breakpoints_of self.old))
            × ((w : Scene) (P : tree.Program) → AreDetectorsOf w self.old → IsWorldOf P w
            → MayPass P (history_of w.state) (named name (breakpoints_of self.old)))) }
        ensures refuses { IfErr result (λ refusal. (w : Scene) (P : tree.Program) → AreDetectorsOf w self.old → IsWorldOf P w
            → CannotPass P (history_of w.state) (named name (breakpoints_of self.old)) refusal) }
        ensures kept { OnErr result (self.new ≡ self.old) }
        ensures of { (w : Scene) → AreDetectorsOf w self.old → AreDetectorsOf w self.new }
    {
        let (position, breakpoint) = self.entry(name)?;
        if !breakpoint.is_armed() {
            return Err(Refusal::NotArmed);
        }
        if !breakpoint.has_cut() {
            return Err(Refusal::NoCut);
        }
        self.mark(position, false);
        Ok(())
    }

    /// Disarms the breakpoint of this name, whether or not it has a cut. It does not allocate.
    pub fn disarm(&mut self, name: Name)
        requires { (b : model.Breakpoint) × (named name (breakpoints_of self.old) ≡ Some b) }
        ensures disarms { breakpoints_of self.new ≡ with_mark name false (breakpoints_of self.old) }
        ensures of { (w : Scene) → AreDetectorsOf w self.old → AreDetectorsOf w self.new }
    {
        if let Ok((position, _)) = self.entry(name) {
            self.mark(position, false);
        }
    }

    /// The breakpoint that halts the session: the first armed one that has a cut. It does not allocate.
    pub fn halted(&self) -> Option<Name>
        ensures { (w : Scene) (P : tree.Program) → AreDetectorsOf w self.now → IsWorldOf P w
            → IsHaltedBy P (history_of w.state) (breakpoints_of self.now) result }
    {
        let (name, _) = self.breaks.get_index(self.halting)?;
        Some(*name)
    }

    /// The position of the breakpoint that halts the session, from 1 in the order in which they were set, or 0 if none does. It does not
    /// allocate.
    pub fn halt_place(&self) -> u32
        ensures place { (w : Scene) (P : tree.Program) → AreDetectorsOf w self.now → IsWorldOf P w
            → HaltsAt P (history_of w.state) (breakpoints_of self.now) result }
        ensures few { result ≤ BREAKPOINTS }
    {
        if self.halting < self.breaks.len() {
            self.halting as u32 + 1
        } else {
            0
        }
    }

    /// The names in order, each with its mark: whether it is armed. Error: `Memory`, if an allocation fails.
    pub fn list(&self, alloc: Global) -> Result<Sequence<(Name, bool)>, Refusal>
        ensures marks { IfOk result (λ marks. marks ≡ map mark_of (breakpoints_of self.now)) }
        ensures refuses { IfErr result (λ refusal. refusal ≡ Memory) }
        ensures few { length self.now ≤ BREAKPOINTS }
        ensures distinct { HasDistinctNames self.now }
    {
        let mut marks = Vec::new(alloc);
        for (name, breakpoint) in self.breaks.iter() {
            marks.push((*name, breakpoint.is_armed()))?;
        }
        Ok(Sequence::new(marks))
    }

    /// The breakpoint of this name with its position, from 0, or None if there is none. It does not allocate.
    pub fn find(&self, name: Name) -> Option<(usize, &Breakpoint)>
        ensures named { MatchOption result (named name (breakpoints_of self.now) ≡ None)
            (λ found. named name (breakpoints_of self.now) ≡ Some (breakpoint_of (name, found.1.now))) }
        ensures position { IfSome result (λ found. slice_get self.now found.0 ≡ Some (name, found.1.now)) }
        ensures of { IfSome result (λ found. (w : Scene) → AreDetectorsOf w self.now → IsDetectorOf w found.1.now.detector) }
    {
        self.entry(name).ok()
    }

    // The breakpoint of this name with its position, from 0. Error: `UnknownBreak` if there is none.
    fn entry(&self, name: Name) -> Result<(usize, &Breakpoint), Refusal>
        ensures found { IfOk result (λ found. IsPlacedAt name self.now found.0 found.1.now) }
        ensures refuses { IfErr result (λ refusal. (named name (breakpoints_of self.now) ≡ None) × (refusal ≡ UnknownBreak)) }
        ensures few { length self.now ≤ BREAKPOINTS }
    {
        let Some((position, _, found)) = self.breaks.get_full(&name) else {
            return Err(Refusal::UnknownBreak);
        };
        Ok((position, found))
    }

    // Sets the mark of the breakpoint at this position.
    fn mark(&mut self, position: usize, armed: bool)
        requires { position < length self.old }
        ensures marks { self.new ≡ marked_at position armed self.old }
        ensures of { (w : Scene) → AreDetectorsOf w self.old → AreDetectorsOf w self.new }
    {
        self.breaks[position].mark(armed);
        self.halting = first_halting(&self.breaks);
    }
}
