//! The commands about breakpoints: break, clear, arm, pass.

ghost use Rattle.std.specs.Prelude.{◌≡◌, ◌≢◌, ◌⊎◌, ◌<◌, Some, true, false, length, map, IfOk, IfErr, IfSome, MatchResult, OnErr, OnOk};
ghost use Rattle.std.specs.List.{AllByRecursion};
ghost use Rattle.dbg_base.specs.declared.refusal.Refusal.TheVariants.{Memory};
ghost use Rattle.dbg_base.specs.Breakpoints.{name_refusal};
ghost use Rattle.break_book.specs.Books.{breakpoints_of};
ghost use Rattle.dbg_base.specs.Trees as tree;
ghost use Rattle.dbg_base.specs.Calls as model;
ghost use Rattle.dbg_base.specs.Calls.{conjunct_of};
ghost use Rattle.proc_tree.specs.Programs.{program_of};
ghost use Rattle.least_cut.specs.Watches.{scan_of};
ghost use Rattle.dbg_command.specs.Tables.{IsTableOf, ActsOrRefuses, Adds, shown, state_of};
ghost use Rattle.dbg_command.specs.Boxes.{LeadsBack, LeadsBackBy, HasNamed, HasUnarmed, HasCleared, unset, marked, uncleared, IsScanFor};

use crate::conjuncts::fitting;
use crate::table::Table;
use break_book::Breakpoint;
use dbg_base::{Conjunct, Done, Name, Refusal, Reply, Sequence, copy_conjuncts};
use least_cut::Scan;
use proc_tree::Program;
use std::alloc::Global;

impl Table {
    // The given scan. If there is none, the conjuncts are scanned here.
    fn scan_or(
        &self,
        alloc: Global,
        scan: Option<Scan>,
        conjuncts: &Sequence<Conjunct>,
    ) -> Result<Scan, Refusal>
        requires { IfSome scan (λ scan. scan ≡ scan_of self.now.world (map conjunct_of conjuncts.now)) }
        ensures { MatchResult result (λ scan. scan ≡ scan_of self.now.world (map conjunct_of conjuncts.now)) (λ refusal. refusal ≡ Memory) }
    {
        match scan {
            Some(scan) => Ok(scan),
            None => Scan::of(alloc, &self.world, conjuncts.items()),
        }
    }

    // Sets a breakpoint of conjuncts that fit.
    fn set_fitting(
        &mut self,
        alloc: Global,
        name: Name,
        conjuncts: &Sequence<Conjunct>,
        scan: Option<Scan>,
    ) -> Result<(), Refusal>
        requires of { (P : tree.Program) × IsTableOf P self.old }
        requires scan { IfSome scan (λ scan. scan ≡ scan_of self.old.world (map conjunct_of conjuncts.now)) }
        requires here { AllByRecursion (λ conjunct. conjunct.process < length self.old.world.state.places)
            (map conjunct_of conjuncts.now) }
        ensures of { (P : tree.Program) → IsTableOf P self.old → IsTableOf P self.new }
        ensures world { self.new.world ≡ self.old.world }
        ensures sets { OnOk result (Adds self.old.book name (map conjunct_of conjuncts.now) self.new.book) }
        ensures refuses { IfErr result (λ refusal. (name_refusal name (breakpoints_of self.old.book) ≡ Some refusal)
            ⊎ (refusal ≡ Memory)) }
        ensures kept { OnErr result (self.new ≡ self.old) }
    {
        self.book.may_set(name)?;
        let conjuncts = copy_conjuncts(conjuncts)?;
        let scan = self.scan_or(alloc, scan, &conjuncts)?;
        self.book.set(alloc, name, conjuncts, scan, &self.world)
    }

    // Sets a breakpoint, armed, after all others.
    pub(crate) fn set_break(
        &mut self,
        alloc: Global,
        program: &Program,
        name: Name,
        conjuncts: &Sequence<Conjunct>,
        scan: Option<Scan>,
    ) -> Result<Reply, Refusal>
        requires of { IsTableOf (program_of program.now) self.old }
        requires scan { IfSome scan (IsScanFor (model.One (model.Break name (map conjunct_of conjuncts.now))) (program_of program.now)
            (state_of self.old)) }
        ensures of { IsTableOf (program_of program.now) self.new }
        ensures leads { OnOk result (LeadsBack (HasNamed name) (unset name) (state_of self.old) (state_of self.new)) }
        ensures acts { ActsOrRefuses (program_of program.now) (model.Break name (map conjunct_of conjuncts.now)) (state_of self.old) result
            (state_of self.new) }
        ensures kept { OnErr result (shown self.new ≡ shown self.old) }
    {
        if conjuncts.items().is_empty() {
            return Err(Refusal::BadPredicate);
        }
        fitting(program, conjuncts.items())?;
        self.set_fitting(alloc, name, conjuncts, scan)?;
        Ok(self.reply(Done::Plain))
    }

    // Removes the breakpoint. It is in `kept` then, with its position.
    pub(crate) fn clear(
        &mut self,
        name: Name,
        kept: &mut Option<(usize, Breakpoint)>,
    ) -> Result<Reply, Refusal>
        ensures of { (P : tree.Program) → IsTableOf P self.old → IsTableOf P self.new }
        ensures acts { (P : tree.Program) → IsTableOf P self.old
            → ActsOrRefuses P (model.Clear name) (state_of self.old) result (state_of self.new) }
        ensures memory { IfErr result (λ refusal. refusal ≢ Memory) }
        ensures leads { OnOk result ((P : tree.Program) → IsTableOf P self.old
            → LeadsBackBy kept.new (λ cleared. HasCleared P cleared.0 name cleared.1) (λ cleared. uncleared cleared.0 name cleared.1)
            (state_of self.old) (state_of self.new)) }
        ensures refused { OnErr result ((shown self.new ≡ shown self.old) × (kept.new ≡ kept.old)) }
    {
        let cleared = self.book.clear(name)?;
        *kept = Some(cleared);
        Ok(self.reply(Done::Plain))
    }

    // Arms the breakpoint: it halts the session again.
    pub(crate) fn arm(&mut self, name: Name) -> Result<Reply, Refusal>
        ensures of { (P : tree.Program) → IsTableOf P self.old → IsTableOf P self.new }
        ensures acts { (P : tree.Program) → IsTableOf P self.old
            → ActsOrRefuses P (model.Arm name) (state_of self.old) result (state_of self.new) }
        ensures memory { IfErr result (λ refusal. refusal ≢ Memory) }
        ensures leads { OnOk result (LeadsBack (HasNamed name) (marked name false) (state_of self.old) (state_of self.new)) }
        ensures kept { OnErr result (shown self.new ≡ shown self.old) }
    {
        self.book.arm(name)?;
        Ok(self.reply(Done::Plain))
    }

    // Disarms the breakpoint: it no longer halts the session.
    pub(crate) fn pass(&mut self, name: Name) -> Result<Reply, Refusal>
        requires { (P : tree.Program) × IsTableOf P self.old }
        ensures of { (P : tree.Program) → IsTableOf P self.old → IsTableOf P self.new }
        ensures acts { (P : tree.Program) → IsTableOf P self.old
            → ActsOrRefuses P (model.Pass name) (state_of self.old) result (state_of self.new) }
        ensures memory { IfErr result (λ refusal. refusal ≢ Memory) }
        ensures leads { OnOk result (LeadsBack (HasUnarmed name) (marked name true) (state_of self.old) (state_of self.new)) }
        ensures kept { OnErr result (shown self.new ≡ shown self.old) }
    {
        self.book.pass(name)?;
        Ok(self.reply(Done::Plain))
    }
}
