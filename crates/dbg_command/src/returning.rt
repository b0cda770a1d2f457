//! How commands are undone.

ghost use Rattle.std.specs.Prelude.{◌≡◌, false, true, IfErr, OnOk, OnErr};
ghost use Rattle.dbg_base.specs.declared.refusal.Refusal.TheVariants.{Memory};
ghost use Rattle.dbg_base.specs.Trees as tree;
ghost use Rattle.dbg_command.specs.Tables.{IsTableOf, shown, state_of};
ghost use Rattle.dbg_command.specs.Boxes.{HasStepped, HasRedone, HasRolled, HasUndone, HasNamed, HasUnarmed, HasCleared};
ghost use Rattle.dbg_command.specs.Boxes.{unstepped, unredone, unrolled, remade, unset, marked, uncleared};

use crate::table::Table;
use crate::undoing::TakenBack;
use break_book::Breakpoint;
use causal_world::{Cutoff, Rolled};
use dbg_base::{Name, Pid, Refusal};

impl Table {
    // Undoes a step of the process that cut these choices off. If an allocation fails, it returns them.
    pub(crate) fn unstep(&mut self, pid: Pid, cutoff: Cutoff) -> Result<(), (Refusal, Cutoff)>
        requires { (P : tree.Program) × IsTableOf P self.old × HasStepped P pid.0 cutoff (state_of self.old) }
        ensures of { (P : tree.Program) → IsTableOf P self.old → HasStepped P pid.0 cutoff (state_of self.old) → IsTableOf P self.new }
        ensures back { OnOk result (state_of self.new ≡ unstepped pid.0 cutoff (state_of self.old)) }
        ensures refuses { IfErr result (λ refused. (refused.0 ≡ Memory) × (refused.1 ≡ cutoff)) }
        ensures kept { OnErr result (self.new ≡ self.old) }
    {
        self.world.unstep(pid, cutoff)?;
        self.book.shrink(pid, &self.world);
        Ok(())
    }

    // Undoes a redo of the process.
    pub(crate) fn unredo(&mut self, pid: Pid) -> Result<(), Refusal>
        requires { (P : tree.Program) × IsTableOf P self.old × HasRedone P pid.0 (state_of self.old) }
        ensures of { (P : tree.Program) → IsTableOf P self.old → HasRedone P pid.0 (state_of self.old) → IsTableOf P self.new }
        ensures back { OnOk result (state_of self.new ≡ unredone pid.0 (state_of self.old)) }
        ensures refuses { IfErr result (λ refusal. refusal ≡ Memory) }
        ensures kept { OnErr result (self.new ≡ self.old) }
    {
        self.world.unredo(pid)?;
        self.book.shrink(pid, &self.world);
        Ok(())
    }

    // Makes undone events again. If an allocation fails, they are still in `taken`.
    pub(crate) fn forth(&mut self, taken: &mut TakenBack) -> Result<(), Refusal>
        requires { (P : tree.Program) × IsTableOf P self.old × HasRolled P taken.old.rolled taken.old.places (state_of self.old) }
        ensures of { (P : tree.Program) → IsTableOf P self.old → HasRolled P taken.old.rolled taken.old.places (state_of self.old)
            → IsTableOf P self.new }
        ensures back { OnOk result (state_of self.new ≡ unrolled taken.old.places (state_of self.old)) }
        ensures refuses { IfErr result (λ refusal. refusal ≡ Memory) }
        ensures kept { OnErr result (shown self.new ≡ shown self.old) }
        ensures left { OnErr result (taken.new ≡ taken.old) }
    {
        self.book.reserve_to(&self.world, &taken.places)?;
        self.world.forth(&mut taken.rolled)?;
        self.book.follow(&self.world);
        Ok(())
    }

    // Makes the last event that was undone of this process again. If an allocation fails, it is still in `rolled`.
    pub(crate) fn remake(&mut self, pid: Pid, rolled: &mut Rolled) -> Result<(), Refusal>
        requires { (P : tree.Program) × IsTableOf P self.old × HasUndone P pid.0 rolled.old (state_of self.old) }
        ensures of { (P : tree.Program) → IsTableOf P self.old → HasUndone P pid.0 rolled.old (state_of self.old) → IsTableOf P self.new }
        ensures back { OnOk result (state_of self.new ≡ remade pid.0 (state_of self.old)) }
        ensures refuses { IfErr result (λ refusal. refusal ≡ Memory) }
        ensures kept { OnErr result (shown self.new ≡ shown self.old) }
        ensures left { OnErr result (rolled.new ≡ rolled.old) }
    {
        self.book.reserve(&self.world, pid)?;
        self.world.forth(rolled)?;
        self.book.grow(pid, &self.world);
        Ok(())
    }

    // Removes the breakpoint of this name.
    pub(crate) fn unset_break(&mut self, name: Name)
        requires { HasNamed name (state_of self.old) }
        ensures of { (P : tree.Program) → IsTableOf P self.old → IsTableOf P self.new }
        ensures back { state_of self.new ≡ unset name (state_of self.old) }
    {
        let Ok(_) = self.book.clear(name) else {
            unreachable!()
        };
    }

    // Disarms the breakpoint of this name.
    pub(crate) fn disarm(&mut self, name: Name)
        requires { HasNamed name (state_of self.old) }
        ensures of { (P : tree.Program) → IsTableOf P self.old → IsTableOf P self.new }
        ensures back { state_of self.new ≡ marked name false (state_of self.old) }
    {
        self.book.disarm(name);
    }

    // Arms the breakpoint of this name, which is not armed, again.
    pub(crate) fn rearm(&mut self, name: Name)
        requires { HasUnarmed name (state_of self.old) }
        ensures of { (P : tree.Program) → IsTableOf P self.old → IsTableOf P self.new }
        ensures back { state_of self.new ≡ marked name true (state_of self.old) }
    {
        let Ok(()) = self.book.arm(name) else {
            unreachable!()
        };
    }

    // Restores the breakpoint that was removed from this position. If an allocation fails, it returns the breakpoint.
    pub(crate) fn restore_break(
        &mut self,
        position: usize,
        name: Name,
        breakpoint: Breakpoint,
    ) -> Result<(), (Refusal, Breakpoint)>
        requires { (P : tree.Program) × IsTableOf P self.old × HasCleared P position name breakpoint (state_of self.old) }
        ensures of { (P : tree.Program) → IsTableOf P self.old → HasCleared P position name breakpoint (state_of self.old)
            → IsTableOf P self.new }
        ensures back { OnOk result (state_of self.new ≡ uncleared position name breakpoint (state_of self.old)) }
        ensures refuses { IfErr result (λ refused. (refused.0 ≡ Memory) × (refused.1 ≡ breakpoint)) }
        ensures kept { OnErr result (self.new ≡ self.old) }
    {
        self.book.restore_at(position, name, breakpoint)
    }
}
