//! Makes undone events again.

ghost use Rattle.std.specs.Prelude.{◌≡◌, [], IfErr, OnOk, OnErr};
ghost use Rattle.dbg_base.specs.declared.refusal.Refusal.TheVariants.{Memory};
ghost use Rattle.dbg_base.specs.Trees as tree;
ghost use Rattle.causal_world.specs.Rollings.{IsRolled};

use crate::making::{make_room_forth, roll_forth};
use crate::rolled::{Rolled, gather};
use crate::world::World;
use dbg_base::Refusal;

impl World {
    /// Makes the events again whose undos led to the present world, the last undone first: the world is as it was before the undos. Error:
    /// `Memory`, if an allocation fails; then nothing changes, and the events are still in `rolled`.
    pub fn forth(&mut self, rolled: &mut Rolled) -> Result<(), Refusal>
        requires { (P : tree.Program) × IsRolled P rolled.old self.old }
        ensures back { (P : tree.Program) (r : IsRolled P rolled.old self.old) → OnOk result (self.new ≡ r.before) }
        ensures done { OnOk result (rolled.new ≡ []) }
        ensures refuses { IfErr result (λ refusal. refusal ≡ Memory) }
        ensures kept { OnErr result (self.new ≡ self.old) }
        ensures left { OnErr result (rolled.new ≡ rolled.old) }
    {
        let Rolled { taken, last } = rolled;
        gather(taken, last)?;
        make_room_forth(
            *taken.allocator(),
            &mut self.grid,
            &mut self.past,
            taken.as_slice(),
        )?;
        roll_forth(
            &mut self.lines,
            &mut self.envs,
            &mut self.grid,
            &mut self.past,
            taken,
        );
        Ok(())
    }
}
