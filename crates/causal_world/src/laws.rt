//! The laws of histories, and a law of worlds.

ghost use Rattle.std.specs.Prelude.{◌≡◌};
ghost use Rattle.dbg_base.specs.Trees.{Program};
ghost use Rattle.causal_world.specs.Scenes.{Scene, IsWorldOf};

pub use dbg_laws::laws::{any_order, any_undo, one_outcome};

/// The lines and places of a world determine it. If two worlds of one program agree in these, they are equal, with local states, channels,
/// events, counts and clocks, in whatever order their events were made.
pub fn one_world()
    ensures { (P : Program) (w v : Scene) → IsWorldOf P w → IsWorldOf P v → w.state ≡ v.state → w ≡ v }
{}
