//! Plans that may be given.

ghost use Rattle.std.specs.Prelude.{◌≡◌};
ghost use Rattle.dbg_command.specs.Tables.{IsGivable};

use dbg_base::Plan;

/// A plan that may be given: if it is a batch, it has at most 32 commands, none of which is a batch. So code that makes a command of each
/// plan by its kind can make a batch of it.
#[derive(Drop)]
pub struct Givable {
    pub plan: Plan,
    pub ghost givable: { ∥ IsGivable plan ∥₁ },
}

impl Givable {
    /// The plan, as one that may be given. It does not allocate.
    pub fn new(plan: Plan) -> Givable
        requires { IsGivable plan }
        ensures { result.plan ≡ plan }
    {
        Givable { plan }
    }
}
