//! What calls of a world remove from it, to be restored later.

ghost use Rattle.std.specs.Prelude.{◌≡◌, ◌++◌, None, OnOk, OnErr};
ghost use Rattle.std.specs.Option.{option_to_list};

use dbg_base::Pid;
use event_rows::Event;
use std::alloc::AllocError;
use std::marker::Model;

/// The choices that a step cut off.
#[derive(Drop)]
pub struct Cutoff {
    pub(crate) choices: Vec<u32>,
}

impl Model for Cutoff {
    ghost use Rattle.std.specs.Prelude.{ℕ, List};

    ghost Value = { List ℕ };

    ghost view = { λ cutoff. cutoff.choices.items };
}

/// An event of a process that was undone.
#[derive(Drop)]
pub(crate) struct Taken {
    pub(crate) pid: Pid,
    pub(crate) event: Event,
}

/// Events that were undone, in the order of the undos.
pub struct Rolled {
    pub(crate) taken: Vec<Taken>,
    // The last of them, if it is not in that list. So a single event needs no list.
    pub(crate) last: Option<Taken>,
}

impl Drop for Rolled {
    fn drop(self) {
        let Self { taken, last } = self;
    }
}

impl Model for Rolled {
    ghost use Rattle.std.specs.Prelude.{List, ◌++◌};
    ghost use Rattle.std.specs.Option.{option_to_list};
    ghost use Rattle.causal_world.specs.declared.rolled.Taken.{Taken};

    ghost Value = { List Taken };

    ghost view = { λ rolled. rolled.taken.items ++ option_to_list rolled.last };
}

/// Appends the last event to the list, if it is not in it. If an allocation fails, nothing changes.
pub(crate) fn gather(taken: &mut Vec<Taken>, last: &mut Option<Taken>) -> Result<(), AllocError>
    ensures gathered { OnOk result ((taken.new.items ≡ taken.old.items ++ option_to_list last.old) × (last.new ≡ None)) }
    ensures kept { OnErr result ((taken.new.items ≡ taken.old.items) × (last.new ≡ last.old)) }
{
    if last.is_none() {
        return Ok(());
    }
    taken.reserve(1)?;
    if let Some(event) = last.take() {
        taken.push_reserved(event);
    }
    Ok(())
}
