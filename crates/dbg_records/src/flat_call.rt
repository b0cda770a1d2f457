//! Calls that give copies of commands, without a batch within a batch.

ghost use Rattle.std.specs.Prelude.{◌≡◌, ◌++◌, true, IfOk};
ghost use Rattle.dbg_base.specs.Calls.{Give, order_of, plans_of, plans_in, call_of};
ghost use Rattle.dbg_base.specs.Copies.{IsCopy};
ghost use Rattle.dbg_records.specs.Flat.{are_ones, is_flat_call};

use dbg_base::{Call, Plan, Refusal};

// Appends a copy of this command, or of those of this batch, to the copies so far.
#[cycle(ones)]
fn add_copy(plan: &Plan, ones: Vec<Plan>) -> Result<Vec<Plan>, Refusal>
    requires ones { are_ones ones.items ≡ true }
    ensures copies { IsCopy result (λ made. plans_in made.items ≡ plans_in ones.items ++ plans_of (order_of plan.now)) }
    ensures ones { IfOk result (λ made. are_ones made.items ≡ true) }
{
    match plan {
        Plan::Batch(plans) => add_copies(plans, ones),
        one => {
            let mut made = ones;
            made.push(one.copy()?)?;
            Ok(made)
        }
    }
}

// Appends copies of these commands, and of those of the batches among them, to the copies so far.
#[cycle(ones)]
fn add_copies(plans: &Vec<Plan>, ones: Vec<Plan>) -> Result<Vec<Plan>, Refusal>
    requires ones { are_ones ones.items ≡ true }
    ensures copies { IsCopy result (λ made. plans_in made.items ≡ plans_in ones.items ++ plans_in plans.now.items) }
    ensures ones { IfOk result (λ made. are_ones made.items ≡ true) }
{
    let mut made = ones;
    for plan in plans {
        made = add_copy(plan, made)?;
    }
    Ok(made)
}

/// The call that gives this command, without a batch within a batch. Error: `Memory`, if an allocation fails.
pub(crate) fn call_that_gives(plan: &Plan) -> Result<Call, Refusal>
    ensures copies { IsCopy result (λ made. call_of made ≡ Give (order_of plan.now)) }
    ensures flat { IfOk result (λ made. is_flat_call made ≡ true) }
{
    match plan {
        Plan::Step(pid, choice) => Ok(Call::Give(Plan::Step(*pid, *choice))),
        Plan::Next(pid) => Ok(Call::Give(Plan::Next(*pid))),
        Plan::Undo(pid) => Ok(Call::Give(Plan::Undo(*pid))),
        Plan::Redo(pid) => Ok(Call::Give(Plan::Redo(*pid))),
        Plan::Rollback(pid, place) => Ok(Call::Give(Plan::Rollback(*pid, *place))),
        Plan::Goto(name) => Ok(Call::Give(Plan::Goto(*name))),
        Plan::Clear(name) => Ok(Call::Give(Plan::Clear(*name))),
        Plan::Arm(name) => Ok(Call::Give(Plan::Arm(*name))),
        Plan::Pass(name) => Ok(Call::Give(Plan::Pass(*name))),
        Plan::Break(_, _) => Ok(Call::Give(plan.copy()?)),
        Plan::Batch(plans) => {
            let ones = add_copies(plans, Vec::new(*plans.allocator()))?;
            Ok(Call::Give(Plan::Batch(ones)))
        }
    }
}
