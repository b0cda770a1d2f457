//! What a seat may ask of a session.

ghost use Rattle.std.specs.Prelude.{◌≡◌, ◌↔◌, map, Ok, IsTrue};
ghost use Rattle.dbg_base.specs.Calls.{conjunct_of, order_of, IsBatch, call_of};
ghost use Rattle.dbg_base.specs.Copies.{IsCopy};

use crate::expr::Expr;
use crate::ids::{Choice, Pid};
use crate::name::Name;
use crate::refusal::Refusal;
use crate::sequence::Sequence;

/// One part of a breakpoint's predicate: a truth expression of one process.
#[derive(Debug, Drop)]
pub struct Conjunct {
    pub pid: Pid,
    pub expr: Expr,
}

impl Conjunct {
    /// Copies the conjunct. Error: `Memory`, if an allocation fails.
    pub fn copy(&self) -> Result<Conjunct, Refusal>
        ensures { IsCopy result (λ made. conjunct_of made ≡ conjunct_of self.now) }
    {
        let expr = self.expr.copy()?;
        Ok(Conjunct {
            pid: self.pid,
            expr,
        })
    }
}

/// Copies the conjuncts. Error: `Memory`, if an allocation fails.
pub fn copy_conjuncts(conjuncts: &Sequence<Conjunct>) -> Result<Sequence<Conjunct>, Refusal>
    ensures { IsCopy result (λ made. map conjunct_of made ≡ map conjunct_of conjuncts.now) }
{
    let mut made = Vec::new(conjuncts.allocator());
    for conjunct in conjuncts.items() {
        made.push(conjunct.copy()?)?;
    }
    Ok(Sequence::new(made))
}

/// A command, or a batch of commands. It changes the session if it is accepted.
#[derive(Debug, Drop)]
pub enum Plan {
    /// Makes the process fire this command.
    Step(Pid, Choice),
    /// Makes the process fire its first command that can fire.
    Next(Pid),
    /// Undoes the last event of the process.
    Undo(Pid),
    /// Makes the process fire the first command of its redo line again.
    Redo(Pid),
    /// Takes the process back to this count of events, and the others no further than they must go.
    Rollback(Pid, u32),
    /// Takes all processes back to the breakpoint's cut.
    Goto(Name),
    /// Sets a breakpoint, armed.
    Break(Name, Sequence<Conjunct>),
    /// Removes the breakpoint.
    Clear(Name),
    /// Arms the breakpoint: it halts the session again.
    Arm(Name),
    /// Disarms the breakpoint: it no longer halts the session.
    Pass(Name),
    /// Commands of the other kinds, one after the other: all of them are accepted, or none.
    Batch(Vec<Plan>),
}

// Copies the commands. Error: `Memory`, if an allocation fails.
#[cycle(plan)]
fn copy_plans(plans: &Vec<Plan>) -> Result<Vec<Plan>, Refusal>
    ensures { IsCopy result (λ made. map order_of made.items ≡ map order_of plans.now.items) }
{
    let mut made = Vec::new(*plans.allocator());
    for plan in plans {
        made.push(plan.copy()?)?;
    }
    Ok(made)
}

impl Plan {
    /// Copies the command. Error: `Memory`, if an allocation fails.
    #[cycle(plan)]
    pub fn copy(&self) -> Result<Plan, Refusal>
        ensures { IsCopy result (λ made. order_of made ≡ order_of self.now) }
    {
        match self {
            Plan::Step(pid, choice) => Ok(Plan::Step(*pid, *choice)),
            Plan::Next(pid) => Ok(Plan::Next(*pid)),
            Plan::Undo(pid) => Ok(Plan::Undo(*pid)),
            Plan::Redo(pid) => Ok(Plan::Redo(*pid)),
            Plan::Rollback(pid, place) => Ok(Plan::Rollback(*pid, *place)),
            Plan::Goto(name) => Ok(Plan::Goto(*name)),
            Plan::Break(name, conjuncts) => Ok(Plan::Break(*name, copy_conjuncts(conjuncts)?)),
            Plan::Clear(name) => Ok(Plan::Clear(*name)),
            Plan::Arm(name) => Ok(Plan::Arm(*name)),
            Plan::Pass(name) => Ok(Plan::Pass(*name)),
            Plan::Batch(plans) => Ok(Plan::Batch(copy_plans(plans)?)),
        }
    }

    /// Whether it is a batch. It does not allocate.
    pub fn is_batch(&self) -> bool
        ensures { IsTrue result ↔ IsBatch (order_of self.now) }
    {
        matches!(self, Plan::Batch(_))
    }
}

/// A query, which changes nothing.
#[derive(Clone, Copy, Debug, PartialEq, Eq)]
pub enum Query {
    /// The values of the process's variables.
    Vars(Pid),
    /// The messages on the way from the first process to the second.
    Chan(Pid, Pid),
    /// The vector clock of the process's present state.
    Clock(Pid),
    /// The place of the process, and the length of its line.
    Place(Pid),
    /// Whether the process's last event may be undone.
    Can(Pid),
    /// The breakpoint's cut.
    CutOf(Name),
    /// The frontier that the breakpoint's search reached.
    Why(Name),
    /// All breakpoints with their marks.
    Breaks,
}

impl Query {
    /// Copies the query. It does not allocate, and never fails.
    pub fn copy(&self) -> Result<Query, Refusal>
        ensures { result ≡ Ok self.now }
    {
        Ok(*self)
    }
}

/// One call of a session.
#[derive(Debug, Drop)]
pub enum Call {
    /// A command.
    Give(Plan),
    /// Takes back the last accepted command.
    Back,
    /// A query.
    Ask(Query),
}

impl Call {
    /// Copies the call. Error: `Memory`, if an allocation fails.
    pub fn copy(&self) -> Result<Call, Refusal>
        ensures { IsCopy result (λ made. call_of made ≡ call_of self.now) }
    {
        match self {
            Call::Give(plan) => Ok(Call::Give(plan.copy()?)),
            Call::Back => Ok(Call::Back),
            Call::Ask(query) => Ok(Call::Ask(query.copy()?)),
        }
    }
}
