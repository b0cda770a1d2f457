//! A call in few bytes.

ghost use Rattle.std.specs.Prelude.{◌≡◌, ◌↔◌, IsTrue, IfOk, true, false, None};
ghost use Rattle.std.specs.Option.{option_map};
ghost use Rattle.dbg_base.specs.Calls.{Give, Ask, order_of, query_of, call_of};
ghost use Rattle.dbg_base.specs.Copies.{IsCopy};
ghost use Rattle.dbg_records.specs.Flat.{is_flat_call};
ghost use Rattle.dbg_records.specs.Small.{small_call_of, is_flat_small, is_apart, HasAgain, IsGiven};

use crate::flat_call::call_that_gives;
use crate::same_call::is_same_call;
use dbg_base::{Call, Choice, Pid, Plan, Query, Refusal};
use std::alloc::Global;

/// A call in 16 bytes: frequent calls are stored in place, others in a box. The cases are those of `Call`, `Plan` and `Query`.
#[derive(Debug, Drop)]
pub enum SmallCall {
    Step(Pid, Choice),
    Next(Pid),
    Undo(Pid),
    Redo(Pid),
    Rollback(Pid, u32),
    Back,
    Vars(Pid),
    Chan(Pid, Pid),
    Clock(Pid),
    Place(Pid),
    Can(Pid),
    Apart(Box<Call>),
}

const _: () = prove!(size_of::<SmallCall>() <= 16);

/// A call that gives a command, twice: in few bytes, and once more if those are a box.
#[derive(Debug, Drop)]
pub struct GivenCall {
    pub small: SmallCall,
    pub again: Option<Box<Call>>,
}

// The same for a call that is stored in a box.
#[inline(never)]
fn give_apart(alloc: Global, plan: &Plan) -> Result<GivenCall, Refusal>
    ensures gives { IsCopy result (λ made. IsGiven (Give (order_of plan.now)) made.small (option_map (λ call. call.value) made.again)) }
{
    let again = Box::new(alloc, call_that_gives(plan)?)?;
    Ok(GivenCall {
        small: SmallCall::Apart(Box::new(alloc, call_that_gives(plan)?)?),
        again: Some(again),
    })
}

// The same for a call that is stored in place.
fn give_in_place(small: SmallCall) -> GivenCall
    ensures small { result.small ≡ small }
    ensures again { result.again ≡ None }
{
    GivenCall { small, again: None }
}

impl GivenCall {
    /// The call that gives this command, without a batch within a batch. Error: `Memory`, if an allocation fails.
    pub fn new(alloc: Global, plan: &Plan) -> Result<GivenCall, Refusal>
        ensures gives { IsCopy result (λ made. IsGiven (Give (order_of plan.now)) made.small (option_map (λ call. call.value) made.again)) }
    {
        match plan {
            Plan::Step(pid, choice) => Ok(give_in_place(SmallCall::Step(*pid, *choice))),
            Plan::Next(pid) => Ok(give_in_place(SmallCall::Next(*pid))),
            Plan::Undo(pid) => Ok(give_in_place(SmallCall::Undo(*pid))),
            Plan::Redo(pid) => Ok(give_in_place(SmallCall::Redo(*pid))),
            Plan::Rollback(pid, place) => Ok(give_in_place(SmallCall::Rollback(*pid, *place))),
            _ => give_apart(alloc, plan),
        }
    }
}

impl SmallCall {
    /// The call that asks this query. Error: `Memory`, if an allocation fails.
    pub fn ask(alloc: Global, query: &Query) -> Result<SmallCall, Refusal>
        ensures copies { IsCopy result (λ made. small_call_of made ≡ Ask (query_of query.now)) }
        ensures flat { IfOk result (λ made. is_flat_small made ≡ true) }
    {
        match query {
            Query::Vars(pid) => Ok(SmallCall::Vars(*pid)),
            Query::Chan(source, target) => Ok(SmallCall::Chan(*source, *target)),
            Query::Clock(pid) => Ok(SmallCall::Clock(*pid)),
            Query::Place(pid) => Ok(SmallCall::Place(*pid)),
            Query::Can(pid) => Ok(SmallCall::Can(*pid)),
            Query::CutOf(_) | Query::Why(_) | Query::Breaks => {
                Ok(SmallCall::Apart(Box::new(alloc, Call::Ask(*query))?))
            }
        }
    }

    /// The call. `again` is a copy of it if it is stored in a box. It does not allocate.
    #[inline(never)]
    pub fn in_full(&self, again: Option<Box<Call>>) -> Call
        requires { HasAgain self.now (option_map (λ call. call.value) again) }
        ensures call { call_of result ≡ small_call_of self.now }
        ensures flat { is_flat_call result ≡ true }
    {
        match again {
            Some(call) => Box::into_inner(call),
            None => self.in_place(),
        }
    }

    // The call, which is not stored in a box. It is not inlined, so that each kind of call is put together where it is returned.
    #[inline(never)]
    fn in_place(&self) -> Call
        requires { is_apart self.now ≡ false }
        ensures call { call_of result ≡ small_call_of self.now }
        ensures flat { is_flat_call result ≡ true }
    {
        match self {
            SmallCall::Step(pid, choice) => Call::Give(Plan::Step(*pid, *choice)),
            SmallCall::Next(pid) => Call::Give(Plan::Next(*pid)),
            SmallCall::Undo(pid) => Call::Give(Plan::Undo(*pid)),
            SmallCall::Redo(pid) => Call::Give(Plan::Redo(*pid)),
            SmallCall::Rollback(pid, place) => Call::Give(Plan::Rollback(*pid, *place)),
            SmallCall::Back => Call::Back,
            SmallCall::Vars(pid) => Call::Ask(Query::Vars(*pid)),
            SmallCall::Chan(source, target) => Call::Ask(Query::Chan(*source, *target)),
            SmallCall::Clock(pid) => Call::Ask(Query::Clock(*pid)),
            SmallCall::Place(pid) => Call::Ask(Query::Place(*pid)),
            SmallCall::Can(pid) => Call::Ask(Query::Can(*pid)),
            SmallCall::Apart(_) => unreachable!(),
        }
    }

    /// A copy of the call. Error: `Memory`, if an allocation fails.
    pub fn call(&self) -> Result<Call, Refusal>
        ensures { IsCopy result (λ made. call_of made ≡ small_call_of self.now) }
    {
        match self {
            SmallCall::Apart(call) => call.copy(),
            _ => Ok(self.in_place()),
        }
    }

    /// Whether it is this call. Neither may have a batch within a batch. It does not allocate.
    pub fn is_call(&self, call: &Call) -> bool
        requires { (is_flat_small self.now ≡ true) × (is_flat_call call.now ≡ true) }
        ensures { IsTrue result ↔ (small_call_of self.now ≡ call_of call.now) }
    {
        match (self, call) {
            (SmallCall::Step(one, first), Call::Give(Plan::Step(other, second))) => {
                one == other && first == second
            }
            (SmallCall::Next(one), Call::Give(Plan::Next(other))) => one == other,
            (SmallCall::Undo(one), Call::Give(Plan::Undo(other))) => one == other,
            (SmallCall::Redo(one), Call::Give(Plan::Redo(other))) => one == other,
            (SmallCall::Rollback(one, first), Call::Give(Plan::Rollback(other, second))) => {
                one == other && first == second
            }
            (SmallCall::Back, Call::Back) => true,
            (SmallCall::Vars(one), Call::Ask(Query::Vars(other))) => one == other,
            (SmallCall::Chan(one, first), Call::Ask(Query::Chan(other, second))) => {
                one == other && first == second
            }
            (SmallCall::Clock(one), Call::Ask(Query::Clock(other))) => one == other,
            (SmallCall::Place(one), Call::Ask(Query::Place(other))) => one == other,
            (SmallCall::Can(one), Call::Ask(Query::Can(other))) => one == other,
            (SmallCall::Apart(one), other) => is_same_call(one, other),
            _ => false,
        }
    }
}
