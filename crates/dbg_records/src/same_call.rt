//! Whether two calls are the same.

ghost use Rattle.std.specs.Prelude.{◌≡◌, ◌↔◌, IsTrue, true, map};
ghost use Rattle.dbg_base.specs.Calls.{conjunct_of, query_of, order_of, plans_in, call_of};
ghost use Rattle.dbg_records.specs.Flat.{is_one, are_ones, is_flat, is_flat_call};

use crate::same_expr::is_same_expr;
use dbg_base::{Call, Conjunct, Plan, Query};

fn is_same_conjunct(left: &Conjunct, right: &Conjunct) -> bool
    ensures { IsTrue result ↔ (conjunct_of left.now ≡ conjunct_of right.now) }
{
    left.pid == right.pid && is_same_expr(&left.expr, &right.expr)
}

fn are_same_conjuncts(left: &[Conjunct], right: &[Conjunct]) -> bool
    ensures { IsTrue result ↔ (map conjunct_of left.now ≡ map conjunct_of right.now) }
{
    match (left.split_first(), right.split_first()) {
        (Some((one, rest)), Some((other, others))) => {
            is_same_conjunct(one, other) && are_same_conjuncts(rest, others)
        }
        (None, None) => true,
        _ => false,
    }
}

fn is_same_query(left: &Query, right: &Query) -> bool
    ensures { IsTrue result ↔ (query_of left.now ≡ query_of right.now) }
{
    match (left, right) {
        (Query::Vars(one), Query::Vars(other)) => one == other,
        (Query::Chan(one, first), Query::Chan(other, second)) => one == other && first == second,
        (Query::Clock(one), Query::Clock(other)) => one == other,
        (Query::Place(one), Query::Place(other)) => one == other,
        (Query::Can(one), Query::Can(other)) => one == other,
        (Query::CutOf(one), Query::CutOf(other)) => one == other,
        (Query::Why(one), Query::Why(other)) => one == other,
        (Query::Breaks, Query::Breaks) => true,
        _ => false,
    }
}

fn is_same_one(left: &Plan, right: &Plan) -> bool
    requires { (is_one left.now ≡ true) × (is_one right.now ≡ true) }
    ensures { IsTrue result ↔ (order_of left.now ≡ order_of right.now) }
{
    match (left, right) {
        (Plan::Step(one, first), Plan::Step(other, second)) => one == other && first == second,
        (Plan::Next(one), Plan::Next(other)) => one == other,
        (Plan::Undo(one), Plan::Undo(other)) => one == other,
        (Plan::Redo(one), Plan::Redo(other)) => one == other,
        (Plan::Rollback(one, first), Plan::Rollback(other, second)) => {
            one == other && first == second
        }
        (Plan::Goto(one), Plan::Goto(other)) => one == other,
        (Plan::Break(one, first), Plan::Break(other, second)) => {
            one == other && are_same_conjuncts(first.items(), second.items())
        }
        (Plan::Clear(one), Plan::Clear(other)) => one == other,
        (Plan::Arm(one), Plan::Arm(other)) => one == other,
        (Plan::Pass(one), Plan::Pass(other)) => one == other,
        _ => false,
    }
}

fn are_same_ones(left: &[Plan], right: &[Plan]) -> bool
    requires { (are_ones left.now ≡ true) × (are_ones right.now ≡ true) }
    ensures { IsTrue result ↔ (plans_in left.now ≡ plans_in right.now) }
{
    match (left.split_first(), right.split_first()) {
        (Some((one, rest)), Some((other, others))) => {
            is_same_one(one, other) && are_same_ones(rest, others)
        }
        (None, None) => true,
        _ => false,
    }
}

fn is_same_plan(left: &Plan, right: &Plan) -> bool
    requires { (is_flat left.now ≡ true) × (is_flat right.now ≡ true) }
    ensures { IsTrue result ↔ (order_of left.now ≡ order_of right.now) }
{
    match (left, right) {
        (Plan::Batch(one), Plan::Batch(other)) => are_same_ones(one.as_slice(), other.as_slice()),
        (Plan::Batch(_), _) | (_, Plan::Batch(_)) => false,
        (one, other) => is_same_one(one, other),
    }
}

/// Whether two calls are the same. Neither may have a batch within a batch. It does not allocate.
pub(crate) fn is_same_call(left: &Call, right: &Call) -> bool
    requires { (is_flat_call left.now ≡ true) × (is_flat_call right.now ≡ true) }
    ensures { IsTrue result ↔ (call_of left.now ≡ call_of right.now) }
{
    match (left, right) {
        (Call::Give(one), Call::Give(other)) => is_same_plan(one, other),
        (Call::Back, Call::Back) => true,
        (Call::Ask(one), Call::Ask(other)) => is_same_query(one, other),
        _ => false,
    }
}
