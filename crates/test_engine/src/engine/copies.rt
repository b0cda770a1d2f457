//! Tests of `dbg_base`: a copy shows the same as its original.

use crate::expecting::expect_same;
use dbg_base::{
    Answer, Call, Choice, Conjunct, Cut, Done, Expr, Head, Name, Pid, Plan, Query, Refusal, Reply,
    Said, Sequence,
};
use proc_lang::{parse_predicate, parse_program};
use std::alloc::{AllocError, Global};
use std::fmt::Debug;
use std::process::Abort;
use test_programs::MEMORY;

fn shown<T: Debug>(alloc: Global, value: &T) -> Result<String, AllocError> {
    format!(in alloc; "{value:?}")
}

// Expects that a copy shows the same as its original.
fn expect_copy<T: Debug>(rt: &impl Abort, alloc: Global, copy: &Result<T, Refusal>, of: &T) {
    let copy = copy.as_ref().expect(rt, MEMORY);
    let copy = shown(alloc, copy).expect(rt, MEMORY);
    let of = shown(alloc, of).expect(rt, MEMORY);
    expect_same(rt, copy.as_str(), of.as_str());
}

fn name(rt: &impl Abort) -> Name {
    Name::new(b"k").expect(rt, "a name")
}

fn sequence<T: Copy>(rt: &impl Abort, alloc: Global, items: &[T]) -> Sequence<T> {
    Sequence::new(Vec::from_slice(alloc, items).expect(rt, MEMORY))
}

fn cut(rt: &impl Abort, alloc: Global) -> Cut {
    Cut::new(Vec::from_slice(alloc, &[0, 20_000]).expect(rt, MEMORY))
}

// An expression of each form.
fn every_form(rt: &impl Abort, alloc: Global) -> Expr {
    let text = "process a { var x = 0; } process b { } process c { }";
    let program = parse_program(alloc, text.as_bytes()).expect(rt, "a program");
    assert!(rt; program.processes() == 3);
    let text = "(((not (sent(b) = (- got(c)))) or (x < 7)) and true)";
    parse_predicate(alloc, &program, Pid(0), text.as_bytes()).expect(rt, "a predicate")
}

// A batch of two commands. One sets a breakpoint on the expression.
fn batch(rt: &impl Abort, alloc: Global, expr: Expr) -> Plan {
    let conjunct = Conjunct { pid: Pid(3), expr };
    expect_copy(rt, alloc, &conjunct.copy(), &conjunct);
    let conjuncts = Vec::from_array(alloc, [conjunct]).expect(rt, MEMORY);
    let set = Plan::Break(name(rt), Sequence::new(conjuncts));
    let plans = [set, Plan::Step(Pid(1), Choice(2))];
    Plan::Batch(Vec::from_array(alloc, plans).expect(rt, MEMORY))
}

#[test]
fn calls_are_copied(rt: HostRuntime) {
    let alloc = rt.alloc();
    let expr = every_form(&rt, alloc);
    expect_copy(&rt, alloc, &expr.copy(), &expr);
    let plan = batch(&rt, alloc, expr);
    expect_copy(&rt, alloc, &plan.copy(), &plan);
    let call = Call::Give(plan);
    expect_copy(&rt, alloc, &call.copy(), &call);
    let query = Query::Chan(Pid(0), Pid(1));
    expect_copy(&rt, alloc, &query.copy(), &query);
}

// Answers that have lists, and others.
fn answers(rt: &impl Abort, alloc: Global) -> Vec<Answer> {
    let answers = [
        Answer::Values(sequence(rt, alloc, &[1, -2])),
        Answer::Messages(sequence(rt, alloc, &[3])),
        Answer::Counts(cut(rt, alloc)),
        Answer::CanUndo(Err(Refusal::Consequence(Pid(1)))),
        Answer::CutIs(Some(cut(rt, alloc))),
        Answer::Frontier(sequence(rt, alloc, &[Head::At(4), Head::Past])),
        Answer::Marks(sequence(rt, alloc, &[(name(rt), true)])),
    ];
    Vec::from_array(alloc, answers).expect(rt, MEMORY)
}

// Expects a copy of what is said.
fn expect_said(rt: &impl Abort, alloc: Global, said: &Said) {
    expect_copy(rt, alloc, &said.copy(), said);
}

#[test]
fn what_is_said_is_copied(rt: HostRuntime) {
    let alloc = rt.alloc();
    for answer in answers(&rt, alloc) {
        expect_said(&rt, alloc, &Said::Answered(answer));
    }
    let done = Done::Places(cut(&rt, alloc));
    let halted = Some(name(&rt));
    expect_said(&rt, alloc, &Said::Accepted(Reply { done, halted }));
    expect_said(&rt, alloc, &Said::Refused(Refusal::OtherSeat(2)));
    let cut = cut(&rt, alloc);
    expect_copy(&rt, alloc, &cut.copy(), &cut);
}
