//! Tests of `event_rows`: `truths_par` makes the lists of `truths`, whatever the gate answers, and calls the gate before and after each.

use crate::engine::gate::MeetingGate;
use crate::expecting::expect_same;
use dbg_base::{Choice, Expr, Pid};
use event_rows::{Event, Exchange, Rows, Setting};
use proc_lang::{parse_predicate, parse_program};
use proc_tree::Program;
use std::alloc::{AllocError, Global};
use std::process::Abort;
use std::sync::Wait;
use std::thread::Threads;
use test_programs::MEMORY;

const A: Pid = Pid(0);

const B: Pid = Pid(1);

// A process that does not exist.
const FAR: Pid = Pid(2);

// The process sets its variable.
fn push(rows: &mut Rows, alloc: Global, pid: Pid, values: (i64, i64)) -> Result<(), AllocError> {
    let (old, new) = values;
    let setting = Setting {
        variable: 0,
        old,
        new,
    };
    let event = Event::new(alloc, Choice(0), &[setting], Exchange::Nothing)?;
    if rows.has(pid) {
        rows.reserve(pid, 1)?;
        rows.push(pid, event);
    }
    Ok(())
}

// The first process has set its variable to 5 and 7, and the second to 9.
fn three_events(rt: &impl Abort, alloc: Global, program: &Program) -> Rows {
    let mut rows = Rows::new(alloc, program).expect(rt, MEMORY);
    for (pid, values) in [(A, (3, 5)), (A, (5, 7)), (B, (4, 9))] {
        push(&mut rows, alloc, pid, values).expect(rt, MEMORY);
    }
    rows
}

fn predicate(rt: &impl Abort, alloc: Global, program: &Program, text: &str) -> Expr {
    assert!(rt; program.processes() == 2);
    parse_predicate(alloc, program, A, text.as_bytes()).expect(rt, "a predicate")
}

// Expects the lists of `truths` of two processes and of one that does not exist, made by workers that come to this gate.
fn expect_lists<R: Threads + Wait + Sync + Abort>(rt: &R, alloc: Global, gate: &MeetingGate) {
    let text = "process a { var x = 3; } process b { var y = 4; }";
    let program = parse_program(alloc, text.as_bytes()).expect(rt, "a program");
    let rows = three_events(rt, alloc, &program);
    let four = predicate(rt, alloc, &program, "(x > 4)");
    let six = predicate(rt, alloc, &program, "(x > 6)");
    let named = [(A, &six), (B, &four), (FAR, &four)];
    let lists = rows.truths_par(rt, alloc, &named, gate).expect(rt, MEMORY);
    let wanted: [&[bool]; 3] = [&[false, false, true], &[false, true], &[false]];
    expect_same(rt, lists.len(), wanted.len());
    for (list, want) in lists.iter().zip(wanted) {
        expect_same(rt, list.items(), want);
    }
}

// Expects each worker to ask a gate that lets these start, and those that it lets start to report.
fn expect_notes<R: Threads + Wait + Sync + Abort>(rt: &R, alloc: Global, lets: [bool; 3]) {
    let gate = MeetingGate::new(lets);
    expect_lists(rt, alloc, &gate);
    expect_same(rt, gate.asked(), [true, true, true]);
    expect_same(rt, gate.reported(), lets);
}

#[test]
fn each_worker_asks_and_those_that_may_start_report(rt: HostRuntime) {
    // all start, one is barred, and all are
    for lets in [
        [true, true, true],
        [true, false, true],
        [false, false, false],
    ] {
        expect_notes(&rt, rt.alloc(), lets);
    }
}
