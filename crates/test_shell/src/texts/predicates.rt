//! Predicates of one process: texts that no line `break` can have, and the kinds of faults that an explanation calls by one name.

use super::lengths::filled;
use super::{Place, place_of};
use crate::expecting::expect_same;
use dbg_base::{Expr, Pid};
use proc_lang::{ProgError, parse_predicate, parse_program};
use proc_tree::Program;
use std::alloc::Global;
use std::process::Abort;
use test_programs::MEMORY;

const PROGRAM: &[u8] =
    b"process a { var x = 0; var y = 0; } process b { var z = 0; when true : send a z; } process c { }";

pub(super) fn program(rt: &impl Abort, alloc: Global) -> Program {
    parse_program(alloc, PROGRAM).expect(rt, "a program")
}

fn read(
    rt: &impl Abort,
    alloc: Global,
    program: &Program,
    process: u32,
    text: &[u8],
) -> Result<Expr, ProgError> {
    assert!(rt; process < program.processes());
    parse_predicate(alloc, program, Pid(process), text)
}

#[test]
fn blanks_and_line_ends_separate_tokens(rt: HostRuntime) {
    let program = program(&rt, rt.alloc());
    let expr = read(&rt, rt.alloc(), &program, 0, b"\t( x\r\n= 007 ) ");
    let reported = format!(in rt.alloc(); "{expr:?}").expect(&rt, MEMORY);
    let want = "Ok(Binary(Equal, Variable(0), Number(7)))";
    expect_same(&rt, reported.as_str(), want);
}

// A process, a kind of fault, and texts, each with a mark `^` at the fault.
const REFUSED: &[(u32, u32, &[&str])] = &[
    (0, 1, &["true ^.", "x y ^?"]),
    (0, 2, &["true ^9223372036854775808"]),
    (
        0,
        3,
        &[
            "^",
            " \t^",
            "true ^true",
            "(x = 1) ^(y = 1)",
            "(x = 1)^;",
            "(x = 1)^)",
            "x ^= 1",
            "sent(b) ^= 1",
            "(x = 1^",
            "(^",
            "(sent ^= 1)",
            "(1 = got(b^",
            "^when",
            "^when true : x := 1;",
            "^process a { }",
            "^=",
            "x ^y",
        ],
    ),
    (0, 8, &["(sent(^a) = 0)", "(0 = got(^a))"]),
    (1, 8, &["(got(^b) = sent(a))"]),
    (2, 8, &["(sent(^c) = 0)"]),
];

// The place of the fault of a predicate.
fn fault_of(
    rt: &impl Abort,
    alloc: Global,
    program: &Program,
    process: u32,
    text: &[u8],
) -> Option<Place> {
    read(rt, alloc, program, process, text).err().map(place_of)
}

// Expects a predicate to be refused at its mark.
fn expect_fault(
    rt: &impl Abort,
    alloc: Global,
    program: &Program,
    process: u32,
    kind: u32,
    marked: &str,
) {
    let (before, after) = marked.split_once('^').unwrap_or((marked, ""));
    let mut text = Vec::from_slice(alloc, before.as_bytes()).expect(rt, MEMORY);
    text.extend_from_slice(after.as_bytes()).expect(rt, MEMORY);
    let fault = fault_of(rt, alloc, program, process, text.as_slice());
    expect_same(rt, (marked, fault), (marked, Some((kind, before.len()))));
}

fn expect_faults(
    rt: &impl Abort,
    alloc: Global,
    program: &Program,
    process: u32,
    kind: u32,
    cases: &[&str],
) {
    for marked in cases {
        expect_fault(rt, alloc, program, process, kind, marked);
    }
}

#[test]
fn predicates_are_refused(rt: HostRuntime) {
    let program = program(&rt, rt.alloc());
    for (process, kind, cases) in REFUSED {
        expect_faults(&rt, rt.alloc(), &program, *process, *kind, cases);
    }
}

// Expects the first fault of a predicate that is filled up to so many bytes.
fn expect_filled(
    rt: &impl Abort,
    alloc: Global,
    program: &Program,
    bytes: usize,
    want: Option<Place>,
) {
    let text = filled(rt, alloc, "true", bytes);
    let fault = fault_of(rt, alloc, program, 0, text.as_slice());
    expect_same(rt, (bytes, fault), (bytes, want));
}

#[test]
fn a_predicate_has_at_most_1048576_bytes(rt: HostRuntime) {
    let program = program(&rt, rt.alloc());
    expect_filled(&rt, rt.alloc(), &program, 1_048_576, None);
    expect_filled(&rt, rt.alloc(), &program, 1_048_577, Some((7, 1_048_576)));
}
