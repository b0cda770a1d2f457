//! Tests of `Scan::wide` of `least_cut`: it makes the same scan as `of`, and its workers run at the same time.

use crate::engine::gate::MeetingGate;
use crate::engine::worlds::{conjunct, parsed, played};
use crate::expecting::expect_same;
use dbg_base::{Choice, Pid};
use least_cut::Scan;
use std::alloc::{AllocError, Global};
use test_programs::{MEMORY, THREE};

const A: Pid = Pid(0);

const B: Pid = Pid(1);

const C: Pid = Pid(2);

// The first sends twice, the third counts once, and the second receives one message.
const MOVES: [(Pid, Choice); 4] = [
    (A, Choice(0)),
    (A, Choice(0)),
    (C, Choice(0)),
    (B, Choice(0)),
];

fn shown(alloc: Global, scan: &Scan) -> Result<String, AllocError> {
    format!(in alloc; "{scan:?}")
}

#[test]
fn scan_meets(rt: HostRuntime) {
    let alloc = rt.alloc();
    let program = parsed(&rt, alloc, THREE);
    let world = played(&rt, alloc, &program, &MOVES);
    let conjuncts = [
        conjunct(&rt, alloc, &program, A, "(x = 2)"),
        conjunct(&rt, alloc, &program, B, "(n = 1)"),
    ];
    let gate = MeetingGate::new([true, true, false]);
    let wide = Scan::wide(&rt, alloc, &world, &conjuncts, &gate).expect(&rt, MEMORY);
    expect_same(&rt, gate.reported(), [true, true, false]);
    let plain = Scan::of(alloc, &world, &conjuncts).expect(&rt, MEMORY);
    let wide = shown(alloc, &wide).expect(&rt, MEMORY);
    let plain = shown(alloc, &plain).expect(&rt, MEMORY);
    expect_same(&rt, wide.as_str(), plain.as_str());
}
