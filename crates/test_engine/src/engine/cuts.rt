//! Tests of `cut_core`: which cuts are consistent, and the least one above a cut.

ghost use Rattle.std.specs.Prelude.{◌≡◌};
ghost use Rattle.cut_core.specs.ConsistentCuts.{IsConsistentCut, places};

use crate::expecting::{expect_same, expect_true};
use cut_core::{Kind, Tally, is_consistent, least_above};
use dbg_base::{Cut, Pid};
use std::alloc::{AllocError, Global};
use std::process::Abort;
use std::test::Fail;

const A: Pid = Pid(0);

const B: Pid = Pid(1);

const C: Pid = Pid(2);

// The first process sends to the second, the second to the third, and the third has one more event.
const RELAY: [(Pid, Kind); 7] = [
    (A, Kind::Local),
    (A, Kind::Sent(B)),
    (A, Kind::Sent(B)),
    (B, Kind::Got(A)),
    (B, Kind::Sent(C)),
    (C, Kind::Got(B)),
    (C, Kind::Local),
];

// Three processes, with these events.
fn relay(alloc: Global) -> Result<Tally, AllocError> {
    let mut tally = Tally::new(alloc, 3)?;
    for (pid, kind) in &RELAY {
        if pid.0 < tally.processes() {
            tally.reserve(*pid, 1)?;
            tally.note(*pid, *kind);
        }
    }
    Ok(tally)
}

fn cut(alloc: Global, counts: &[u32]) -> Result<Cut, AllocError> {
    Ok(Cut::new(Vec::from_slice(alloc, counts)?))
}

// The counts of cuts, and whether each is consistent: it has the cause of each of its events, and one count for each process.
const CUTS: [(&[u32], bool); 5] = [
    (&[3, 2, 2], true),
    (&[2, 2, 1], true),
    (&[1, 2, 1], false),
    (&[4, 2, 1], false),
    (&[2, 2], false),
];

#[test]
fn cuts_keep_causes(rt: HostRuntime) -> Result<(), Fail> {
    let tally = relay(rt.alloc())?;
    for (counts, wanted) in &CUTS {
        let cut = cut(rt.alloc(), counts)?;
        expect_same(
            &rt,
            (*counts, is_consistent(&tally, &cut)),
            (*counts, *wanted),
        );
    }
    Ok(())
}

// Expects the least cut that is at least this one.
fn expect_least(
    rt: &impl Abort,
    alloc: Global,
    tally: &Tally,
    counts: &[u32],
    wanted: Option<&[u32]>,
) -> Result<(), AllocError>
    requires { IsConsistentCut tally.now.kinds (places tally.now.kinds) }
{
    let cut = cut(alloc, counts)?;
    expect_true(rt, cut.counts().len() == tally.processes() as usize);
    let least = least_above(alloc, tally, &cut)?;
    expect_same(rt, least.as_ref().map(|cut| cut.counts()), wanted);
    Ok(())
}

// Expects the least cuts above two others. The cut of all events is consistent.
fn expect_up(rt: &impl Abort, alloc: Global, tally: &Tally, all: &Cut) -> Result<(), AllocError>
    requires { all.now ≡ places tally.now.kinds }
{
    expect_true(rt, is_consistent(tally, all));
    expect_least(rt, alloc, tally, &[0, 0, 1], Some(&[2, 2, 1]))?;
    expect_least(rt, alloc, tally, &[1, 2, 9], None)
}

#[test]
fn cuts_go_up(rt: HostRuntime) -> Result<(), Fail> {
    let tally = relay(rt.alloc())?;
    let all = tally.all_events(rt.alloc())?;
    expect_up(&rt, rt.alloc(), &tally, &all)?;
    Ok(())
}
