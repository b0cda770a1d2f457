//! Orders of the same events, and lines, inputs and sessions at their limits.

use super::sessions::COUNTER;
use super::{add, expect_checked, expect_long, expect_served, joined, repeat, served};
use crate::expecting::expect_same;
use std::process::Abort;
use test_programs::{MEMORY, THREE, TWO};

// Queries after `a` has sent, `b` has received and `c` has worked alone, and the answers.
const QUESTIONS: &str = "1 vars a
1 vars b
1 vars c
1 chan a b
1 chan b a
1 chan c a
1 place a
1 place b
1 place c
1 clock a
1 clock b
1 clock c
1 can a
1 can b
1 can c
";

const ANSWERS: &str = "vars a x=1
vars b y=1 n=1
vars c z=1
chan a b
chan b a
chan c a
place a 1 of 1
place b 1 of 1
place c 1 of 1
clock a a=1 b=0 c=0
clock b a=1 b=1 c=0
clock c a=0 b=0 c=1
can a no 7 b
can b yes
can c yes
";

// The three events in two orders, and the replies.
const ORDERS: [(&str, &str); 2] = [
    (
        "%%\n1 next a\n1 next c\n1 next b\n",
        "ok a 0\nok c 0\nok b 0\n",
    ),
    (
        "%%\n1 next c\n1 next a\n1 next b\n",
        "ok c 0\nok a 0\nok b 0\n",
    ),
];

#[test]
fn concurrent_work_is_the_same_in_either_order(rt: HostRuntime) {
    for (lines, reported) in &ORDERS {
        let mut input = joined(&rt, rt.alloc(), THREE, lines);
        add(&rt, &mut input, QUESTIONS);
        let want = joined(&rt, rt.alloc(), reported, ANSWERS);
        let (replies, code) = served(rt.alloc(), input.as_slice());
        expect_same(
            &rt,
            (*lines, replies.as_slice(), code),
            (*lines, want.as_slice(), 0),
        );
    }
}

#[test]
fn programs_are_checked(rt: HostRuntime) {
    expect_checked(
        &rt,
        rt.alloc(),
        TWO.as_bytes(),
        "ok 2 processes 3 commands\n",
    );
    expect_checked(&rt, rt.alloc(), b"%%\n", "program refused 3 at 0\n");
}

// Appends blanks, the text and a line end, so many bytes in total.
fn push_line(rt: &impl Abort, all: &mut Vec<u8>, text: &str, bytes: usize) {
    let blanks = bytes.saturating_sub(text.len()).saturating_sub(1);
    let end = all.len().saturating_add(blanks);
    all.resize(end, b' ').expect(rt, MEMORY);
    add(rt, all, text);
    add(rt, all, "\n");
}

// Blanks before a text, and how many bytes the line has in total: 1,025 without its line end are too many.
const LINES: [(&str, usize); 5] = [
    ("1 next a", 1_026),
    ("1 next a", 1_025),
    ("", 1_026),
    ("", 1_025),
    ("1 vars a", 9),
];

#[test]
fn a_line_may_be_too_long(rt: HostRuntime) {
    let mut input = joined(&rt, rt.alloc(), TWO, "%%\n");
    for (line, bytes) in &LINES {
        push_line(&rt, &mut input, line, *bytes);
    }
    let want = "no 22\nok a 0\nno 22\nvars a x=1\n";
    expect_served(&rt, rt.alloc(), want, input.as_slice(), want);
}

// The last byte of the last line is one too many.
#[test]
fn an_input_may_be_too_long(rt: HostRuntime) {
    let mut input = joined(&rt, rt.alloc(), TWO, "%%\n");
    for _ in 0..1_048u32 {
        push_line(&rt, &mut input, "1 vars a", 1_000);
    }
    push_line(&rt, &mut input, "1 vars a", 391);
    expect_same(&rt, input.len(), 1_048_577);
    let mut want = Vec::new(rt.alloc());
    repeat(&rt, &mut want, "vars a x=0\n", 1_048);
    add(&rt, &mut want, "input too long\n");
    expect_long(&rt, rt.alloc(), input.as_slice(), want.as_slice(), 1);
}

// A process that is full, and one call more than can be entered.
#[test]
fn a_session_takes_100000_calls(rt: HostRuntime) {
    let mut input = joined(&rt, rt.alloc(), COUNTER, "%%\n");
    repeat(&rt, &mut input, "1 next c\n", 100_001);
    let mut want = Vec::new(rt.alloc());
    repeat(&rt, &mut want, "ok c 0\n", 20_000);
    repeat(&rt, &mut want, "no 18\n", 80_000);
    add(&rt, &mut want, "no 20\n");
    expect_long(&rt, rt.alloc(), input.as_slice(), want.as_slice(), 0);
}
