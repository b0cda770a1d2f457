//! Worked sessions with breakpoints.

use super::sessions::{GOING, GONE};
use super::{add, expect_long, expect_rows, joined, repeat};
use test_programs::{COUNTS, MEMORY, PAIR, THREE, TWO};

// Rows of breakpoints, of all kinds of commands, and of batches.
const BREAKPOINTS: [(&str, &str, &str, &str); 11] = [
    ("the least cut is gone to", TWO, GOING, GONE),
    // What b has received was sent, and after that send x is not 0.
    (
        "a breakpoint has no cut",
        TWO,
        "%%
1 break k a (x = 0) b (n = 1)
1 next a
1 next b
1 cut k
1 why k
1 goto k
",
        "ok
ok a 0
ok b 0
cut k none
why k a=past b=1
no 13
",
    ),
    // The process a is needed once, and c not at all.
    (
        "unnamed processes stand where they must",
        THREE,
        "%%
1 break m b (n = 1)
1 next a
1 next a
1 next c
1 next b
1 cut m
",
        "ok
ok a 0
ok a 0
ok c 0
ok b 0 halted m
cut m a=1 b=1 c=0
",
    ),
    // It undoes events, and continues once the breakpoint is passed.
    (
        "a halted session makes no event",
        TWO,
        "%%
1 break k a (x = 1) b (n = 1)
1 next a
1 next a
1 next b
1 next a
1 redo a
1 undo a
1 pass k
1 next a
1 breaks
1 pass k
1 arm k
1 arm k
",
        "ok
ok a 0
ok a 0
ok b 0 halted k
no 9 k
no 9 k
ok a 0 halted k
ok
ok a 0
breaks k off
no 14
ok halted k
no 15
",
    ),
    (
        "breakpoints stand in order",
        TWO,
        "%%
1 break k a (x = 0)
1 cut k
1 pass k
1 break m b (n = 1)
1 breaks
1 clear k
1 breaks
1 back
1 breaks
1 break k a (x = 1)
1 clear z
1 pass m
",
        "ok halted k
cut k a=0 b=0
ok
ok
breaks k off m on
ok
breaks m on
ok
breaks k off m on
no 11
no 12
no 13
",
    ),
    // A redo repeats the choice: the receive takes the new message, and the search forgets the old one.
    (
        "another message is received again",
        PAIR,
        "%%
1 break k s (u = 2) r (v = 7)
1 step s 0
1 step r 0
1 vars r
1 why k
1 undo r
1 undo s
1 step s 1
1 redo r
1 vars r
1 cut k
",
        "ok
ok s 0
ok r 0
vars r v=5
why k s=past r=past
ok r 0
ok s 0
ok s 1
ok r 0 halted k
vars r v=7
cut k s=1 r=1
",
    ),
    (
        "an evaluation that faults is not true",
        TWO,
        "%%
1 break k a ((x / 0) = 1)
1 cut k
1 break m a ((x = 0) or ((x / 0) = 1))
1 breaks
",
        "ok
cut k none
ok halted m
breaks k on m on
",
    ),
    (
        "lines are refused in order",
        TWO,
        "%%
17 next a
1 jump a
1 step a
1 break k a
1 break k a (x
1 break k a x
1 break k a (x = 1) a (x = 2)
1 break k d (x = 1)

",
        "no 22
no 22
no 22
no 22
no 23
no 23
no 23
no 1
",
    ),
    (
        "ten kinds of commands",
        TWO,
        "%%
1 break k b (n = 1)
1 step a 0
1 next b
1 pass k
1 undo b
1 redo b
1 arm k
1 goto k
1 rollback a 0
1 clear k
1 back
1 back
1 back
1 back
1 back
1 back
1 back
1 back
1 back
1 back
1 back
1 place b
1 breaks
",
        "ok
ok a 0
ok b 0 halted k
ok
ok b 0
ok b 0
ok halted k
ok a=1 b=1 halted k
ok a=0 b=0
ok
ok
ok halted k
ok halted k
ok
ok
ok
ok halted k
ok
ok
ok
no 16
place b 0 of 0
breaks
",
    ),
    (
        "counts of messages are in the past",
        COUNTS,
        "%%
1 next a
1 next a
1 next a
1 step a 0
1 chan a b
1 next b
1 next b
1 vars b
1 break k a (sent(b) = 1) b (got(a) = 1)
1 cut k
1 undo b
1 undo b
1 undo a
1 next a
1 chan a b
1 break m a (sent(a) = 0)
1 break m a sent(b)
",
        "ok a 0
ok a 0
no 24
no 3
chan a b 10 11
ok b 0
ok b 1
vars b y=11 z=12
ok halted k
cut k a=1 b=1
ok b 1 halted k
ok b 0
ok a 0
ok a 0
chan a b 10 11
no 23
no 23
",
    ),
    (
        "a batch is accepted or refused as one",
        TWO,
        "%%
1 batch next a ; next b ; undo b
1 place b
1 back
1 place a
1 place b
1 batch next a ; step b 1
1 place a
1 batch break k a (x = 1) ; next a ; next a
1 breaks
1 batch break k a (x = 1) ; next a
1 back
1 breaks
1 batch
1 batch back
1 batch next a ;
1 batch next d ; next a
",
        "ok
place b 0 of 1
ok
place a 0 of 0
place b 0 of 0
no 25 2 3
place a 0 of 0
no 25 3 9
breaks
ok halted k
ok
breaks
no 22
no 22
no 22
no 1
",
    ),
];

#[test]
fn sessions_halt_at_breakpoints(rt: HostRuntime) {
    expect_rows(&rt, rt.alloc(), &BREAKPOINTS);
}

// The 65th is refused, until one is cleared.
#[test]
fn there_are_at_most_64_breakpoints(rt: HostRuntime) {
    let mut input = joined(&rt, rt.alloc(), TWO, "%%\n");
    for number in 0..65u32 {
        let line = format!(in rt.alloc(); "1 break b{number} a (x = 5)\n").expect(&rt, MEMORY);
        add(&rt, &mut input, line.as_str());
    }
    add(&rt, &mut input, "1 clear b0\n1 break b64 a (x = 5)\n");
    let mut want = Vec::new(rt.alloc());
    repeat(&rt, &mut want, "ok\n", 64);
    add(&rt, &mut want, "no 19\nok\nok\n");
    expect_long(&rt, rt.alloc(), input.as_slice(), want.as_slice(), 0);
}
