//! Worked sessions in which events are made and undone.

use super::expect_rows;
use test_programs::{THREE, TWO};

const NUMBER: &str = "process a { var x = 1; when true : x := (x + 9223372036854775807); }\n";

const SWAP: &str = "process p { var u = 1; var v = 2; when true : send q (u + v), u := v, v := u; }
process q { var y = 0; var z = 0; when (z = 0) : recv p y, z := (y + z); }
";

const LEAST: &str = "process a {
  var x = -9223372036854775807;
  when true : x := (x - 1);
  when true : x := (x / (- 1));
  when true : x := (x % (- 1));
  when true : x := (x / 2);
}
";

// A process that sends, one that forwards, and one that receives.
const CHAIN: &str = "process a { var x = 0; when true : send b 1; }
process b { var y = 0; when true : recv a y; when true : send c y; }
process c { var z = 0; when true : recv b z; }
";

// A process that counts.
pub(super) const COUNTER: &str = "process c { var z = 0; when true : z := (z + 1); }\n";

// A name, a program, the lines after it and the output for them: events, what is undone, clocks, what is taken back.
const EVENTS: [(&str, &str, &str, &str); 17] = [
    ("no line", TWO, "%%\n", ""),
    (
        "a step and its values",
        TWO,
        "%%\n1 next a\n1 vars a\n",
        "ok a 0\nvars a x=1\n",
    ),
    (
        "a refusal for each cause",
        TWO,
        "%%\n1 next b\n1 step b 0\n1 step b 1\n1 step b 2\n1 next d\n1 undo a\n1 redo a\n",
        "no 24\nno 5\nno 3\nno 2\nno 1\nno 6\nno 8\n",
    ),
    (
        "a send is undone after its receive",
        TWO,
        "%%
1 step a 0
1 step b 0
1 clock b
1 undo a
1 can a
1 can b
1 undo b
1 chan a b
1 undo a
1 chan a b
1 vars a
1 vars b
1 place a
1 can a
",
        "ok a 0
ok b 0
clock b a=1 b=1
no 7 b
can a no 7 b
can b yes
ok b 0
chan a b 1
ok a 0
chan a b
vars a x=0
vars b y=0 n=0
place a 0 of 1
can a no 6
",
    ),
    (
        "an undone receive gives its message back as the next one",
        TWO,
        "%%\n1 next a\n1 next a\n1 next b\n1 undo b\n1 chan a b\n1 redo b\n1 undo a\n1 vars b\n1 undo a\n1 undo b\n1 redo a\n1 chan a b\n",
        "ok a 0\nok a 0\nok b 0\nok b 0\nchan a b 1 2\nok b 0\nok a 0\nvars b y=1 n=1\nno 7 b\nok b 0\nok a 0\nchan a b 1 2\n",
    ),
    (
        "unrelated work stays",
        THREE,
        "%%
1 next a
1 next c
1 next b
1 next c
1 rollback a 2
1 rollback a 0
1 vars b
1 vars c
1 chan a b
1 back
1 vars b
",
        "ok a 0
ok c 0
ok b 0
ok c 0
no 10
ok a=0 b=0 c=2
vars b y=0 n=0
vars c z=2
chan a b
ok
vars b y=1 n=1
",
    ),
    (
        "the receiver goes back no further than it must",
        TWO,
        "%%\n1 next a\n1 next a\n1 next b\n1 next b\n1 rollback a 1\n1 vars b\n1 place b\n1 redo b\n",
        "ok a 0\nok a 0\nok b 0\nok b 0\nok a=1 b=1\nvars b y=1 n=1\nplace b 1 of 2\nno 5\n",
    ),
    (
        "a step cuts the redo line until it is taken back",
        TWO,
        "%%
1 next a
1 next a
1 undo a
1 undo a
1 place a
1 step a 0
1 place a
1 redo a
1 back
1 place a
1 redo a
",
        "ok a 0
ok a 0
ok a 0
ok a 0
place a 0 of 2
ok a 0
place a 1 of 1
no 8
ok
place a 0 of 2
ok a 0
",
    ),
    (
        "only the seat that gave the command takes it back",
        TWO,
        "%%
1 back
1 next a
2 back
1 back
1 back
1 place a
",
        "no 16
ok a 0
no 17 1
ok
no 16
place a 0 of 0
",
    ),
    (
        "an undo is a command, too",
        TWO,
        "%%
2 next a
2 undo a
2 back
2 vars a
2 back
2 place a
",
        "ok a 0
ok a 0
ok
vars a x=1
ok
place a 0 of 0
",
    ),
    (
        "a fault changes nothing",
        NUMBER,
        "%%\n1 step a 0\n1 next a\n1 vars a\n",
        "no 4\nno 24\nvars a x=1\n",
    ),
    (
        "faults at the least number",
        LEAST,
        "%%\n1 step a 0\n1 step a 0\n1 step a 1\n1 step a 2\n1 step a 3\n1 vars a\n",
        "ok a 0\nno 4\nno 4\nno 4\nok a 3\nvars a x=-4611686018427387904\n",
    ),
    (
        "old values are sent",
        SWAP,
        "%%\n1 next p\n1 vars p\n1 chan p q\n1 next q\n1 vars q\n1 next p\n1 step q 0\n1 chan p p\n",
        "ok p 0\nvars p u=2 v=1\nchan p q 3\nok q 0\nvars q y=3 z=3\nok p 0\nno 3\nchan p p\n",
    ),
    (
        "a carriage return",
        TWO,
        "%%\r\n1 next a\r\n1 vars a",
        "ok a 0\nvars a x=1\n",
    ),
    ("no end line", TWO, "", "program refused: no end line\n"),
    ("no process", "", "%%\n", "program refused 3 at 0\n"),
    (
        "the process in the middle of three",
        CHAIN,
        "%%
1 next a
1 next a
1 step b 0
1 step b 1
1 next c
1 clock c
1 clock a
1 undo b
1 rollback a 0
1 clock c
1 back
1 clock c
",
        "ok a 0
ok a 0
ok b 0
ok b 1
ok c 0
clock c a=1 b=2 c=1
clock a a=2 b=0 c=0
no 7 c
ok a=0 b=0 c=0
clock c a=0 b=0 c=0
ok
clock c a=1 b=2 c=1
",
    ),
];

#[test]
fn events_are_made_and_undone(rt: HostRuntime) {
    expect_rows(&rt, rt.alloc(), &EVENTS);
}

// Lines whose present state does not satisfy the breakpoint, since a has made another event; its cut does.
pub(super) const GOING: &str = "%%
1 break k a (x = 1) b (n = 1)
1 next a
1 next a
1 next b
1 cut k
1 why k
1 goto k
1 place a
1 vars a
1 chan a b
1 back
1 place a
";

// Their output.
pub(super) const GONE: &str = "ok
ok a 0
ok a 0
ok b 0 halted k
cut k a=1 b=1
why k a=1 b=1
ok a=1 b=1 halted k
place a 1 of 2
vars a x=1
chan a b
ok halted k
place a 2 of 2
";
