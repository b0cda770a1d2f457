//! What the methods of a program return.

use crate::expecting::{expect_same, expect_true};
use dbg_base::{Choice, Expr, Name, Operator, Pid};
use proc_lang::parse_program;
use proc_tree::{Action, Program};
use std::process::Abort;

const COUNTER: &[u8] = b"process a {
  var x = 0;
  when (x < 3) : send b (x + 1), x := (x + 1);
}
process b {
  var y = 0;
  var n = -12;
  when true : recv a y, n := (n + 1);
  when (n > 0) : n := (n - 1);
}
";

fn name(rt: &impl Abort, text: &str) -> Name {
    Name::new(text.as_bytes()).expect(rt, "a name")
}

// Expects the names of two processes, and none of a third.
fn expect_names(rt: &impl Abort, program: &Program) {
    expect_same(rt, program.processes(), 2);
    let (b, z) = (name(rt, "b"), name(rt, "z"));
    expect_same(rt, program.process_name(Pid(1)), Some(b));
    expect_same(rt, program.process_name(Pid(2)), None);
    let found = (program.find_process(b), program.find_process(z));
    expect_same(rt, found, (Some(Pid(1)), None));
    let by_bytes = (
        program.find_process_by(b"b"),
        program.find_process_by(b"bb"),
    );
    expect_same(rt, by_bytes, (Some(Pid(1)), None));
}

// Expects the variables and the commands of the second process, and none of a third.
fn expect_contents(rt: &impl Abort, program: &Program) {
    let counts = [
        program.variables(Pid(1)),
        program.variables(Pid(2)),
        program.commands(Pid(1)),
        program.commands(Pid(2)),
    ];
    expect_same(rt, counts, [2, 0, 2, 0]);
    let n = name(rt, "n");
    expect_same(rt, program.variable_name(Pid(1), 1), Some(n));
    expect_same(rt, program.variable_name(Pid(1), 2), None);
    let starts = (
        program.start_value(Pid(1), 1),
        program.start_value(Pid(1), 2),
    );
    expect_same(rt, starts, (Some(-12), None));
    expect_true(rt, program.command(Pid(1), Choice(2)).is_none());
}

#[test]
fn readers_tell_what_the_text_says(rt: HostRuntime) {
    let program = parse_program(rt.alloc(), COUNTER).expect(&rt, "a program");
    expect_names(&rt, &program);
    expect_contents(&rt, &program);
}

// The operator of an expression.
fn operator_of(expr: &Expr) -> Option<Operator> {
    match expr {
        Expr::Binary(operator, _, _) => Some(*operator),
        _ => None,
    }
}

// The target of a send.
fn target_of(action: &Action) -> Option<Pid> {
    match action {
        Action::Send { target, .. } => Some(*target),
        _ => None,
    }
}

// The source and the variable of a receive.
fn taken_by(action: &Action) -> Option<(Pid, u32)> {
    match action {
        Action::Receive { source, variable } => Some((*source, *variable)),
        _ => None,
    }
}

// Expects a command that sends, with one assignment.
fn expect_send(rt: &impl Abort, program: &Program) {
    let send = program.command(Pid(0), Choice(0)).expect(rt, "the send");
    expect_same(rt, operator_of(&send.guard), Some(Operator::Less));
    expect_same(rt, target_of(&send.action), Some(Pid(1)));
    expect_same(rt, send.assignments.items().len(), 1);
}

#[test]
fn a_command_is_read_whole(rt: HostRuntime) {
    let program = parse_program(rt.alloc(), COUNTER).expect(&rt, "a program");
    expect_send(&rt, &program);
    let receive = program
        .command(Pid(1), Choice(0))
        .expect(&rt, "the receive");
    expect_same(&rt, taken_by(&receive.action), Some((Pid(0), 0)));
}
