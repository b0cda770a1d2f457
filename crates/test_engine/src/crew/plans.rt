//! Commands: events, and breakpoints that are set.

use dbg_base::{Conjunct, Expr, Name, Operator, Pid, Plan, Sequence};
use std::alloc::Global;
use std::process::Abort;
use test_programs::MEMORY;

/// The name of this text.
pub fn named(rt: &impl Abort, text: &str) -> Name {
    Name::new(text.as_bytes()).expect(rt, "a name")
}

fn boxed(rt: &impl Abort, alloc: Global, expr: Expr) -> Box<Expr> {
    Box::new(alloc, expr).expect(rt, MEMORY)
}

// The conjunct that this variable of a process is this number.
fn equals(rt: &impl Abort, alloc: Global, pid: Pid, variable: u32, number: i64) -> Conjunct {
    let left = boxed(rt, alloc, Expr::Variable(variable));
    let right = boxed(rt, alloc, Expr::Number(number));
    let expr = Expr::Binary(Operator::Equal, left, right);
    Conjunct { pid, expr }
}

/// Events of the first process (twice), the third and the second.
pub fn four_events(rt: &impl Abort, alloc: Global) -> Vec<Plan> {
    let mut plans = Vec::new(alloc);
    for process in [0, 0, 2, 1] {
        plans.push(Plan::Next(Pid(process))).expect(rt, MEMORY);
    }
    plans
}

/// Sets a breakpoint that halts at the last of their cuts: the first process has counted to 2, the second has received one message, and the
/// third has counted to 1.
pub fn halting(rt: &impl Abort, alloc: Global) -> Plan {
    let wanted = [(Pid(0), 0, 2), (Pid(1), 1, 1), (Pid(2), 0, 1)];
    set_break(rt, alloc, "w", &wanted)
}

/// Sets a breakpoint of this name, with the conjuncts that variables of processes, by their positions, are these numbers.
pub fn set_break(rt: &impl Abort, alloc: Global, name: &str, wanted: &[(Pid, u32, i64)]) -> Plan {
    let mut conjuncts = Vec::new(alloc);
    for (pid, variable, number) in wanted {
        let conjunct = equals(rt, alloc, *pid, *variable, *number);
        conjuncts.push(conjunct).expect(rt, MEMORY);
    }
    Plan::Break(named(rt, name), Sequence::new(conjuncts))
}
