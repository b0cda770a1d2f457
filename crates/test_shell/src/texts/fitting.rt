//! Whether an expression that is read from no text fits a process, as a predicate.

use super::predicates::program;
use crate::expecting::expect_same;
use dbg_base::{Expr, Operator, Pid};
use proc_tree::fits;
use std::alloc::Global;
use std::process::Abort;
use test_programs::MEMORY;

// What an operand names, or what it is.
#[derive(Clone, Copy)]
enum Operand {
    Truth,
    Number,
    Variable,
    Sent,
    Got,
}

fn expr_of(operand: Operand, named: u32) -> Expr {
    match operand {
        Operand::Truth => Expr::Truth(true),
        Operand::Number => Expr::Number(-1),
        Operand::Variable => Expr::Variable(named),
        Operand::Sent => Expr::Sent(Pid(named)),
        Operand::Got => Expr::Got(Pid(named)),
    }
}

// An expression with an operand E.
#[derive(Clone, Copy)]
enum Form {
    // E
    Alone,
    // `(not E)`
    Not,
    // `(not (E and true))`
    NotAnd,
    // `(not (true or E))`
    NotOr,
    // `(x + E)`
    Sum,
    // `(E = 0)`
    Equal,
    // `((- E) = 0)`
    MinusEqual,
    // `((x + E) = 0)`
    SumEqual,
}

fn boxed(rt: &impl Abort, alloc: Global, expr: Expr) -> Box<Expr> {
    Box::new(alloc, expr).expect(rt, MEMORY)
}

fn binary(rt: &impl Abort, alloc: Global, operator: Operator, left: Expr, right: Expr) -> Expr {
    let left = boxed(rt, alloc, left);
    Expr::Binary(operator, left, boxed(rt, alloc, right))
}

// `(E = 0)`.
fn equal(rt: &impl Abort, alloc: Global, expr: Expr) -> Expr {
    binary(rt, alloc, Operator::Equal, expr, Expr::Number(0))
}

// `(x + E)`.
fn sum(rt: &impl Abort, alloc: Global, expr: Expr) -> Expr {
    binary(rt, alloc, Operator::Add, Expr::Variable(0), expr)
}

// `(not E)`.
fn not(rt: &impl Abort, alloc: Global, expr: Expr) -> Expr {
    Expr::Not(boxed(rt, alloc, expr))
}

// The expression of this form.
fn formed(rt: &impl Abort, alloc: Global, form: Form, expr: Expr) -> Expr {
    let truth = Expr::Truth(true);
    match form {
        Form::Alone => expr,
        Form::Not => not(rt, alloc, expr),
        Form::NotAnd => not(rt, alloc, binary(rt, alloc, Operator::And, expr, truth)),
        Form::NotOr => not(rt, alloc, binary(rt, alloc, Operator::Or, truth, expr)),
        Form::Sum => sum(rt, alloc, expr),
        Form::Equal => equal(rt, alloc, expr),
        Form::MinusEqual => equal(rt, alloc, Expr::Negate(boxed(rt, alloc, expr))),
        Form::SumEqual => equal(rt, alloc, sum(rt, alloc, expr)),
    }
}

// A process, the form of an expression, its operand, the position that this names, and whether the expression fits.
const EXPRESSIONS: [(u32, Form, Operand, u32, bool); 29] = [
    (0, Form::Equal, Operand::Number, 0, true),
    (0, Form::Equal, Operand::Variable, 1, true),
    (0, Form::Equal, Operand::Variable, 2, false),
    (0, Form::Equal, Operand::Variable, u32::MAX, false),
    // counts that the process has
    (0, Form::Equal, Operand::Sent, 2, true),
    (0, Form::Equal, Operand::Got, 1, true),
    // and others
    (0, Form::Equal, Operand::Sent, 0, false),
    (0, Form::Equal, Operand::Got, 0, false),
    (0, Form::Equal, Operand::Sent, 3, false),
    (0, Form::Equal, Operand::Got, u32::MAX, false),
    // two other processes
    (1, Form::Equal, Operand::Sent, 0, true),
    (1, Form::Equal, Operand::Sent, 1, false),
    (1, Form::Equal, Operand::Variable, 1, false),
    (2, Form::Equal, Operand::Variable, 0, false),
    (2, Form::Alone, Operand::Truth, 0, true),
    // there are three processes
    (3, Form::Alone, Operand::Truth, 0, false),
    // a guard is a truth value
    (0, Form::Alone, Operand::Truth, 0, true),
    (0, Form::Alone, Operand::Number, 0, false),
    (0, Form::Alone, Operand::Variable, 0, false),
    (0, Form::Alone, Operand::Sent, 1, false),
    // operands of sums and comparisons
    (0, Form::Sum, Operand::Got, 1, false),
    (0, Form::SumEqual, Operand::Got, 1, true),
    (0, Form::Equal, Operand::Truth, 0, false),
    (0, Form::MinusEqual, Operand::Truth, 0, false),
    // operands of `not`, `and` and `or`
    (0, Form::Not, Operand::Number, 0, false),
    (0, Form::Not, Operand::Truth, 0, true),
    (0, Form::NotAnd, Operand::Number, 0, false),
    (0, Form::NotOr, Operand::Variable, 0, false),
    (0, Form::NotOr, Operand::Truth, 0, true),
];

#[test]
fn expressions_fit_their_process(rt: HostRuntime) {
    let program = program(&rt, rt.alloc());
    for (process, form, operand, named, wanted) in &EXPRESSIONS {
        let expr = formed(&rt, rt.alloc(), *form, expr_of(*operand, *named));
        let shown = format!(in rt.alloc(); "{process}: {expr:?}").expect(&rt, MEMORY);
        let found = fits(&program, Pid(*process), &expr);
        expect_same(&rt, (shown.as_str(), found), (shown.as_str(), *wanted));
    }
}
