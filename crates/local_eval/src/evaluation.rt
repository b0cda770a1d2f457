//! The evaluation of expressions.

ghost use Rattle.std.specs.Prelude.{◌≡◌, pos, ◌-ℤ◌, slice_get};
ghost use Rattle.std.specs.Option.{option_map};
ghost use Rattle.dbg_base.specs.Trees.{tree_of};
ghost use Rattle.dbg_base.specs.Trees as tree;
ghost use Rattle.dbg_base.specs.declared.expr.Operator.{Operator};
ghost use Rattle.dbg_base.specs.LocalStates.{counts_of};
ghost use Rattle.dbg_base.specs.Evaluation as model;
ghost use Rattle.dbg_base.specs.Evaluation.{Num, ranged, on_numbers};
ghost use Rattle.dbg_base.specs.Firing.{truth_of};
ghost use Rattle.local_eval.specs.Outcomes.{value_of, outcome};

use crate::env::Env;
use crate::fault::EvalFault;
use crate::local::Local;
use crate::value::{Value, number, truth};
use dbg_base::{Direction, Expr, Operator, Pid};

// The number, or a fault if it is out of range.
fn in_range(number: Option<i64>) -> Result<Value, EvalFault>
    ensures { outcome value_of result ≡ option_map Num number }
{
    match number {
        Some(number) => Ok(Value::Num(number)),
        None => Err(EvalFault),
    }
}

// The value of a variable, or a fault if there is no such variable.
fn variable<L: Local>(local: &L, index: u32) -> Result<Value, EvalFault>
    ensures { outcome value_of result ≡ option_map Num (slice_get (L.state local.now).values index) }
{
    in_range(local.variable(index))
}

// A count of messages, or a fault if there is no such process.
fn count<L: Local>(local: &L, direction: Direction, other: Pid) -> Result<Value, EvalFault>
    ensures { outcome value_of result ≡ option_map (λ n. Num (pos n)) (slice_get (counts_of direction (L.state local.now)) other.0) }
{
    match local.counts(direction).get(other.0 as usize) {
        Some(count) => Ok(Value::Num(i64::from(*count))),
        None => Err(EvalFault),
    }
}

// The negative of a number, or a fault if it is out of range.
fn negate(number: i64) -> Result<Value, EvalFault>
    ensures { outcome value_of result ≡ ranged (pos 0 -ℤ number) }
{
    in_range(number.checked_neg())
}

// An operator on two numbers.
fn calculate(operator: Operator, x: i64, y: i64) -> Result<Value, EvalFault>
    ensures { outcome value_of result ≡ on_numbers operator x y }
{
    match operator {
        Operator::Add => in_range(x.checked_add(y)),
        Operator::Subtract => in_range(x.checked_sub(y)),
        Operator::Multiply => in_range(x.checked_mul(y)),
        Operator::Divide => in_range(x.checked_div(y)),
        Operator::Remainder => in_range(x.checked_rem(y)),
        Operator::Equal => Ok(Value::Truth(x == y)),
        Operator::NotEqual => Ok(Value::Truth(x != y)),
        Operator::Less => Ok(Value::Truth(x < y)),
        Operator::LessOrEqual => Ok(Value::Truth(x <= y)),
        Operator::Greater => Ok(Value::Truth(x > y)),
        Operator::GreaterOrEqual => Ok(Value::Truth(x >= y)),
        Operator::And | Operator::Or => Err(EvalFault),
    }
}

// The value of the expression, as `eval` has it. Each kind with operands has a function of its own, so that the many expressions without
// operands need no room for the values of operands.
#[cycle(evaluation)]
pub(crate) fn evaluate<L: Local>(expr: &Expr, local: &L) -> Result<Value, EvalFault>
    ensures { outcome value_of result ≡ model.evaluate (tree_of expr.now) (L.state local.now) }
{
    match expr {
        Expr::Number(number) => Ok(Value::Num(*number)),
        Expr::Variable(index) => variable(local, *index),
        Expr::Truth(truth) => Ok(Value::Truth(*truth)),
        Expr::Sent(pid) => count(local, Direction::Sent, *pid),
        Expr::Got(pid) => count(local, Direction::Got, *pid),
        Expr::Not(operand) => opposite(operand, local),
        Expr::Negate(operand) => negative(operand, local),
        Expr::Binary(_, _, _) => binary(expr, local),
    }
}

// The opposite of a truth.
#[cycle(evaluation)]
#[inline(never)]
fn opposite<L: Local>(operand: &Expr, local: &L) -> Result<Value, EvalFault>
    ensures { outcome value_of result ≡ model.evaluate (tree.Not (tree_of operand.now)) (L.state local.now) }
{
    Ok(Value::Truth(!truth(evaluate(operand, local)?)?))
}

// The negative of a number.
#[cycle(evaluation)]
#[inline(never)]
fn negative<L: Local>(operand: &Expr, local: &L) -> Result<Value, EvalFault>
    ensures { outcome value_of result ≡ model.evaluate (tree.Negate (tree_of operand.now)) (L.state local.now) }
{
    negate(number(evaluate(operand, local)?)?)
}

// The value of an expression with two operands.
#[cycle(evaluation)]
#[inline(never)]
fn binary<L: Local>(expr: &Expr, local: &L) -> Result<Value, EvalFault>
    requires { (operator : Operator) × (left : tree.Tree) × (right : tree.Tree) × (tree_of expr.now ≡ tree.Binary operator left right) }
    ensures { outcome value_of result ≡ model.evaluate (tree_of expr.now) (L.state local.now) }
{
    match expr {
        Expr::Binary(Operator::And, left, right) => {
            if truth(evaluate(left, local)?)? {
                evaluate(right, local)
            } else {
                Ok(Value::Truth(false))
            }
        }
        Expr::Binary(Operator::Or, left, right) => {
            if truth(evaluate(left, local)?)? {
                Ok(Value::Truth(true))
            } else {
                evaluate(right, local)
            }
        }
        Expr::Binary(operator, left, right) => {
            let x = number(evaluate(left, local)?)?;
            let y = number(evaluate(right, local)?)?;
            calculate(*operator, x, y)
        }
        _ => unreachable!(),
    }
}

/// The value of the expression in this local state. It is a fault if a number leaves its range, a divisor is 0, an operand has the wrong
/// type, or a variable or process does not exist. `and` and `or` evaluate the right operand only if the left one does not decide, and then
/// return its value, whatever its type. It does not allocate.
pub fn eval(expr: &Expr, env: &Env) -> Result<Value, EvalFault>
    ensures { outcome value_of result ≡ model.evaluate (tree_of expr.now) env.now }
{
    evaluate(expr, env)
}

/// Whether the guard is true in this local state. It is a fault if the evaluation faults or the value is a number. It does not allocate.
pub fn guard(expr: &Expr, env: &Env) -> Result<bool, EvalFault>
    ensures { outcome (λ b. b) result ≡ truth_of (model.evaluate (tree_of expr.now) env.now) }
{
    truth(evaluate(expr, env)?)
}
