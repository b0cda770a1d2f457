//! The part of an expression that faults.

use dbg_base::limits::OPEN_PARENTHESES;
use dbg_base::{Expr, Operator};
use local_eval::{Env, eval};

// The operand of an expression that faults in which its fault occurs.
fn faulting_operand<'e>(expr: &'e Expr, env: &Env) -> Option<&'e Expr> {
    match expr {
        Expr::Not(operand) | Expr::Negate(operand) if eval(operand, env).is_err() => Some(operand),
        Expr::Binary(_, left, _) if eval(left, env).is_err() => Some(left),
        // If the left side decides, the right side is not evaluated, and then the expression does not fault.
        Expr::Binary(_, _, right) if eval(right, env).is_err() => Some(right),
        _ => None,
    }
}

/// The smallest part of an expression that faults, unless it is the whole expression.
pub fn faulting_part<'e>(expr: &'e Expr, env: &Env) -> Option<&'e Expr> {
    let mut part = None;
    // The deepest that expressions are nested.
    for _ in 0..=OPEN_PARENTHESES {
        match faulting_operand(part.unwrap_or(expr), env) {
            Some(operand) => part = Some(operand),
            None => break,
        }
    }
    part
}

/// Whether an expression is the check of a packed message that each field is in its range: 0 is divided by a quotient of 1.
pub fn is_range_check(expr: &Expr) -> bool {
    let Expr::Binary(Operator::Divide, left, right) = expr else {
        return false;
    };
    match (&**left, &**right) {
        (Expr::Number(0), Expr::Binary(Operator::Divide, one, _)) => {
            matches!(&**one, Expr::Number(1))
        }
        _ => false,
    }
}
