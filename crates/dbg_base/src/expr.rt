//! Expressions of the process language.

ghost use Rattle.std.specs.Prelude.{◌≡◌};
ghost use Rattle.dbg_base.specs.Copies.{IsCopy};
ghost use Rattle.dbg_base.specs.Trees.{tree_of};

use crate::ids::Pid;
use crate::refusal::Refusal;
use std::alloc::Global;

/// The type of an expression's value, by the outermost form of the expression alone.
#[derive(Clone, Copy, Debug, PartialEq, Eq)]
pub enum Sort {
    Number,
    Truth,
}

/// An operator between two operands.
#[derive(Clone, Copy, Debug, PartialEq, Eq)]
pub enum Operator {
    Add,
    Subtract,
    Multiply,
    Divide,
    Remainder,
    Equal,
    NotEqual,
    Less,
    LessOrEqual,
    Greater,
    GreaterOrEqual,
    And,
    Or,
}

/// Which messages a process counts: those that it has sent to another process, or those that it has received from it.
#[derive(Clone, Copy, Debug, PartialEq, Eq)]
pub enum Direction {
    Sent,
    Got,
}

/// An expression of one process: over its variables, which have numbers from 0, and its counts of messages.
#[derive(Debug, Drop)]
pub enum Expr {
    Number(i64),
    Variable(u32),
    Truth(bool),
    /// How many messages the process has sent to this one.
    Sent(Pid),
    /// How many messages the process has received from this one.
    Got(Pid),
    Not(Box<Expr>),
    Negate(Box<Expr>),
    Binary(Operator, Box<Expr>, Box<Expr>),
}

// Moves the expression into a box of its own.
fn boxed(alloc: &Global, expr: Expr) -> Result<Box<Expr>, Refusal>
    ensures { IsCopy result (λ made. made.value ≡ expr) }
{
    Ok(Box::new(*alloc, expr)?)
}

impl Expr {
    /// Copies the expression. Error: `Memory`, if an allocation fails.
    pub fn copy(&self) -> Result<Expr, Refusal>
        ensures { IsCopy result (λ made. tree_of made ≡ tree_of self.now) }
    {
        match self {
            Expr::Number(number) => Ok(Expr::Number(*number)),
            Expr::Variable(index) => Ok(Expr::Variable(*index)),
            Expr::Truth(truth) => Ok(Expr::Truth(*truth)),
            Expr::Sent(pid) => Ok(Expr::Sent(*pid)),
            Expr::Got(pid) => Ok(Expr::Got(*pid)),
            Expr::Not(operand) => Ok(Expr::Not(boxed(Box::allocator(operand), operand.copy()?)?)),
            Expr::Negate(operand) => {
                Ok(Expr::Negate(boxed(Box::allocator(operand), operand.copy()?)?))
            }
            Expr::Binary(operator, left, right) => Ok(Expr::Binary(
                *operator,
                boxed(Box::allocator(left), left.copy()?)?,
                boxed(Box::allocator(right), right.copy()?)?,
            )),
        }
    }
}
