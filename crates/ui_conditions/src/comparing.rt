//! Expressions that are the same, or that differ in names and numbers alone.

use dbg_base::Expr;

/// How an expression differs from another one.
#[derive(Clone, Copy, PartialEq, Eq)]
pub(crate) enum Likeness {
    Same,
    /// They differ in names and numbers alone.
    Alike,
    Unlike,
}

// The likeness of two leaves of the same kind.
fn of_leaves(are_same: bool) -> Likeness {
    if are_same {
        Likeness::Same
    } else {
        Likeness::Alike
    }
}

// The likeness of two expressions whose operands have these.
fn of_both(left: Likeness, right: Likeness) -> Likeness {
    match left {
        Likeness::Same => right,
        Likeness::Alike if right == Likeness::Same => Likeness::Alike,
        Likeness::Alike => right,
        Likeness::Unlike => Likeness::Unlike,
    }
}

/// How two expressions of a process differ.
pub(crate) fn likeness_of(first: &Expr, other: &Expr) -> Likeness {
    match first {
        Expr::Number(number) => match other {
            Expr::Number(own) => of_leaves(own == number),
            _ => Likeness::Unlike,
        },
        Expr::Variable(variable) => match other {
            Expr::Variable(own) => of_leaves(own == variable),
            _ => Likeness::Unlike,
        },
        Expr::Truth(truth) => match other {
            Expr::Truth(own) if own == truth => Likeness::Same,
            _ => Likeness::Unlike,
        },
        Expr::Sent(pid) => match other {
            Expr::Sent(own) => of_leaves(own == pid),
            _ => Likeness::Unlike,
        },
        Expr::Got(pid) => match other {
            Expr::Got(own) => of_leaves(own == pid),
            _ => Likeness::Unlike,
        },
        Expr::Not(operand) => match other {
            Expr::Not(own) => likeness_of(operand, own),
            _ => Likeness::Unlike,
        },
        Expr::Negate(operand) => match other {
            Expr::Negate(own) => likeness_of(operand, own),
            _ => Likeness::Unlike,
        },
        Expr::Binary(operator, left, right) => match other {
            Expr::Binary(own, own_left, own_right) if own == operator => {
                of_both(likeness_of(left, own_left), likeness_of(right, own_right))
            }
            _ => Likeness::Unlike,
        },
    }
}

/// Whether two expressions differ in names and numbers at most.
pub(crate) fn are_alike(first: &Expr, other: &Expr) -> bool {
    likeness_of(first, other) != Likeness::Unlike
}
