//! Whether two expressions are the same.

ghost use Rattle.std.specs.Prelude.{◌≡◌, ◌↔◌, IsTrue};
ghost use Rattle.dbg_base.specs.Trees.{tree_of};

use dbg_base::Expr;

/// Whether two expressions are the same. It does not allocate.
pub(crate) fn is_same_expr(left: &Expr, right: &Expr) -> bool
    ensures { IsTrue result ↔ (tree_of left.now ≡ tree_of right.now) }
{
    match (left, right) {
        (Expr::Number(one), Expr::Number(other)) => one == other,
        (Expr::Variable(one), Expr::Variable(other)) => one == other,
        (Expr::Truth(one), Expr::Truth(other)) => one == other,
        (Expr::Sent(one), Expr::Sent(other)) => one == other,
        (Expr::Got(one), Expr::Got(other)) => one == other,
        (Expr::Not(one), Expr::Not(other)) => is_same_expr(one, other),
        (Expr::Negate(one), Expr::Negate(other)) => is_same_expr(one, other),
        (Expr::Binary(one, first, second), Expr::Binary(other, third, fourth)) => {
            one == other && is_same_expr(first, third) && is_same_expr(second, fourth)
        }
        _ => false,
    }
}
