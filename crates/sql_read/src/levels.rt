//! Which level of expressions is meant, where one function reads several.
ghost use Rattle.std.specs.Prelude.{◌≡◌};
ghost use Rattle.sql_read.specs.Expressions.{joint_mark};

use crate::lexeme::Mark;

/// A level that may stand within itself: in parentheses, behind NOT, behind unary `+`.
#[derive(Clone, Copy)]
pub enum Nested {
    Expr,
    Not,
    Operand,
}

/// What stands between two members of a list within an expression.
#[derive(Clone, Copy)]
pub enum Joint {
    Comma,
    And,
    Or,
}

/// The mark between two members.
pub fn mark_between(joint: Joint) -> Mark
    ensures { result ≡ joint_mark joint }
{
    match joint {
        Joint::Comma => Mark::Comma,
        Joint::And => Mark::And,
        Joint::Or => Mark::Or,
    }
}
