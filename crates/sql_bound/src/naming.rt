//! Which items an expression names.
ghost use Rattle.std.specs.Prelude.{◌≡◌};
ghost use Rattle.sql_meaning.specs.Expressions.{names, all_names};
ghost use Rattle.sql_meaning.specs.Statements.{has_number};
ghost use Rattle.sql_bound.specs.Expressions.{expr_of, members_of};

use crate::{BExpr, BExprs};

/// Whether an expression names the item. Takes no memory; the recursion is as deep as the
/// expression.
#[cycle(names_item)]
#[tactic(auto, using(crate::proofs::Members::seen_lists))]
pub fn names_item(expr: &BExpr, item: u32) -> bool
    ensures { result ≡ has_number item (names (expr_of expr.now)) }
{
    match expr {
        BExpr::Lit(_) => false,
        BExpr::Param(_) => false,
        BExpr::Column { item: named, .. } => item == *named,
        BExpr::Rowid { item: named } => item == *named,
        BExpr::Plus(inner) => names_item(inner, item),
        BExpr::Collate(inner, _) => names_item(inner, item),
        BExpr::Cmp { left, right, .. } => names_item(left, item) || names_item(right, item),
        BExpr::OneOf { left, entries, .. } => names_item(left, item) || some_names(entries, item),
        BExpr::Like(_, left, pattern) => names_item(left, item) || names_item(pattern, item),
        BExpr::IsNull(_, inner) => names_item(inner, item),
        BExpr::Not(inner) => names_item(inner, item),
        BExpr::All(members) => some_names(members, item),
        BExpr::Any(members) => some_names(members, item),
    }
}

#[cycle(names_item)]
fn some_names(list: &BExprs, item: u32) -> bool
    ensures { result ≡ has_number item (all_names (members_of list.now)) }
{
    for member in list.members {
        if names_item(member, item) {
            return true;
        }
    }
    false
}
