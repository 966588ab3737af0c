//! Which conversions and which collation a comparison has.
ghost use Rattle.std.specs.Prelude.{◌≡◌, option_map, ◌∷◌, []};
ghost use Rattle.sql_value.specs.View.{plain_affinity, plain_collation};
ghost use Rattle.sql_meaning.specs.Items.{own_column};
ghost use Rattle.schema_model.specs.PlainSchemas.{plain_schema};
ghost use Rattle.sql_bound.specs.Columns.{site_of, table_column_of};
ghost use Rattle.sql_bound.specs.Expressions.{expr_of, members_of};
ghost use Rattle.sql_names.specs.Faults.{Answers};
ghost use Rattle.sql_names.specs.Collating as meant;
ghost use Rattle.sql_names.specs.Binding as binding;

use crate::{BindFault, Scope};
use sql_bound::{BExpr, BExprs, ColumnRef, TableColumn, own_column};
use sql_value::{Affinity, Bytes, Collation, collation_named};
use std::alloc::Global;

/// What a column of an item owns.
fn own_at(scope: &Scope, item: u32, column: Option<u32>) -> TableColumn
    ensures { table_column_of result
        ≡ own_column (plain_schema scope.now.schema) scope.now.items
        (record { item = item; site = site_of column }) }
{
    own_column(scope.schema(), scope.items(), ColumnRef { item, column })
}

/// The affinity of a column, also under COLLATE; any other expression has none
/// (<https://sqlite.org/datatype3.html>, section 3.2).
pub(crate) fn affinity(scope: &Scope, expr: &BExpr) -> Option<Affinity>
    ensures { option_map plain_affinity result ≡ binding.affinity scope.now (expr_of expr.now) }
{
    match expr {
        BExpr::Column { item, column } => Some(own_at(scope, *item, Some(*column)).affinity),
        BExpr::Rowid { .. } => Some(Affinity::Integer),
        BExpr::Collate(inner, _) => affinity(scope, inner),
        _ => None,
    }
}

/// The collation of COLLATE; of any other expression that of its first part that has one.
#[cycle(explicit)]
#[tactic(auto, using(crate::proofs::Lists::seen_lists))]
fn explicit(expr: &BExpr) -> Option<Collation>
    ensures { option_map plain_collation result ≡ meant.explicit (expr_of expr.now) }
{
    match expr {
        BExpr::Lit(_) => None,
        BExpr::Param(_) => None,
        BExpr::Column { .. } => None,
        BExpr::Rowid { .. } => None,
        BExpr::Plus(inner) => explicit(inner),
        BExpr::Collate(_, coll) => Some(*coll),
        BExpr::Cmp { left, right, .. } => explicit(left).or(explicit(right)),
        BExpr::OneOf { left, entries, .. } => explicit(left).or(explicit_among(entries)),
        BExpr::Like(_, left, pattern) => explicit(left).or(explicit(pattern)),
        BExpr::IsNull(_, inner) => explicit(inner),
        BExpr::Not(inner) => explicit(inner),
        BExpr::All(members) => explicit_among(members),
        BExpr::Any(members) => explicit_among(members),
    }
}

#[cycle(explicit)]
fn explicit_among(list: &BExprs) -> Option<Collation>
    ensures { option_map plain_collation result ≡ meant.explicit_among (members_of list.now) }
{
    for member in list.members {
        let found = explicit(member);
        if found.is_some() {
            return found;
        }
    }
    None
}

/// A column's own collation, also under unary `+` and under COLLATE.
fn own_collation(scope: &Scope, expr: &BExpr) -> Option<Collation>
    ensures { option_map plain_collation result
        ≡ meant.own_collation (plain_schema scope.now.schema) scope.now.items (expr_of expr.now) }
{
    match expr {
        BExpr::Column { item, column } => Some(own_at(scope, *item, Some(*column)).coll),
        BExpr::Rowid { .. } => Some(Collation::Binary),
        BExpr::Plus(inner) => own_collation(scope, inner),
        BExpr::Collate(inner, _) => own_collation(scope, inner),
        _ => None,
    }
}

/// The collation of a comparison: an explicit one, that of the left side first; else a column's
/// own, that of the left side first; else BINARY (<https://sqlite.org/datatype3.html>, section
/// 7.1).
pub(crate) fn compared_under(scope: &Scope, left: &BExpr, right: &BExpr) -> Collation
    ensures { plain_collation result
        ≡ meant.compared_under (plain_schema scope.now.schema) scope.now.items (expr_of left.now)
        (expr_of right.now) }
{
    let written = explicit(left).or(explicit(right));
    let own = own_collation(scope, left).or(own_collation(scope, right));
    written.or(own).unwrap_or(Collation::Binary)
}

/// The collation that an expression is compared or sorted by alone: its explicit one, else its
/// column's own, else BINARY. Takes no memory.
pub fn collation_of(scope: &Scope, expr: &BExpr) -> Collation
    ensures { plain_collation result
        ≡ meant.collation_of (plain_schema scope.now.schema) scope.now.items (expr_of expr.now) }
{
    explicit(expr)
        .or(own_collation(scope, expr))
        .unwrap_or(Collation::Binary)
}

/// The collation of a name: `NoSuchCollation` where none has it, or `Memory`.
pub fn bind_collation(alloc: Global, name: &[u8]) -> Result<Collation, BindFault>
    ensures { Answers plain_collation result (meant.collation_check name.now ∷ [])
        (meant.collation_or name.now) }
{
    match collation_named(name) {
        Some(coll) => Ok(coll),
        None => Err(BindFault::NoSuchCollation(Bytes::copy(alloc, name)?)),
    }
}
