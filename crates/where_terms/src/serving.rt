//! What one conjunct says of a column of one item.
ghost use Rattle.std.specs.Prelude.{◌≡◌, ◌&&◌, not, Some, IfOk, option_map, map};
ghost use Rattle.sql_meaning.specs.Expressions.{names, all_names};
ghost use Rattle.sql_meaning.specs.Expressions as exprs;
ghost use Rattle.sql_meaning.specs.Statements.{has_number};
ghost use Rattle.sql_meaning.specs.Serving as meant;
ghost use Rattle.sql_meaning.specs.Terms as terms;
ghost use Rattle.sql_value.specs.View.{plain_affinity, plain_collation};
ghost use Rattle.schema_model.specs.PlainSchemas.{plain_schema};
ghost use Rattle.sql_bound.specs.Columns.{site_of};
ghost use Rattle.sql_bound.specs.Expressions.{expr_of, members_of, plain_op};
ghost use Rattle.sql_bound.specs.Statements.{item_of, key_expr_of, key_exprs_of};
ghost use Rattle.where_terms.specs.Kinds.{term_kind_of};
ghost use Rattle.where_terms.specs.Views.{served_of};
ghost use Rattle.where_terms.specs.Owns.{own_at_item};

use crate::TermKind;
use bumpalo::Bump;
use bumpalo::collections::into_bump_slice;
use schema_model::Schema;
use sql_bound::{
    BExpr, BExprs, BItem, KeyExpr, Keys, bare_column, is_same_column, names_item, own_column,
};
use sql_tree::Op;
use sql_value::{Affinity, Collation, Memory, is_same_collation, push};

/// A term but for its conjunct.
#[derive(Clone, Copy)]
pub(crate) struct Served<'p> {
    pub column: Option<u32>,
    pub coll: Collation,
    pub kind: TermKind<'p>,
}

fn some_names(list: &BExprs, item: u32) -> bool
    ensures { result ≡ has_number item (all_names (members_of list.now)) }
{
    for member in list.members {
        if names_item(member, item) {
            return true;
        }
    }
    false
}

fn flipped(op: Op) -> Op
    ensures { plain_op result ≡ terms.flipped (plain_op op) }
{
    match op {
        Op::Eq => Op::Eq,
        Op::Ne => Op::Ne,
        Op::Lt => Op::Gt,
        Op::Le => Op::Ge,
        Op::Gt => Op::Lt,
        Op::Ge => Op::Le,
    }
}

/// What `column op key` says of the column.
fn kind_for<'p>(op: Op, key: KeyExpr<'p>) -> Option<TermKind<'p>>
    ensures { option_map term_kind_of result ≡ terms.kind_of (plain_op op) (key_expr_of key.entry) }
{
    match op {
        Op::Eq => Some(TermKind::Equal(key)),
        Op::Ne => None,
        Op::Lt => Some(TermKind::High(key, false)),
        Op::Le => Some(TermKind::High(key, true)),
        Op::Gt => Some(TermKind::Low(key, false)),
        Op::Ge => Some(TermKind::Low(key, true)),
    }
}

fn with_kind<'p>(
    column: Option<u32>,
    coll: Collation,
    kind: Option<TermKind<'p>>,
) -> Option<Served<'p>>
    ensures { option_map served_of result
        ≡ option_map
        (λ k. record { site = site_of column; collation = plain_collation coll; kind = k })
        (option_map term_kind_of kind.entry) }
{
    match kind {
        Some(kind) => Some(Served { column, coll, kind }),
        None => None,
    }
}

/// What `own op other` says of the column that `own` is, where it is one of the item that isn't
/// converted, and `other` is fit to be its key.
fn side_served<'p>(
    item: u32,
    op: Op,
    own: KeyExpr<'p>,
    other: KeyExpr<'p>,
    coll: Collation,
) -> Option<Served<'p>>
    ensures { option_map served_of result
        ≡ meant.side_served item (exprs.bare_column (key_expr_of own.entry).expr)
        (meant.no_conversion (key_expr_of own.entry).conversion
        && not (has_number item (names (key_expr_of other.entry).expr)))
        (terms.kind_of (plain_op op) (key_expr_of other.entry)) (plain_collation coll) }
{
    match bare_column(own.expr) {
        Some(c) => {
            if c.item == item && own.conv.is_none() && !names_item(other.expr, item) {
                with_kind(c.column, coll, kind_for(op, other))
            } else {
                None
            }
        }
        None => None,
    }
}

/// What a comparison says of a column of the item: of its left side, else of its right side.
pub(crate) fn comparison_served<'p>(item: u32, expr: &'p BExpr<'p>) -> Option<Served<'p>>
    ensures { option_map served_of result ≡ meant.comparison_served item (expr_of expr.now) }
{
    match expr {
        BExpr::Cmp {
            op,
            left,
            right,
            conv,
            coll,
        } => {
            let low = KeyExpr {
                expr: left,
                conv: conv.left,
            };
            let high = KeyExpr {
                expr: right,
                conv: conv.right,
            };
            let from_left = side_served(item, *op, low, high, *coll);
            if from_left.is_some() {
                from_left
            } else {
                side_served(item, flipped(*op), high, low, *coll)
            }
        }
        _ => None,
    }
}

/// The keys of an IN list.
fn entry_keys<'p>(
    arena: &'p Bump,
    list: BExprs<'p>,
    conv: Option<Affinity>,
) -> Result<Keys<'p>, Memory>
    ensures { IfOk result (λ keys. key_exprs_of keys
        ≡ terms.entry_keys (option_map plain_affinity conv) (members_of list.entry)) }
{
    let mut keys: Vec<KeyExpr<'p>, &'p Bump> = Vec::new(arena);
    for member in list.members {
        push(&mut keys, KeyExpr { expr: member, conv })?;
    }
    Ok(Keys {
        keys: into_bump_slice(keys),
    })
}

/// What `left IN (entries)` says of a column of the item.
fn list_served<'p>(
    arena: &'p Bump,
    item: u32,
    left: &'p BExpr<'p>,
    entries: BExprs<'p>,
    conv: Option<Affinity>,
    coll: Collation,
) -> Result<Option<Served<'p>>, Memory>
    ensures { IfOk result (λ served. option_map served_of served
        ≡ meant.side_served item (exprs.bare_column (expr_of left.now))
        (not (has_number item (all_names (members_of entries.entry))))
        (Some (terms.Within (terms.entry_keys (option_map plain_affinity conv)
        (members_of entries.entry)))) (plain_collation coll)) }
{
    let Some(c) = bare_column(left) else {
        return Ok(None);
    };
    if c.item != item || some_names(&entries, item) {
        return Ok(None);
    }
    Ok(Some(Served {
        column: c.column,
        coll,
        kind: TermKind::OneOf(entry_keys(arena, entries, conv)?),
    }))
}

/// The key of an `=` that serves this column under this collation.
pub(crate) fn equal_key<'p>(
    column: Option<u32>,
    coll: Collation,
    found: Option<Served<'p>>,
) -> Option<KeyExpr<'p>>
    ensures { option_map key_expr_of result
        ≡ meant.key_under (site_of column) (plain_collation coll)
        (option_map served_of found.entry) }
{
    let served = found?;
    if !is_same_column(served.column, column) || !is_same_collation(served.coll, coll) {
        return None;
    }
    match served.kind {
        TermKind::Equal(key) => Some(key),
        TermKind::OneOf(_) => None,
        TermKind::IsNull => None,
        TermKind::Low(..) => None,
        TermKind::High(..) => None,
    }
}

/// The keys of an OR each of whose members is an `=` that serves this column under this collation.
fn keys_under<'p>(
    arena: &'p Bump,
    item: u32,
    column: Option<u32>,
    coll: Collation,
    list: BExprs<'p>,
) -> Result<Option<Keys<'p>>, Memory>
    ensures { IfOk result (λ keys. option_map key_exprs_of keys
        ≡ meant.keys_under item (site_of column) (plain_collation coll)
        (members_of list.entry)) }
{
    let mut keys: Vec<KeyExpr<'p>, &'p Bump> = Vec::new(arena);
    for member in list.members {
        let Some(key) = equal_key(column, coll, comparison_served(item, member)) else {
            return Ok(None);
        };
        push(&mut keys, key)?;
    }
    Ok(Some(Keys {
        keys: into_bump_slice(keys),
    }))
}

fn within<'p>(column: Option<u32>, coll: Collation, keys: Option<Keys<'p>>) -> Option<Served<'p>>
    ensures { option_map served_of result
        ≡ meant.within (site_of column) (plain_collation coll)
        (option_map key_exprs_of keys.entry) }
{
    Some(Served {
        column,
        coll,
        kind: TermKind::OneOf(keys?),
    })
}

/// What an OR says of a column of the item: that it is one of the keys of equalities.
pub(crate) fn or_served<'p>(
    arena: &'p Bump,
    item: u32,
    list: BExprs<'p>,
) -> Result<Option<Served<'p>>, Memory>
    ensures { IfOk result (λ served. option_map served_of served
        ≡ meant.or_served item (members_of list.entry)
        (meant.first_served item (members_of list.entry))) }
{
    let [first, ..] = list.members else {
        return Ok(None);
    };
    let Some(served) = comparison_served(item, first) else {
        return Ok(None);
    };
    let keys = keys_under(arena, item, served.column, served.coll, list)?;
    Ok(within(served.column, served.coll, keys))
}

fn null_served<'p>(schema: &Schema, items: &[BItem], item: u32, expr: &BExpr) -> Option<Served<'p>>
    ensures { option_map served_of result
        ≡ meant.null_served (own_at_item (plain_schema schema.now) (map item_of items.now) item)
        item (exprs.bare_column (expr_of expr.now)) }
{
    let c = bare_column(expr)?;
    if c.item != item {
        return None;
    }
    Some(Served {
        column: c.column,
        coll: own_column(schema, items, c).coll,
        kind: TermKind::IsNull,
    })
}

/// What a conjunct says of a column of the item, if anything.
#[tactic(auto, using(crate::proofs::Lists::seen_lists))]
pub(crate) fn serving<'p>(
    arena: &'p Bump,
    schema: &Schema,
    items: &[BItem],
    item: u32,
    expr: &'p BExpr<'p>,
) -> Result<Option<Served<'p>>, Memory>
    ensures { IfOk result (λ served. option_map served_of served
        ≡ meant.serving (own_at_item (plain_schema schema.now) (map item_of items.now) item)
        item (expr_of expr.now)) }
{
    match expr {
        BExpr::Cmp { .. } => Ok(comparison_served(item, expr)),
        BExpr::OneOf {
            not,
            left,
            entries,
            conv,
            coll,
        } => {
            if *not {
                Ok(None)
            } else {
                list_served(arena, item, left, *entries, *conv, *coll)
            }
        }
        BExpr::IsNull(negated, inner) => {
            if *negated {
                Ok(None)
            } else {
                Ok(null_served(schema, items, item, inner))
            }
        }
        BExpr::Any(members) => or_served(arena, item, *members),
        _ => Ok(None),
    }
}
