//! Equalities that follow from those of several conjuncts.
ghost use Rattle.std.specs.Prelude.{◌≡◌, ◌++◌, IfOk, OnOk, map, option_map};
ghost use Rattle.std.specs.List.{flat_map, filter};
ghost use Rattle.sql_meaning.specs.Expressions.{names, all_names, ref_expr};
ghost use Rattle.sql_meaning.specs.Statements.{is_empty};
ghost use Rattle.sql_meaning.specs.TermLists as meant;
ghost use Rattle.schema_model.specs.PlainSchemas.{plain_schema};
ghost use Rattle.sql_bound.specs.Columns.{column_ref_of};
ghost use Rattle.sql_bound.specs.Expressions.{expr_of, members_of};
ghost use Rattle.sql_bound.specs.Statements.{item_of, key_expr_of};
ghost use Rattle.where_terms.specs.Views.{term_of};
ghost use Rattle.where_terms.specs.Derived.{keys_along, linked_keys, has_constant};

use crate::masks::marked_term;
use crate::serving::{comparison_served, equal_key};
use crate::{Term, TermKind};
use bumpalo::Bump;
use schema_model::Schema;
use sql_bound::{BExpr, BExprs, BItem, ColumnRef, KeyExpr, own_column};
use sql_tree::place;
use sql_value::{Memory, push};
use std::alloc::Global;

/// Whether an expression names no item.
#[cycle(names_none)]
#[tactic(auto, using(crate::proofs::Lists::seen_lists))]
fn names_none(expr: &BExpr) -> bool
    ensures { result ≡ is_empty (names (expr_of expr.now)) }
{
    match expr {
        BExpr::Lit(_) => true,
        BExpr::Param(_) => true,
        BExpr::Column { .. } => false,
        BExpr::Rowid { .. } => false,
        BExpr::Plus(inner) => names_none(inner),
        BExpr::Collate(inner, _) => names_none(inner),
        BExpr::Cmp { left, right, .. } => names_none(left) && names_none(right),
        BExpr::OneOf { left, entries, .. } => names_none(left) && all_name_none(entries),
        BExpr::Like(_, left, pattern) => names_none(left) && names_none(pattern),
        BExpr::IsNull(_, inner) => names_none(inner),
        BExpr::Not(inner) => names_none(inner),
        BExpr::All(members) => all_name_none(members),
        BExpr::Any(members) => all_name_none(members),
    }
}

#[cycle(names_none)]
fn all_name_none(list: &BExprs) -> bool
    ensures { result ≡ is_empty (all_names (members_of list.now)) }
{
    for member in list.members {
        if !names_none(member) {
            return false;
        }
    }
    true
}

/// Whether a conjunct compares something with what names no column.
#[tactic(auto, using(crate::proofs::Lists::seen_lists))]
fn compares_a_constant(expr: &BExpr) -> bool
    ensures { result ≡ has_constant (expr_of expr.now) }
{
    match expr {
        BExpr::Cmp { left, right, .. } => names_none(left) || names_none(right),
        _ => false,
    }
}

/// The conjuncts that compare something with a constant. No other gives a linked column its key.
pub(crate) fn constants<'p>(
    alloc: Global,
    list: &[&'p BExpr<'p>],
) -> Result<Vec<&'p BExpr<'p>>, Memory>
    ensures { IfOk result (λ kept. map (λ e. expr_of e.now) kept.items
        ≡ filter has_constant (map (λ e. expr_of e.now) list.now)) }
{
    let mut kept: Vec<&'p BExpr<'p>> = Vec::new(alloc);
    for expr in list {
        if compares_a_constant(expr) {
            push(&mut kept, *expr)?;
        }
    }
    Ok(kept)
}

fn derived_term<'p>(schema: &Schema, items: &[BItem], c: ColumnRef, key: KeyExpr<'p>) -> Term<'p>
    ensures { term_of result
        ≡ meant.derived_term (plain_schema schema.now) (map item_of items.now) (column_ref_of c)
        (key_expr_of key.entry) }
{
    let coll = own_column(schema, items, c).coll;
    marked_term(c.column, None, coll, TermKind::Equal(key))
}

/// Appends `c = key`, where there is a key that names no column.
fn push_key<'p>(
    terms: &mut Vec<Term<'p>, &'p Bump>,
    schema: &Schema,
    items: &[BItem],
    c: ColumnRef,
    key: Option<KeyExpr<'p>>,
) -> Result<(), Memory>
    ensures { OnOk result (map term_of terms.new.items
        ≡ map term_of terms.old.items
        ++ meant.key_term (plain_schema schema.now) (map item_of items.now) (column_ref_of c)
        (option_map key_expr_of key.entry)) }
{
    let Some(key) = key else {
        return Ok(());
    };
    if !names_none(key.expr) {
        return Ok(());
    }
    push(terms, derived_term(schema, items, c, key))
}

/// Appends `c = e` for each linked column d that the conjunct says to be the constant e.
fn push_keys_along<'p>(
    terms: &mut Vec<Term<'p>, &'p Bump>,
    schema: &Schema,
    items: &[BItem],
    c: ColumnRef,
    expr: &'p BExpr<'p>,
    linked: &[ColumnRef],
) -> Result<(), Memory>
    ensures { OnOk result (map term_of terms.new.items
        ≡ map term_of terms.old.items
        ++ keys_along (plain_schema schema.now) (map item_of items.now) (column_ref_of c)
        (map column_ref_of linked.now) (expr_of expr.now)) }
{
    let coll = own_column(schema, items, c).coll;
    for d in linked {
        let key = equal_key(d.column, coll, comparison_served(d.item, expr));
        push_key(terms, schema, items, c, key)?;
    }
    Ok(())
}

fn push_keys<'p>(
    terms: &mut Vec<Term<'p>, &'p Bump>,
    schema: &Schema,
    items: &[BItem],
    c: ColumnRef,
    list: &[&'p BExpr<'p>],
    linked: &[ColumnRef],
) -> Result<(), Memory>
    ensures { OnOk result (map term_of terms.new.items
        ≡ map term_of terms.old.items
        ++ linked_keys (plain_schema schema.now) (map item_of items.now) (column_ref_of c)
        (map column_ref_of linked.now) (map (λ e. expr_of e.now) list.now)) }
{
    for expr in list {
        push_keys_along(terms, schema, items, c, expr, linked)?;
    }
    Ok(())
}

fn column_expr<'p>(c: ColumnRef) -> BExpr<'p>
    ensures { expr_of result ≡ ref_expr (column_ref_of c) }
{
    match c.column {
        Some(column) => BExpr::Column {
            item: c.item,
            column,
        },
        None => BExpr::Rowid { item: c.item },
    }
}

/// Appends `c = d`, where d is another item's.
fn push_column<'p>(
    arena: &'p Bump,
    terms: &mut Vec<Term<'p>, &'p Bump>,
    schema: &Schema,
    items: &[BItem],
    item: u32,
    c: ColumnRef,
    d: ColumnRef,
) -> Result<(), Memory>
    ensures { OnOk result (map term_of terms.new.items
        ≡ map term_of terms.old.items
        ++ meant.column_term (plain_schema schema.now) (map item_of items.now) item
        (column_ref_of c) (column_ref_of d)) }
{
    if d.item == item {
        return Ok(());
    }
    let key = KeyExpr {
        expr: place(arena, column_expr(d))?,
        conv: None,
    };
    push(terms, derived_term(schema, items, c, key))
}

fn push_columns<'p>(
    arena: &'p Bump,
    terms: &mut Vec<Term<'p>, &'p Bump>,
    schema: &Schema,
    items: &[BItem],
    item: u32,
    c: ColumnRef,
    linked: &[ColumnRef],
) -> Result<(), Memory>
    ensures { OnOk result (map term_of terms.new.items
        ≡ map term_of terms.old.items
        ++ flat_map
        (meant.column_term (plain_schema schema.now) (map item_of items.now) item
        (column_ref_of c)) (map column_ref_of linked.now)) }
{
    for d in linked {
        push_column(arena, terms, schema, items, item, c, *d)?;
    }
    Ok(())
}

/// Appends the equalities that follow for a column of the item from a list of conjuncts, given the
/// columns that these link with it.
pub(crate) fn push_derived<'p>(
    arena: &'p Bump,
    terms: &mut Vec<Term<'p>, &'p Bump>,
    schema: &Schema,
    items: &[BItem],
    c: ColumnRef,
    list: &[&'p BExpr<'p>],
    linked: &[ColumnRef],
) -> Result<(), Memory>
    ensures { OnOk result (map term_of terms.new.items
        ≡ map term_of terms.old.items
        ++ meant.derived_along (plain_schema schema.now) (map item_of items.now)
        (map (λ e. expr_of e.now) list.now) (column_ref_of c).item (column_ref_of c)
        (map column_ref_of linked.now)) }
{
    push_keys(terms, schema, items, c, list, linked)?;
    push_columns(arena, terms, schema, items, c.item, c, linked)?;
    Ok(())
}
