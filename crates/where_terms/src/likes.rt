//! The bounds that a LIKE gives a column
//! (<https://sqlite.org/optoverview.html>, "The LIKE optimization").
ghost use Rattle.std.specs.Prelude.{◌≡◌, ◌++◌, ◌∷◌, [], IfOk, OnOk, map, option_map};
ghost use Rattle.std.specs.List.{flat_map};
ghost use Rattle.sql_meaning.specs.Expressions as exprs;
ghost use Rattle.sql_meaning.specs.Likes.{like_bounds};
ghost use Rattle.sql_meaning.specs.LikeTerms as meant;
ghost use Rattle.like_range.specs.View.{range_of};
ghost use Rattle.sql_tree.specs.Trees.{literal_value};
ghost use Rattle.schema_model.specs.PlainSchemas.{plain_schema};
ghost use Rattle.sql_bound.specs.Columns.{site_of, column_ref_of, table_column_of};
ghost use Rattle.sql_bound.specs.Expressions.{expr_of};
ghost use Rattle.sql_bound.specs.Statements.{item_of, key_expr_of};
ghost use Rattle.where_terms.specs.Kinds.{term_kind_of};
ghost use Rattle.where_terms.specs.Views.{term_of};

use crate::masks::marked_term;
use crate::{Term, TermKind};
use bumpalo::Bump;
use like_range::{Range, like_bounds};
use schema_model::Schema;
use sql_bound::{BExpr, BItem, KeyExpr, TableColumn, bare_column, own_column};
use sql_tree::{Lit, place, place_slice};
use sql_value::{Affinity, Bytes, Collation, Memory, push};
use std::alloc::Global;

fn lit_bounds(alloc: Global, pattern: &Lit) -> Result<Option<Range>, Memory>
    ensures { IfOk result (λ range. option_map range_of range
        ≡ meant.literal_bounds (exprs.Lit (literal_value pattern.now))) }
{
    match pattern {
        Lit::Text(bytes) => like_bounds(alloc, bytes),
        Lit::Null => Ok(None),
        Lit::Int(_) => Ok(None),
        Lit::Dec(_) => Ok(None),
        Lit::Blob(_) => Ok(None),
    }
}

/// The bounds of a pattern that is a literal.
#[tactic(auto, using(crate::proofs::Lists::seen_lists))]
fn literal_bounds(alloc: Global, pattern: &BExpr) -> Result<Option<Range>, Memory>
    ensures { IfOk result (λ range. option_map range_of range
        ≡ meant.literal_bounds (expr_of pattern.now)) }
{
    match pattern {
        BExpr::Lit(lit) => lit_bounds(alloc, lit),
        _ => Ok(None),
    }
}

/// Whether a column holds texts, and compares them without their case, as LIKE does.
fn orders_as_like(column: TableColumn) -> bool
    ensures { result ≡ meant.orders_as_like (table_column_of column) }
{
    match (column.affinity, column.coll) {
        (Affinity::Text, Collation::Nocase) => true,
        _ => false,
    }
}

fn text_key<'p>(arena: &'p Bump, bytes: &[u8]) -> Result<KeyExpr<'p>, Memory>
    ensures { IfOk result (λ key. key_expr_of key ≡ meant.text_literal bytes.now) }
{
    let text = place_slice(arena, bytes)?;
    let expr = place(arena, BExpr::Lit(Lit::Text(text)))?;
    Ok(KeyExpr { expr, conv: None })
}

fn push_bound<'p>(
    terms: &mut Vec<Term<'p>>,
    column: Option<u32>,
    kind: TermKind<'p>,
) -> Result<(), Memory>
    ensures { OnOk result (map term_of terms.new.items
        ≡ map term_of terms.old.items
        ++ meant.nocase_term (site_of column) (term_kind_of kind.entry) ∷ []) }
{
    push(terms, marked_term(column, None, Collation::Nocase, kind))
}

fn push_high<'p>(
    arena: &'p Bump,
    terms: &mut Vec<Term<'p>>,
    column: Option<u32>,
    high: &Option<Bytes>,
) -> Result<(), Memory>
    ensures { OnOk result (map term_of terms.new.items
        ≡ map term_of terms.old.items ++ meant.below_term (site_of column) high.now) }
{
    match high {
        Some(high) => {
            let key = text_key(arena, high.as_slice())?;
            push_bound(terms, column, TermKind::High(key, false))
        }
        None => Ok(()),
    }
}

fn push_range<'p>(
    arena: &'p Bump,
    terms: &mut Vec<Term<'p>>,
    column: Option<u32>,
    range: &Range,
) -> Result<(), Memory>
    ensures { OnOk result (map term_of terms.new.items
        ≡ map term_of terms.old.items ++ meant.range_terms (site_of column) (range_of range.now)) }
{
    let key = text_key(arena, range.low.as_slice())?;
    push_bound(terms, column, TermKind::Low(key, true))?;
    push_high(arena, terms, column, &range.high)?;
    Ok(())
}

/// Appends the bounds that `left LIKE pattern` gives, where `left` is a column of the item.
fn push_column_range<'p>(
    alloc: Global,
    arena: &'p Bump,
    terms: &mut Vec<Term<'p>>,
    schema: &Schema,
    items: &[BItem],
    item: u32,
    left: &BExpr,
    pattern: &BExpr,
) -> Result<(), Memory>
    ensures { OnOk result (map term_of terms.new.items
        ≡ map term_of terms.old.items
        ++ meant.column_range (plain_schema schema.now) (map item_of items.now) item
        (exprs.bare_column (expr_of left.now)) (meant.literal_bounds (expr_of pattern.now))) }
{
    let Some(c) = bare_column(left) else {
        return Ok(());
    };
    let Some(range) = literal_bounds(alloc, pattern)? else {
        return Ok(());
    };
    if c.item == item && orders_as_like(own_column(schema, items, c)) {
        push_range(arena, terms, c.column, &range)
    } else {
        Ok(())
    }
}

/// Appends the bounds that a conjunct gives a column of the item where it is a LIKE.
#[tactic(auto, using(crate::proofs::Lists::seen_lists))]
fn push_like<'p>(
    alloc: Global,
    arena: &'p Bump,
    terms: &mut Vec<Term<'p>>,
    schema: &Schema,
    items: &[BItem],
    item: u32,
    expr: &BExpr,
) -> Result<(), Memory>
    ensures { OnOk result (map term_of terms.new.items
        ≡ map term_of terms.old.items
        ++ meant.like_terms (plain_schema schema.now) (map item_of items.now) item
        (expr_of expr.now)) }
{
    match expr {
        BExpr::Like(negated, left, pattern) => {
            if *negated {
                Ok(())
            } else {
                push_column_range(alloc, arena, terms, schema, items, item, left, pattern)
            }
        }
        _ => Ok(()),
    }
}

/// The bounds that each LIKE of a list of conjuncts gives, in order.
pub(crate) fn like_terms<'p>(
    alloc: Global,
    arena: &'p Bump,
    schema: &Schema,
    items: &[BItem],
    item: u32,
    list: &[&'p BExpr<'p>],
) -> Result<Vec<Term<'p>>, Memory>
    ensures { IfOk result (λ terms. map term_of terms.items
        ≡ flat_map (meant.like_terms (plain_schema schema.now) (map item_of items.now) item)
        (map (λ e. expr_of e.now) list.now)) }
{
    let mut terms: Vec<Term<'p>> = Vec::new(alloc);
    for expr in list {
        push_like(alloc, arena, &mut terms, schema, items, item, expr)?;
    }
    Ok(terms)
}
