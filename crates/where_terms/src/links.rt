//! The links of a list of conjuncts: equalities of two columns, from which more follow
//! (<https://sqlite.org/optoverview.html>, section 2).
ghost use Rattle.std.specs.Prelude.{◌≡◌, ◌++◌, IfOk, OnOk, map, option_map};
ghost use Rattle.std.specs.Option.{option_to_list};
ghost use Rattle.sql_meaning.specs.Expressions as exprs;
ghost use Rattle.sql_meaning.specs.TermLists as meant;
ghost use Rattle.sql_value.specs.View.{plain_collation};
ghost use Rattle.schema_model.specs.PlainSchemas.{plain_schema};
ghost use Rattle.sql_bound.specs.Columns.{column_ref_of};
ghost use Rattle.sql_bound.specs.Expressions.{expr_of};
ghost use Rattle.sql_bound.specs.Statements.{item_of};
ghost use Rattle.where_terms.specs.Views.{link_of};

use crate::columns::class_number;
use schema_model::Schema;
use sql_bound::{BExpr, BItem, ColumnRef, bare_column, own_column};
use sql_tree::Op;
use sql_value::{Collation, Memory, is_same_collation, push};
use std::alloc::Global;

/// Two columns of different items that a conjunct says are equal.
#[derive(Clone, Copy)]
pub(crate) struct Link {
    pub first: ColumnRef,
    pub second: ColumnRef,
}

/// Whether a comparison of two columns is one that each of them makes by itself.
fn owns_link(
    schema: &Schema,
    items: &[BItem],
    first: ColumnRef,
    second: ColumnRef,
    coll: Collation,
) -> bool
    ensures { result
        ≡ meant.owns_link (plain_schema schema.now) (map item_of items.now) (column_ref_of first)
        (column_ref_of second) (plain_collation coll) }
{
    if first.item == second.item {
        return false;
    }
    let one = own_column(schema, items, first);
    let other = own_column(schema, items, second);
    is_same_collation(one.coll, coll)
        && is_same_collation(other.coll, coll)
        && class_number(one.affinity) == class_number(other.affinity)
}

fn linked_sides(
    schema: &Schema,
    items: &[BItem],
    left: &BExpr,
    right: &BExpr,
    coll: Collation,
) -> Option<Link>
    ensures { option_to_list (option_map link_of result)
        ≡ meant.pair_of (plain_schema schema.now) (map item_of items.now)
        (exprs.bare_column (expr_of left.now)) (exprs.bare_column (expr_of right.now))
        (plain_collation coll) }
{
    let first = bare_column(left)?;
    let second = bare_column(right)?;
    if owns_link(schema, items, first, second, coll) {
        Some(Link { first, second })
    } else {
        None
    }
}

/// The columns that a conjunct links.
#[tactic(auto, using(crate::proofs::Lists::seen_lists))]
fn found_link(schema: &Schema, items: &[BItem], expr: &BExpr) -> Option<Link>
    ensures { option_to_list (option_map link_of result)
        ≡ meant.link_pair (plain_schema schema.now) (map item_of items.now) (expr_of expr.now) }
{
    match expr {
        BExpr::Cmp {
            op,
            left,
            right,
            coll,
            ..
        } => match op {
            Op::Eq => linked_sides(schema, items, left, right, *coll),
            Op::Ne => None,
            Op::Lt => None,
            Op::Le => None,
            Op::Gt => None,
            Op::Ge => None,
        },
        _ => None,
    }
}

fn push_link(links: &mut Vec<Link>, link: Option<Link>) -> Result<(), Memory>
    ensures { OnOk result (map link_of links.new.items
        ≡ map link_of links.old.items ++ option_to_list (option_map link_of link)) }
{
    match link {
        Some(link) => push(links, link),
        None => Ok(()),
    }
}

/// The links of a list of conjuncts, in order.
pub(crate) fn links_in<'p>(
    alloc: Global,
    schema: &Schema,
    items: &[BItem],
    list: &[&'p BExpr<'p>],
) -> Result<Vec<Link>, Memory>
    ensures { IfOk result (λ links. map link_of links.items
        ≡ meant.link_pairs (plain_schema schema.now) (map item_of items.now)
        (map (λ e. expr_of e.now) list.now)) }
{
    let mut links: Vec<Link> = Vec::new(alloc);
    for expr in list {
        push_link(&mut links, found_link(schema, items, expr))?;
    }
    Ok(links)
}
