//! The items that the keys of a term name, as the bits of a number.
ghost use Rattle.std.specs.Prelude.{◌≡◌};
ghost use Rattle.sql_meaning.specs.Expressions.{names, all_names};
ghost use Rattle.sql_value.specs.View.{plain_collation};
ghost use Rattle.sql_bound.specs.Columns.{site_of};
ghost use Rattle.sql_bound.specs.Expressions.{expr_of, members_of};
ghost use Rattle.sql_bound.specs.Statements.{key_exprs_of};
ghost use Rattle.where_terms.specs.Kinds.{term_kind_of};
ghost use Rattle.where_terms.specs.Masks.{marked, marked_all, key_names, kind_mask};
ghost use Rattle.where_terms.specs.Views.{term_of};

use crate::{Term, TermKind};
use sql_bound::{BExpr, BExprs, Keys};
use sql_value::Collation;

fn mark(mask: u64, item: u32) -> u64
    ensures { result ≡ marked mask item }
{
    if item < 64 { mask | (1 << item) } else { mask }
}

/// The mask with the items that an expression names.
#[cycle(mark_names)]
#[tactic(auto, using(crate::proofs::Lists::seen_lists))]
fn mark_names(mask: u64, expr: &BExpr) -> u64
    ensures { result ≡ marked_all mask (names (expr_of expr.now)) }
{
    match expr {
        BExpr::Lit(_) => mask,
        BExpr::Param(_) => mask,
        BExpr::Column { item, .. } => mark(mask, *item),
        BExpr::Rowid { item } => mark(mask, *item),
        BExpr::Plus(inner) => mark_names(mask, inner),
        BExpr::Collate(inner, _) => mark_names(mask, inner),
        BExpr::Cmp { left, right, .. } => mark_names(mark_names(mask, left), right),
        BExpr::OneOf { left, entries, .. } => mark_list(mark_names(mask, left), entries),
        BExpr::Like(_, left, pattern) => mark_names(mark_names(mask, left), pattern),
        BExpr::IsNull(_, inner) => mark_names(mask, inner),
        BExpr::Not(inner) => mark_names(mask, inner),
        BExpr::All(members) => mark_list(mask, members),
        BExpr::Any(members) => mark_list(mask, members),
    }
}

#[cycle(mark_names)]
fn mark_list(mask: u64, list: &BExprs) -> u64
    ensures { result ≡ marked_all mask (all_names (members_of list.now)) }
{
    let mut marked = mask;
    for member in list.members {
        marked = mark_names(marked, member);
    }
    marked
}

fn mark_keys(mask: u64, keys: Keys) -> u64
    ensures { result ≡ marked_all mask (key_names (key_exprs_of keys.entry)) }
{
    let mut marked = mask;
    for key in keys.keys {
        marked = mark_names(marked, key.expr);
    }
    marked
}

fn mask_of(kind: &TermKind) -> u64
    ensures { result ≡ kind_mask (term_kind_of kind.now) }
{
    match kind {
        TermKind::Equal(key) => mark_names(0, key.expr),
        TermKind::OneOf(keys) => mark_keys(0, *keys),
        TermKind::IsNull => 0,
        TermKind::Low(key, _) => mark_names(0, key.expr),
        TermKind::High(key, _) => mark_names(0, key.expr),
    }
}

/// A term, with the items that its keys name.
pub(crate) fn marked_term<'p>(
    column: Option<u32>,
    conjunct: Option<u32>,
    coll: Collation,
    kind: TermKind<'p>,
) -> Term<'p>
    ensures { term_of result ≡ record {
      column = site_of column;
      conjunct = conjunct;
      collation = plain_collation coll;
      kind = term_kind_of kind.entry;
    } }
{
    let others = mask_of(&kind);
    Term {
        column,
        conjunct,
        coll,
        kind,
        others,
    }
}
