//! Bound statements as texts, which the tables of tests compare.
//!
//! - An item of FROM is its number, a column `item.column`, and its rowid `item.rowid`.
//! - Behind a comparison stand what is applied to its sides (I INTEGER, R REAL, N NUMERIC, T TEXT,
//!   B BLOB, - nothing) and its collation (b BINARY, n NOCASE, r RTRIM); behind IN what is applied
//!   to the entries, and the collation.
//! - An expression with an explicit collation has the letter of it behind a colon.
//! - `&` comes before a conjunct, which has the item that owns it behind it; `by` before a key,
//!   which has its collation behind it, and a - where it falls.
//! - In parentheses stand the columns that are needed of an item.
use sql_bound::{BExpr, BExprs, Bound};
use sql_tree::{Cut, Lit, Op};
use sql_value::{Affinity, Bytes, Collation, Memory};

pub(crate) fn append_digit(shown: &mut Bytes, number: u32) -> Result<(), Memory> {
    shown.push(b'0' + (number % 10) as u8)
}

pub(crate) fn affinity_letter(affinity: Option<Affinity>) -> u8 {
    match affinity {
        None => b'-',
        Some(Affinity::Integer) => b'I',
        Some(Affinity::Real) => b'R',
        Some(Affinity::Numeric) => b'N',
        Some(Affinity::Text) => b'T',
        Some(Affinity::Blob) => b'B',
    }
}

pub(crate) fn collation_letter(coll: Collation) -> u8 {
    match coll {
        Collation::Binary => b'b',
        Collation::Nocase => b'n',
        Collation::Rtrim => b'r',
    }
}

fn op_text(op: Op) -> &'static [u8] {
    match op {
        Op::Eq => b"=",
        Op::Ne => b"<>",
        Op::Lt => b"<",
        Op::Le => b"<=",
        Op::Gt => b">",
        Op::Ge => b">=",
    }
}

/// An expression with items and columns by number. Behind each comparison stand what is applied to
/// its sides, and its collation.
#[cycle(append_expr)]
pub(crate) fn append_expr(shown: &mut Bytes, expr: &BExpr) -> Result<(), Memory> {
    match expr {
        BExpr::Lit(Lit::Int(number @ 0..=9)) => append_digit(shown, *number as u32),
        BExpr::Column { item, column } => {
            append_digit(shown, *item)?;
            shown.push(b'.')?;
            append_digit(shown, *column)
        }
        BExpr::Rowid { item } => {
            append_digit(shown, *item)?;
            shown.append(b".rowid")
        }
        BExpr::Plus(inner) => {
            shown.push(b'+')?;
            append_expr(shown, inner)
        }
        BExpr::Collate(inner, coll) => {
            append_expr(shown, inner)?;
            shown.push(b':')?;
            shown.push(collation_letter(*coll))
        }
        BExpr::Cmp {
            op,
            left,
            right,
            conv,
            coll,
        } => {
            append_expr(shown, left)?;
            shown.append(op_text(*op))?;
            append_expr(shown, right)?;
            shown.push(b' ')?;
            shown.push(affinity_letter(conv.left))?;
            shown.push(affinity_letter(conv.right))?;
            shown.push(collation_letter(*coll))
        }
        BExpr::OneOf {
            not,
            left,
            entries,
            conv,
            coll,
        } => {
            append_expr(shown, left)?;
            shown.append(if *not { b" not in (" } else { b" in (" })?;
            append_list(shown, entries)?;
            shown.append(b") ")?;
            shown.push(affinity_letter(*conv))?;
            shown.push(collation_letter(*coll))
        }
        BExpr::Like(not, left, pattern) => {
            append_expr(shown, left)?;
            shown.append(if *not { b" not like " } else { b" like " })?;
            append_expr(shown, pattern)
        }
        BExpr::Not(inner) => {
            shown.append(b"not ")?;
            append_expr(shown, inner)
        }
        BExpr::All(members) => {
            shown.append(b"all (")?;
            append_list(shown, members)?;
            shown.push(b')')
        }
        BExpr::Any(members) => {
            shown.append(b"any (")?;
            append_list(shown, members)?;
            shown.push(b')')
        }
        _ => shown.push(b'?'),
    }
}

#[cycle(append_expr)]
fn append_list(shown: &mut Bytes, list: &BExprs) -> Result<(), Memory> {
    for member in list.members {
        append_expr(shown, member)?;
        shown.push(b',')?;
    }
    Ok(())
}

/// The results, each with a space behind it.
pub(crate) fn append_results(shown: &mut Bytes, bound: &Bound) -> Result<(), Memory> {
    for result in bound.results {
        append_expr(shown, result)?;
        shown.push(b' ')?;
    }
    Ok(())
}

/// Each conjunct, and behind it the item that owns it.
fn append_conjuncts(shown: &mut Bytes, bound: &Bound) -> Result<(), Memory> {
    for conjunct in bound.conjuncts {
        shown.append(b"& ")?;
        append_expr(shown, conjunct.expr)?;
        shown.push(b' ')?;
        if let Some(owner) = conjunct.owner {
            append_digit(shown, owner)?;
            shown.push(b' ')?;
        }
    }
    Ok(())
}

fn append_keys(shown: &mut Bytes, bound: &Bound) -> Result<(), Memory> {
    for key in bound.keys {
        shown.append(b"by ")?;
        append_expr(shown, key.expr)?;
        shown.push(b' ')?;
        shown.push(collation_letter(key.coll))?;
        shown.append(if key.desc { b"- " } else { b" " })?;
    }
    Ok(())
}

/// The columns that the statement needs of each item.
fn append_needs(shown: &mut Bytes, bound: &Bound) -> Result<(), Memory> {
    for columns in bound.needs {
        shown.push(b'(')?;
        for column in *columns {
            append_digit(shown, *column)?;
        }
        shown.push(b')')?;
    }
    Ok(())
}

/// A count, if there is one; a parameter is a `?`.
fn append_cut(shown: &mut Bytes, name: &[u8], cut: Option<Cut>) -> Result<(), Memory> {
    match cut {
        Some(Cut::Count(number @ 0..=9)) => {
            shown.append(name)?;
            append_digit(shown, number as u32)?;
            shown.push(b' ')
        }
        Some(_) => {
            shown.append(name)?;
            shown.append(b"? ")
        }
        None => Ok(()),
    }
}

pub(crate) fn append_bound(shown: &mut Bytes, bound: &Bound) -> Result<(), Memory> {
    append_results(shown, bound)?;
    append_conjuncts(shown, bound)?;
    append_keys(shown, bound)?;
    append_cut(shown, b"limit ", bound.limit)?;
    append_cut(shown, b"offset ", bound.offset)?;
    append_needs(shown, bound)
}
