//! What a name of a column means.
ghost use Rattle.std.specs.Prelude.{◌≡◌, ◌<◌, length, option_map, IfOk, ◌∷◌, []};
ghost use Rattle.sql_bound.specs.Expressions.{expr_of};
ghost use Rattle.sql_names.specs.Faults.{Answers};
ghost use Rattle.sql_names.specs.Scopes.{table_at};
ghost use Rattle.sql_names.specs.Names as meant;
ghost use Rattle.sql_names.specs.Meanings.{plain_meaning};

use crate::{BindFault, Scope};
use schema_model::{Table, find_column};
use sql_bound::BExpr;
use sql_tree::Lit;
use sql_value::{Bytes, Memory, fold};
use std::alloc::Global;

/// What a name means among the tables of FROM.
#[derive(Clone, Copy)]
pub(crate) enum Meaning<'a> {
    Denotes(BExpr<'a>),
    /// Several tables have what it names.
    Ambiguous,
    Unknown,
}

/// The column of a number, in the table of an item: the item's rowid where the column is an alias
/// of it (<https://sqlite.org/lang_createtable.html>, "ROWIDs and the INTEGER PRIMARY KEY"). Takes
/// no memory.
pub fn column_expr<'a>(table: &Table, item: u32, column: u32) -> BExpr<'a>
    ensures { expr_of result ≡ meant.column_expr table.now.alias item column }
{
    if table.alias == Some(column) {
        BExpr::Rowid { item }
    } else {
        BExpr::Column { item, column }
    }
}

fn is_rowid_name(lower: &[u8]) -> bool
    ensures { result ≡ meant.is_rowid_name lower.now }
{
    lower == b"rowid".as_slice() || lower == b"oid".as_slice() || lower == b"_rowid_".as_slice()
}

fn column_in<'a>(scope: &Scope, item: u32, lower: &[u8]) -> Option<BExpr<'a>>
    requires { item < length scope.now.items }
    ensures { option_map expr_of result ≡ meant.column_in item (table_at scope.now item) lower.now }
{
    let table = scope.table(item);
    match find_column(table, lower) {
        Some(column) => Some(column_expr(table, item, column)),
        None => None,
    }
}

/// An item's column of a name whose letters are lower, or where it has none, its rowid by the name
/// `rowid`, `oid` or `_rowid_`. Takes no memory.
pub fn named_in<'a>(scope: &Scope, item: u32, lower: &[u8]) -> Option<BExpr<'a>>
    requires { item < length scope.now.items }
    ensures { option_map expr_of result ≡ meant.named_in item (table_at scope.now item) lower.now }
{
    match column_in(scope, item, lower) {
        Some(column) => Some(column),
        None => {
            if is_rowid_name(lower) {
                Some(BExpr::Rowid { item })
            } else {
                None
            }
        }
    }
}

/// TRUE and FALSE, which are 1 and 0.
fn constant<'a>(lower: &[u8]) -> Meaning<'a>
    ensures { plain_meaning result ≡ meant.constant lower.now }
{
    if lower == b"true".as_slice() {
        Meaning::Denotes(BExpr::Lit(Lit::Int(1)))
    } else if lower == b"false".as_slice() {
        Meaning::Denotes(BExpr::Lit(Lit::Int(0)))
    } else {
        Meaning::Unknown
    }
}

/// What a name means that no item has as a column.
fn without_column<'a>(scope: &Scope, lower: &[u8]) -> Meaning<'a>
    ensures { plain_meaning result ≡ meant.without_column scope.now lower.now }
{
    if !is_rowid_name(lower) {
        constant(lower)
    } else if scope.count() == 1 {
        Meaning::Denotes(BExpr::Rowid { item: 0 })
    } else {
        Meaning::Ambiguous
    }
}

/// What a name means that stands alone: the one column of that name, by a hash for each item.
fn bare_meaning<'a>(scope: &Scope, lower: &[u8]) -> Meaning<'a>
    ensures { plain_meaning result ≡ meant.bare_meaning scope.now lower.now }
{
    let mut found = None;
    for item in 0..scope.count() {
        if let Some(column) = column_in(scope, item, lower) {
            if found.is_some() {
                return Meaning::Ambiguous;
            }
            found = Some(column);
        }
    }
    match found {
        Some(column) => Meaning::Denotes(column),
        None => without_column(scope, lower),
    }
}

fn meaning_of<'a>(
    alloc: Global,
    scope: &Scope,
    table: Option<&[u8]>,
    name: &[u8],
) -> Result<Meaning<'a>, Memory>
    ensures { IfOk result (λ meaning. plain_meaning meaning
        ≡ meant.meaning_of scope.now (option_map (λ bytes. bytes.now) table.entry) name.now) }
{
    let lower = fold(alloc, name)?;
    let Some(table) = table else {
        return Ok(bare_meaning(scope, lower.as_slice()));
    };
    let Some(item) = scope.item_named(alloc, table)? else {
        return Ok(Meaning::Unknown);
    };
    match named_in(scope, item, lower.as_slice()) {
        Some(column) => Ok(Meaning::Denotes(column)),
        None => Ok(Meaning::Unknown),
    }
}

/// The name as it is written, behind its table's and a dot where that is written.
fn shown(alloc: Global, table: Option<&[u8]>, name: &[u8]) -> Result<Bytes, Memory>
    ensures { IfOk result (λ text. text
        ≡ meant.shown (option_map (λ bytes. bytes.now) table.entry) name.now) }
{
    match table {
        Some(table) => {
            let mut text = Bytes::copy(alloc, table)?;
            text.push(b'.')?;
            text.append(name)?;
            Ok(text)
        }
        None => Bytes::copy(alloc, name),
    }
}

/// Whether what a name denotes is of an item to the right of the owner.
fn is_right_of(owner: Option<u32>, denoted: &BExpr) -> bool
    ensures { result ≡ meant.is_right_of owner (expr_of denoted.now) }
{
    let Some(owner) = owner else {
        return false;
    };
    match denoted {
        BExpr::Column { item, .. } => owner < *item,
        BExpr::Rowid { item } => owner < *item,
        _ => false,
    }
}

/// The expression that a name denotes (<https://sqlite.org/lang_expr.html>): a column, behind its
/// table's name or alone; where there is no such column, the rowid by its three names, and for a
/// name alone TRUE and FALSE. A name in the ON condition of a LEFT JOIN has the item of that as its
/// owner.
///
/// `AmbiguousColumn` where a name alone is that of columns of several tables, or of the rowid where
/// there are several tables; `NoSuchColumn` where it denotes nothing; `RightName` where it denotes
/// an item to the right of its owner; `Memory`.
pub fn bind_name<'a>(
    alloc: Global,
    scope: &Scope,
    owner: Option<u32>,
    table: Option<&[u8]>,
    name: &[u8],
) -> Result<BExpr<'a>, BindFault>
    ensures { Answers expr_of result
        (meant.name_check scope.now owner (option_map (λ bytes. bytes.now) table.entry) name.now
        ∷ [])
        (meant.name_expr scope.now (option_map (λ bytes. bytes.now) table.entry) name.now) }
{
    match meaning_of(alloc, scope, table, name)? {
        Meaning::Denotes(expr) => {
            if is_right_of(owner, &expr) {
                Err(BindFault::RightName(shown(alloc, table, name)?))
            } else {
                Ok(expr)
            }
        }
        Meaning::Ambiguous => Err(BindFault::AmbiguousColumn(shown(alloc, table, name)?)),
        Meaning::Unknown => Err(BindFault::NoSuchColumn(shown(alloc, table, name)?)),
    }
}
