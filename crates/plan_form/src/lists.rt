//! The lists that paths go along: sorted once for a loop, whatever rows the loops outside it have.
ghost use Rattle.std.specs.Prelude.{◌≡◌, ◌<◌, ◌≤◌, [], ◌∷◌, Some, map, length, IfOk, slice_get};
ghost use Rattle.std.specs.List.{AllByRecursion};
ghost use Rattle.sql_meaning.specs.IndexLists as meant;
ghost use Rattle.sql_meaning.specs.Schemas.{RisingRows};
ghost use Rattle.schema_model.specs.PlainSchemas.{plain_rows, plain_schema};
ghost use Rattle.index_lists.specs.Lent.{lent_rows};
ghost use Rattle.index_lists.specs.SortColumns.{sort_column_of};
ghost use Rattle.path_walks.specs.Columns.{plain_sort_column};
ghost use Rattle.plan_form.specs.Paths.{path_of};
ghost use Rattle.plan_form.specs.Seeks.{HasIndex, keys_form, lent_paths};
ghost use Rattle.plan_form.specs.SortedLists.{AreListsOf, AreSearchable, IsListOf};

use crate::path::Path;
use index_lists::index_list;
use path_walks::SortColumn;
use schema_model::{IndexColumn, Row, Schema};
use sql_value::{Collation, Memory, push};
use std::alloc::Global;

/// Rows of a table, with the columns that they are sorted by.
#[derive(Drop)]
pub(crate) struct SortedList<'t> {
    pub columns: Vec<SortColumn>,
    pub rows: Vec<&'t Row>,
}

fn sort_column(column: &IndexColumn) -> SortColumn
    ensures { plain_sort_column result ≡ sort_column_of column.now }
{
    SortColumn {
        column: Some(column.column),
        coll: column.coll,
        desc: column.desc,
    }
}

fn sort_columns_of(alloc: Global, columns: &[IndexColumn]) -> Result<Vec<SortColumn>, Memory>
    ensures { IfOk result (λ list. map plain_sort_column list.items
        ≡ map sort_column_of columns.now) }
{
    let mut list = Vec::new(alloc);
    for column in columns {
        push(&mut list, sort_column(column))?;
    }
    Ok(list)
}

/// What an index of the schema is sorted by.
fn sort_columns(alloc: Global, schema: &Schema, index: u32) -> Result<Vec<SortColumn>, Memory>
    requires { index < length schema.now.indexes }
    ensures { IfOk result (λ list. map plain_sort_column list.items
        ≡ meant.sort_columns (plain_schema schema.now) index) }
{
    let list = sort_columns_of(alloc, schema.index(index).columns.as_slice())?;
    Ok(list)
}

/// What a table is kept by.
fn rowid_column(alloc: Global) -> Result<Vec<SortColumn>, Memory>
    ensures { IfOk result (λ list. map plain_sort_column list.items ≡ meant.by_rowid ∷ []) }
{
    let mut list = Vec::new(alloc);
    let rowid = SortColumn {
        column: None,
        coll: Collation::Binary,
        desc: false,
    };
    push(&mut list, rowid)?;
    Ok(list)
}

/// The rows of a table, by rowid.
fn table_list<'t>(alloc: Global, rows: &'t [Row]) -> Result<Vec<&'t Row>, Memory>
    ensures { IfOk result (λ list. lent_rows list.items ≡ plain_rows rows.now) }
{
    let mut list = Vec::new(alloc);
    for row in rows {
        push(&mut list, row)?;
    }
    Ok(list)
}

/// All rows of a table, for a scan.
fn scan_list<'t>(alloc: Global, rows: &'t [Row]) -> Result<SortedList<'t>, Memory>
    ensures columns { IfOk result (λ list. list.columns.items ≡ []) }
    ensures rows { IfOk result (λ list. lent_rows list.rows.items ≡ plain_rows rows.now) }
{
    let rows = table_list(alloc, rows)?;
    Ok(SortedList {
        columns: Vec::new(alloc),
        rows,
    })
}

/// All rows of a table, by rowid.
fn rowid_list<'t>(alloc: Global, rows: &'t [Row]) -> Result<SortedList<'t>, Memory>
    ensures columns { IfOk result (λ list. map plain_sort_column list.columns.items
        ≡ meant.by_rowid ∷ []) }
    ensures rows { IfOk result (λ list. lent_rows list.rows.items ≡ plain_rows rows.now) }
{
    let rows = table_list(alloc, rows)?;
    let columns = rowid_column(alloc)?;
    Ok(SortedList { columns, rows })
}

/// The list of an index.
fn entries<'t>(
    alloc: Global,
    schema: &Schema,
    index: u32,
    rows: &'t [Row],
) -> Result<SortedList<'t>, Memory>
    requires { index < length schema.now.indexes }
    ensures columns { IfOk result (λ list. map plain_sort_column list.columns.items
        ≡ meant.sort_columns (plain_schema schema.now) index) }
    ensures rows { IfOk result (λ list. lent_rows list.rows.items
        ≡ meant.index_entries (meant.sort_columns (plain_schema schema.now) index)
        (plain_rows rows.now)) }
{
    let rows = index_list(alloc, schema, index, rows)?;
    let columns = sort_columns(alloc, schema, index)?;
    Ok(SortedList { columns, rows })
}

/// The list that a path goes along, over the rows of its table.
#[tactic(auto, using(crate::proofs::PathViews::seen_paths))]
fn list_of<'t>(
    alloc: Global,
    schema: &Schema,
    path: &Path,
    rows: &'t [Row],
) -> Result<SortedList<'t>, Memory>
    requires { HasIndex (plain_schema schema.now) (path_of path.now) }
    ensures list { IfOk result (λ list. IsListOf (plain_schema schema.now) (plain_rows rows.now)
        (path_of path.now) list) }
    ensures few { IfOk result (λ list. length (keys_form (path_of path.now)).eqs
        ≤ length list.columns.items) }
{
    match path {
        Path::TableScan => {
            let list = scan_list(alloc, rows)?;
            Ok(list)
        }
        Path::Union(_) => {
            let list = scan_list(alloc, rows)?;
            Ok(list)
        }
        Path::RowidEq(_) => {
            let list = rowid_list(alloc, rows)?;
            Ok(list)
        }
        Path::RowidRange(..) => {
            let list = rowid_list(alloc, rows)?;
            Ok(list)
        }
        Path::IndexScan { index, .. } => {
            let list = entries(alloc, schema, *index, rows)?;
            Ok(list)
        }
        Path::IndexSeek { index, .. } => {
            let list = entries(alloc, schema, *index, rows)?;
            Ok(list)
        }
    }
}

pub(crate) fn path_at<'p>(paths: &[&'p Path<'p>], number: usize) -> &'p Path<'p>
    requires { number < length paths.now }
    ensures { slice_get (lent_paths paths.now) number ≡ Some (path_of result.now) }
{
    paths[number]
}

pub(crate) fn list_at<'l, 't>(lists: &'l [SortedList<'t>], number: usize) -> &'l SortedList<'t>
    requires { number < length lists.now }
    ensures { slice_get lists.now number ≡ Some result.now }
{
    &lists[number]
}

/// The list of each path.
pub(crate) fn lists_of<'p, 't>(
    alloc: Global,
    schema: &Schema,
    paths: &[&'p Path<'p>],
    rows: &'t [Row],
) -> Result<Vec<SortedList<'t>>, Memory>
    requires indexes { AllByRecursion (HasIndex (plain_schema schema.now)) (lent_paths paths.now) }
    requires rising { RisingRows (plain_rows rows.now) }
    ensures lists { IfOk result (λ lists. AreListsOf (plain_schema schema.now)
        (plain_rows rows.now) (lent_paths paths.now) lists.items) }
    ensures searchable { IfOk result (λ lists. AreSearchable (lent_paths paths.now) lists.items) }
{
    let mut lists = Vec::new(alloc);
    for number in 0..paths.len() {
        let list = list_of(alloc, schema, path_at(paths, number), rows)?;
        lists.push(list)?;
    }
    Ok(lists)
}
