//! The text of a plan (<https://sqlite.org/eqp.html>), in the form without the word TABLE.
ghost use Rattle.std.specs.Prelude.{◌≡◌, ◌++◌, ◌<◌, ◌≤◌, ◌||◌, length, map, option_map, slice_get};
ghost use Rattle.std.specs.Prelude.{slice_index_or, ◌==◌, ◌∷◌, [], codes, true, IfOk, OnOk};
ghost use Rattle.std.specs.List.{AllByRecursion};
ghost use Rattle.sql_meaning.specs.Fitting.{FitsTable, AreSeeksOf, PathFits};
ghost use Rattle.sql_bound.specs.Statements.{bound_of};
ghost use Rattle.schema_model.specs.PlainSchemas.{plain_schema};
ghost use Rattle.schema_model.specs.Schemas.{IsIndexOf};
ghost use Rattle.plan_form.specs.Paths.{path_of, branches_of};
ghost use Rattle.plan_form.specs.Plans.{plan_of, loop_of, covers, covering_of};
ghost use Rattle.plan_form.specs.Texts as meant;

use crate::{Loop, Path, Paths, Plan};
use schema_model::{IndexColumn, Schema, Table, schema_is_sound};
use sql_bound::{BItem, Bound};
use sql_value::{Bytes, Memory};
use std::alloc::Global;

/// The name of an item's table, and its alias.
fn append_item(text: &mut Bytes, schema: &Schema, item: &BItem) -> Result<(), Memory>
    requires { item.now.table < length schema.now.tables }
    ensures { OnOk result (text.new ≡ text.old ++ meant.shown_item schema.now item.now) }
{
    text.append(schema.table(item.table).name.as_slice())?;
    if let Some(alias) = item.alias {
        text.append(b" AS ")?;
        text.append(alias)?;
    }
    Ok(())
}

/// A column by its name; an alias of the rowid is told as the rowid.
fn told_column<'t>(table: &'t Table, column: u32) -> &'t [u8]
    requires { column < length table.now.columns }
    ensures { result.now ≡ meant.told_column table.now column }
{
    match table.alias {
        Some(alias) if alias == column => b"rowid",
        _ => table.columns.as_slice()[column as usize].name.as_slice(),
    }
}

fn append_using(text: &mut Bytes, schema: &Schema, index: u32, covering: bool) -> Result<(), Memory>
    requires { index < length schema.now.indexes }
    ensures { OnOk result (text.new ≡ text.old ++ meant.using_index schema.now index covering) }
{
    if covering {
        text.append(b" USING COVERING INDEX ")?;
    } else {
        text.append(b" USING INDEX ")?;
    }
    text.append(schema.index(index).name.as_slice())
}

/// A test of a column, behind ` AND ` where it isn't the first.
fn append_test(text: &mut Bytes, first: bool, name: &[u8], test: &[u8]) -> Result<(), Memory>
    ensures { OnOk result (text.new ≡ text.old
        ++ meant.joined_at first ((name.now ++ test.now) ∷ [])) }
{
    if !first {
        text.append(b" AND ")?;
    }
    text.append(name)?;
    text.append(test)
}

/// A test for each of the first columns of an index.
fn append_equal_tests(
    text: &mut Bytes,
    table: &Table,
    columns: &[IndexColumn],
) -> Result<(), Memory>
    requires { AllByRecursion (λ c. c.column < length table.now.columns) columns.now }
    ensures { OnOk result (text.new ≡ text.old ++ meant.joined (meant.equal_tests
        (map (λ c. meant.told_column table.now c.column) columns.now))) }
{
    for (place, column) in columns.iter().enumerate() {
        append_test(text, place == 0, told_column(table, column.column), b"=?")?;
    }
    Ok(())
}

/// A test for each bound that is there; whether it is inclusive isn't told.
fn append_bound_tests(
    text: &mut Bytes,
    first: bool,
    name: &[u8],
    low: bool,
    high: bool,
) -> Result<(), Memory>
    ensures { OnOk result (text.new ≡ text.old
        ++ meant.joined_at first (meant.bound_tests name.now low high)) }
{
    if low {
        append_test(text, first, name, b">?")?;
    }
    if high {
        append_test(text, first && !low, name, b"<?")?;
    }
    Ok(())
}

/// What a search tests: how many first columns of its index are equal to something, and which
/// bounds the next column has.
#[derive(Clone, Copy)]
struct Tests {
    equals: usize,
    low: bool,
    high: bool,
}

/// The tests of the column behind those that are equal to something.
fn append_next_tests(
    text: &mut Bytes,
    table: &Table,
    columns: &[IndexColumn],
    tests: Tests,
) -> Result<(), Memory>
    requires inside { AllByRecursion (λ c. c.column < length table.now.columns) columns.now }
    requires bounds { (tests.low || tests.high) ≡ true → tests.equals < length columns.now }
    ensures { OnOk result (text.new ≡ text.old ++ meant.joined_at (tests.equals == 0)
        (meant.bound_tests (slice_index_or
        (map (λ c. meant.told_column table.now c.column) columns.now) tests.equals []) tests.low
        tests.high)) }
{
    if !tests.low && !tests.high {
        return Ok(());
    }
    let name = told_column(table, columns[tests.equals].column);
    append_bound_tests(text, tests.equals == 0, name, tests.low, tests.high)
}

/// The tests of a search in an index, in parentheses.
fn append_enclosed(
    text: &mut Bytes,
    table: &Table,
    columns: &[IndexColumn],
    tests: Tests,
) -> Result<(), Memory>
    requires inside { AllByRecursion (λ c. c.column < length table.now.columns) columns.now }
    requires equals { tests.equals ≤ length columns.now }
    requires bounds { (tests.low || tests.high) ≡ true → tests.equals < length columns.now }
    ensures { OnOk result (text.new ≡ text.old ++ meant.in_parentheses (meant.index_tests
        (map (λ c. meant.told_column table.now c.column) columns.now) tests.equals tests.low
        tests.high)) }
{
    text.append(b" (")?;
    append_equal_tests(text, table, &columns[..tests.equals])?;
    append_next_tests(text, table, columns, tests)?;
    text.append(b")")
}

/// The tests of a search in the index of a number.
fn append_seek_tests(
    text: &mut Bytes,
    schema: &Schema,
    number: u32,
    tests: Tests,
) -> Result<(), Memory>
    requires index { number < length schema.now.indexes }
    requires equals { tests.equals ≤ length (meant.told_columns schema.now
        (slice_get schema.now.indexes number)) }
    requires bounds { (tests.low || tests.high) ≡ true
        → tests.equals < length (meant.told_columns schema.now
        (slice_get schema.now.indexes number)) }
    ensures { OnOk result (text.new ≡ text.old ++ meant.in_parentheses (meant.index_tests
        (meant.told_columns schema.now (slice_get schema.now.indexes number)) tests.equals
        tests.low tests.high)) }
{
    schema_is_sound(schema);
    let index = schema.index(number);
    let table = schema.table(index.table);
    append_enclosed(text, table, index.columns.as_slice(), tests)
}

fn append_scan(text: &mut Bytes, schema: &Schema, item: &BItem) -> Result<(), Memory>
    requires { item.now.table < length schema.now.tables }
    ensures { OnOk result (text.new ≡ text.old
        ++ meant.scan_line (meant.shown_item schema.now item.now)) }
{
    text.append(b"SCAN ")?;
    append_item(text, schema, item)
}

fn append_index_scan(
    text: &mut Bytes,
    schema: &Schema,
    item: &BItem,
    index: u32,
    covering: bool,
) -> Result<(), Memory>
    requires table { item.now.table < length schema.now.tables }
    requires index { index < length schema.now.indexes }
    ensures { OnOk result (text.new ≡ text.old
        ++ meant.index_scan_line schema.now (meant.shown_item schema.now item.now) covering index) }
{
    append_scan(text, schema, item)?;
    append_using(text, schema, index, covering)
}

/// The search of one rowid, or of some.
fn append_rowids(text: &mut Bytes, schema: &Schema, item: &BItem) -> Result<(), Memory>
    requires { item.now.table < length schema.now.tables }
    ensures { OnOk result (text.new ≡ text.old
        ++ meant.rowid_line (meant.shown_item schema.now item.now) (codes "rowid=?" ∷ [])) }
{
    text.append(b"SEARCH ")?;
    append_item(text, schema, item)?;
    text.append(b" USING INTEGER PRIMARY KEY (rowid=?)")
}

/// The search of a range of rowids.
fn append_rowid_range(
    text: &mut Bytes,
    schema: &Schema,
    item: &BItem,
    low: bool,
    high: bool,
) -> Result<(), Memory>
    requires { item.now.table < length schema.now.tables }
    ensures { OnOk result (text.new ≡ text.old
        ++ meant.rowid_line (meant.shown_item schema.now item.now)
        (meant.bound_tests (codes "rowid") low high)) }
{
    text.append(b"SEARCH ")?;
    append_item(text, schema, item)?;
    text.append(b" USING INTEGER PRIMARY KEY (")?;
    append_bound_tests(text, true, b"rowid", low, high)?;
    text.append(b")")
}

/// The search in an index by its first columns and a range of the next.
fn append_seek(
    text: &mut Bytes,
    schema: &Schema,
    item: &BItem,
    index: u32,
    covering: bool,
    tests: Tests,
) -> Result<(), Memory>
    requires table { item.now.table < length schema.now.tables }
    requires index { index < length schema.now.indexes }
    requires equals { tests.equals ≤ length (meant.told_columns schema.now
        (slice_get schema.now.indexes index)) }
    requires bounds { (tests.low || tests.high) ≡ true
        → tests.equals < length (meant.told_columns schema.now
        (slice_get schema.now.indexes index)) }
    ensures { OnOk result (text.new ≡ text.old ++ meant.seek_line schema.now
        (meant.shown_item schema.now item.now) covering index tests.equals
        tests.low tests.high) }
{
    text.append(b"SEARCH ")?;
    append_item(text, schema, item)?;
    append_using(text, schema, index, covering)?;
    append_seek_tests(text, schema, index, tests)
}

/// The walk of an item by a path, without a line feed.
fn append_path(
    text: &mut Bytes,
    schema: &Schema,
    item: &BItem,
    path: &Path,
    covering: bool,
) -> Result<(), Memory>
    requires table { item.now.table < length schema.now.tables }
    requires fits { FitsTable (plain_schema schema.now) item.now.table (path_of path.now) }
    ensures { OnOk result (text.new ≡ text.old ++ meant.path_line schema.now
        (meant.shown_item schema.now item.now) covering (path_of path.now)) }
{
    match path {
        Path::TableScan => append_scan(text, schema, item),
        Path::RowidEq(_) => append_rowids(text, schema, item),
        Path::RowidRange(low, high) => {
            append_rowid_range(text, schema, item, low.is_some(), high.is_some())
        }
        Path::IndexScan { index, .. } => append_index_scan(text, schema, item, *index, covering),
        Path::IndexSeek {
            index,
            eqs,
            low,
            high,
            ..
        } => append_seek(
            text,
            schema,
            item,
            *index,
            covering,
            Tests {
                equals: eqs.parts.len(),
                low: low.is_some(),
                high: high.is_some(),
            },
        ),
        Path::Union(_) => text.append(b"MULTI-INDEX OR"),
    }
}

/// The branches of a union, each on a line of its own after two spaces. None is covering.
fn append_branches(
    text: &mut Bytes,
    schema: &Schema,
    item: &BItem,
    paths: &Paths,
) -> Result<(), Memory>
    requires table { item.now.table < length schema.now.tables }
    requires fit { AreSeeksOf (plain_schema schema.now) item.now.table (branches_of paths.now) }
    ensures { OnOk result (text.new ≡ text.old ++ meant.as_text (meant.branch_lines schema.now
        (meant.shown_item schema.now item.now) (branches_of paths.now))) }
{
    for branch in paths.branches {
        text.append(b"  ")?;
        append_path(text, schema, item, branch, false)?;
        text.push(b'\n')?;
    }
    Ok(())
}

/// The branches of a path that is a union.
fn append_below(text: &mut Bytes, schema: &Schema, item: &BItem, path: &Path) -> Result<(), Memory>
    requires table { item.now.table < length schema.now.tables }
    requires fits { FitsTable (plain_schema schema.now) item.now.table (path_of path.now) }
    ensures { OnOk result (text.new ≡ text.old ++ meant.as_text (meant.lines_below schema.now
        (meant.shown_item schema.now item.now) (path_of path.now))) }
{
    match path {
        Path::Union(paths) => append_branches(text, schema, item, paths),
        _ => Ok(()),
    }
}

/// Whether the path's index has all columns that are needed.
fn is_covering(path: &Path) -> bool
    ensures { result ≡ covers path.now }
{
    match path {
        Path::IndexScan { covering, .. } => *covering,
        Path::IndexSeek { covering, .. } => *covering,
        _ => false,
    }
}

/// The lines of an item's walk by a path.
fn append_walk(text: &mut Bytes, schema: &Schema, item: &BItem, path: &Path) -> Result<(), Memory>
    requires table { item.now.table < length schema.now.tables }
    requires fits { FitsTable (plain_schema schema.now) item.now.table (path_of path.now) }
    ensures { OnOk result (text.new ≡ text.old ++ meant.as_text (meant.walk_lines schema.now
        (meant.shown_item schema.now item.now) item.now.left (covers path.now)
        (path_of path.now))) }
{
    append_path(text, schema, item, path, is_covering(path))?;
    if item.left {
        text.append(b" LEFT-JOIN")?;
    }
    text.push(b'\n')?;
    append_below(text, schema, item, path)
}

/// The lines of a loop.
fn append_loop(text: &mut Bytes, schema: &Schema, bound: &Bound, step: &Loop) -> Result<(), Memory>
    requires tables { AllByRecursion (λ i. i.table < length schema.now.tables)
        (bound_of bound.now).items }
    requires item { step.now.item < length (bound_of bound.now).items }
    requires fits { PathFits (plain_schema schema.now) (bound_of bound.now) step.now.item
        (path_of step.now.path.now) }
    ensures { OnOk result (text.new ≡ text.old ++ meant.as_text (meant.loop_lines schema.now
        (meant.aliases_of bound.now.items.now) (bound_of bound.now) (covers step.now.path.now)
        (loop_of step.now))) }
{
    append_walk(text, schema, &bound.items[step.item as usize], step.path)
}

/// The line of a sort, where there is one.
fn append_sort(text: &mut Bytes, sort: bool) -> Result<(), Memory>
    ensures { OnOk result (text.new ≡ text.old ++ meant.as_text (meant.sort_lines sort)) }
{
    if sort {
        text.append(b"USE TEMP B-TREE FOR ORDER BY\n")?;
    }
    Ok(())
}

/// The lines of a plan, each with its line feed.
pub fn plan_text(alloc: Global, schema: &Schema, plan: &Plan) -> Result<Bytes, Memory>
    requires { meant.HasText schema.now (plan_of plan.now) }
    ensures { IfOk result (λ text. text
        ≡ meant.plan_lines schema.now (meant.aliases_of plan.now.bound.now.items.now)
        (covering_of plan.now) (plan_of plan.now)) }
{
    let mut text = Bytes::new(alloc);
    for step in plan.loops {
        append_loop(&mut text, schema, plan.bound, step)?;
    }
    append_sort(&mut text, plan.sort)?;
    Ok(text)
}
