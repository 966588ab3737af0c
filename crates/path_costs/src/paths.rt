//! What paths cost to run, and how many entries they look at.
ghost use Rattle.std.specs.Prelude.{◌≡◌, ◌≤◌, ◌+◌, ◌∷◌, [], false, cond, min, option_map, length};
ghost use Rattle.plan_choice.specs.Costs as meant;
ghost use Rattle.plan_choice.specs.CostLaws.{SizeWithin};
ghost use Rattle.plan_choice.specs.Figures as known;
ghost use Rattle.sql_meaning.specs.Paths as plain;
ghost use Rattle.plan_form.specs.Paths.{edge_of, part_of, parts_of, path_of};
ghost use Rattle.path_costs.specs.Views.{shape_of, told_size};

use crate::entries::{rowid_entries, rowid_seeks, seeks_of, within_bounds};
use crate::runs::sized;
use crate::{Shape, Size};
use plan_form::{Edge, EqPart, EqParts, Path, Paths};
use stat_figures::{Figures, log_add};

pub(crate) fn table_rows(figures: &Figures, table: u32) -> u32
    ensures told { result ≡ known.table_rows figures.now table }
    ensures small { result ≤ 1000 }
{
    figures.table_rows(table) as u32
}

fn index_rows(figures: &Figures, index: u32, columns: usize) -> u32
    ensures told { result ≡ known.index_rows figures.now index columns }
    ensures small { result ≤ 1000 }
{
    figures.index_rows(index, columns) as u32
}

fn scan_shape(covering: bool) -> Shape
    ensures { shape_of result ≡ cond covering meant.CoveringScan meant.PlainScan }
{
    if covering {
        Shape::CoveringScan
    } else {
        Shape::PlainScan
    }
}

fn seek_shape(covering: bool) -> Shape
    ensures { shape_of result ≡ cond covering meant.CoveringSeek meant.PlainSeek }
{
    if covering {
        Shape::CoveringSeek
    } else {
        Shape::PlainSeek
    }
}

fn rowid_size(rows: u32, part: &EqPart) -> Size
    ensures { result ≡ told_size (meant.sized meant.ByRowid rows
        (meant.rowid_entries rows (part_of part.now)) (meant.seeks_of (part_of part.now ∷ []))) }
{
    sized(
        Shape::Rowid,
        rows,
        rowid_entries(rows, part),
        rowid_seeks(part),
    )
}

fn range_size(rows: u32, low: &Option<Edge>, high: &Option<Edge>) -> Size
    requires { rows ≤ 1000 }
    ensures { result ≡ told_size (meant.sized meant.ByRowid rows
        (meant.within_bounds (option_map edge_of low.now) (option_map edge_of high.now) rows) 0) }
{
    sized(Shape::Rowid, rows, within_bounds(low, high, rows), 0)
}

/// The entries that agree with the equality parts, and are within the bounds of the next column.
fn index_entries(
    figures: &Figures,
    index: u32,
    eqs: &EqParts,
    low: &Option<Edge>,
    high: &Option<Edge>,
) -> u32
    ensures { result ≡ meant.within_bounds (option_map edge_of low.now)
        (option_map edge_of high.now) (known.index_rows figures.now index
        (length (parts_of eqs.now)) + meant.seeks_of (parts_of eqs.now)) }
{
    let agreeing = index_rows(figures, index, eqs.parts.len());
    within_bounds(low, high, agreeing + seeks_of(eqs))
}

fn seek_size(
    figures: &Figures,
    rows: u32,
    covering: bool,
    index: u32,
    eqs: &EqParts,
    low: &Option<Edge>,
    high: &Option<Edge>,
) -> Size
    requires { rows ≤ 1000 }
    ensures { result ≡ told_size (meant.sized
        (cond covering meant.CoveringSeek meant.PlainSeek) rows
        (min rows (meant.within_bounds (option_map edge_of low.now) (option_map edge_of high.now)
        (known.index_rows figures.now index (length (parts_of eqs.now))
        + meant.seeks_of (parts_of eqs.now)))) (meant.seeks_of (parts_of eqs.now))) }
{
    let entries = rows.min(index_entries(figures, index, eqs, low, high));
    sized(seek_shape(covering), rows, entries, seeks_of(eqs))
}

/// The size of a path that is no union, its index taken as covering or not, whatever the path says
/// of that.
#[tactic(auto, using(plan_form::proofs::PathViews::seen_paths))]
pub(crate) fn plain_size(figures: &Figures, table: u32, covering: bool, path: &Path) -> Size
    requires { plain.is_union (path_of path.now) ≡ false }
    ensures told { result ≡ told_size (meant.size_of figures.now table covering
        (path_of path.now)) }
    ensures small { SizeWithin 100649 (meant.size_of figures.now table covering
        (path_of path.now)) }
{
    let rows = table_rows(figures, table);
    match path {
        Path::TableScan => sized(Shape::TableScan, rows, rows, 0),
        Path::RowidEq(part) => rowid_size(rows, part),
        Path::RowidRange(low, high) => range_size(rows, low, high),
        Path::IndexScan { .. } => sized(scan_shape(covering), rows, rows, 0),
        Path::IndexSeek {
            index,
            eqs,
            low,
            high,
            ..
        } => seek_size(figures, rows, covering, *index, eqs, low, high),
        Path::Union(_) => Size { run: 0, entries: 0 },
    }
}
