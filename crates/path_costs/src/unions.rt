//! What a union costs to run, and any path.
ghost use Rattle.std.specs.Prelude.{◌≡◌, false, map};
ghost use Rattle.plan_choice.specs.Costs as meant;
ghost use Rattle.plan_choice.specs.CostLaws.{ArePlain, IsFlat, SizeWithin};
ghost use Rattle.sql_meaning.specs.Paths as plain;
ghost use Rattle.plan_form.specs.Paths.{branches_of, path_of, paths};
ghost use Rattle.plan_form.specs.Plans.{covers};
ghost use Rattle.path_costs.specs.Views.{IsTold, told_size};

use crate::Size;
use crate::paths::{plain_size, table_rows};
use plan_form::{Path, Paths};
use stat_figures::{Figures, log_add};

/// The size of two paths that run one after the other.
fn joined(a: Size, b: Size) -> Size
    requires a { IsTold 100709 a }
    requires b { IsTold 100709 b }
    ensures { (x y : meant.Size) → a ≡ told_size x → b ≡ told_size y
        → result ≡ told_size (meant.join_sizes x y) }
{
    Size {
        run: log_add(a.run, b.run),
        entries: log_add(a.entries, b.entries),
    }
}

/// The size of some branches that run in turn.
fn joined_all(figures: &Figures, table: u32, first: &Path, further: &[&Path]) -> Size
    requires first { plain.is_union (path_of first.now) ≡ false }
    requires further { ArePlain (paths (map (λ branch. path_of branch.now) further.now)) }
    ensures { result ≡ told_size (meant.sizes_from figures.now table
        (meant.size_of figures.now table false (path_of first.now))
        (paths (map (λ branch. path_of branch.now) further.now))) }
{
    let mut size = plain_size(figures, table, false, first);
    for branch in further {
        size = joined(size, plain_size(figures, table, false, branch));
    }
    size
}

/// The size of a union, which gives no row twice. None of its branches is covering.
fn union_size(figures: &Figures, table: u32, union: &Paths) -> Size
    requires { ArePlain (branches_of union.now) }
    ensures told { result ≡ told_size (meant.size_of figures.now table false
        (plain.Union (branches_of union.now))) }
    ensures small { SizeWithin 100709 (meant.size_of figures.now table false
        (plain.Union (branches_of union.now))) }
{
    let rows = table_rows(figures, table);
    let [first, further @ ..] = union.branches else {
        return Size { run: 0, entries: 0 };
    };
    let size = joined_all(figures, table, first, further);
    Size {
        run: size.run,
        entries: (rows as i32).min(size.entries),
    }
}

/// Whether the path's index has all columns that are needed.
fn is_covering(path: &Path) -> bool
    ensures { result ≡ covers path.now }
{
    match path {
        Path::IndexScan { covering, .. } => *covering,
        Path::IndexSeek { covering, .. } => *covering,
        _ => false,
    }
}

/// What a path to a table's rows costs to run, and how many entries it looks at. A union has the
/// size of its branches together, but no more entries than the table has rows. Takes no memory.
#[tactic(auto, using(plan_form::proofs::PathViews::seen_paths))]
pub fn path_size(figures: &Figures, table: u32, path: &Path) -> Size
    requires { IsFlat (path_of path.now) }
    ensures told { result ≡ told_size (meant.size_of figures.now table (covers path.now)
        (path_of path.now)) }
    ensures small { SizeWithin 100709 (meant.size_of figures.now table (covers path.now)
        (path_of path.now)) }
{
    match path {
        Path::Union(union) => union_size(figures, table, union),
        _ => plain_size(figures, table, is_covering(path), path),
    }
}
