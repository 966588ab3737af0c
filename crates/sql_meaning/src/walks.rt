//! Laws of paths and their walks (SQLite's eqp, queryplanner and fileformat2), each on a function
//! that does nothing. They hold on every database of the schema, its indexes kept true; a placed
//! item may have the missing row.

ghost use Rattle.sql_meaning.specs.CellLaws.{WalksDependOnCells};
ghost use Rattle.sql_meaning.specs.PathLaws.{ConsumedConjunctsHold, IndexListsAreSorted};
ghost use Rattle.sql_meaning.specs.PathLaws.{UnionsHaveEachRowOnce, UnionsMissNoRow};
ghost use Rattle.sql_meaning.specs.PathLaws.{WalksAreFilters};

/// The list of an index has each row of its table once, in the order of the index's columns.
pub fn index_lists_are_sorted()
    ensures { IndexListsAreSorted }
{}

/// The walk of an offered path that is no union is the filter of the path's list by all terms that
/// the path uses, in the order of that list. A scan uses none, so it has every row. On each row of
/// the walk each conjunct holds that the path consumes, so it need not be tested.
pub fn walks_are_filters()
    ensures filters { WalksAreFilters }
    ensures consumed { ConsumedConjunctsHold }
{}

/// The walk of an offered union has, each once, the rows on which the terms of some branch hold.
/// And it has every row on which its OR holds, for whatever rows of the items that aren't placed
/// yet.
pub fn unions_are_exact()
    ensures each_once { UnionsHaveEachRowOnce }
    ensures none_missed { UnionsMissNoRow }
{}

/// The walk of a path depends on the values of columns alone, however an assignment holds these.
pub fn walks_depend_on_cells()
    ensures { WalksDependOnCells }
{}
