//! Laws of conditions (SQLite's lang_expr and optoverview), each on a function that does nothing.

ghost use Rattle.sql_meaning.specs.CellLaws.{ValuesDependOnCells};
ghost use Rattle.sql_meaning.specs.ConditionLaws.{ConjunctsSayTheirConditions};
ghost use Rattle.sql_meaning.specs.ConditionLaws.{ValuesDependOnNamedItems};

/// An expression has the same value under assignments that agree on the items that it names. So a
/// conjunct may be tested as soon as these are placed.
pub fn values_depend_on_named_items()
    ensures { ValuesDependOnNamedItems }
{}

/// Nor does the value depend on how an assignment holds the values of these items' columns: a
/// missing row is as good as one of NULLs.
pub fn values_depend_on_cells()
    ensures { ValuesDependOnCells }
{}

/// The ON and WHERE conditions hold exactly where each of their conjuncts does: for the common
/// ones, and for those of each LEFT JOIN.
pub fn conjuncts_say_their_conditions()
    ensures { ConjunctsSayTheirConditions }
{}
