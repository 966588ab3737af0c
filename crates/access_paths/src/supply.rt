//! The terms that a seek may take, column by column.
ghost use Rattle.std.specs.Prelude.{◌≡◌, [], map, option_map, IfSome, nat_lt};
ghost use Rattle.sql_meaning.specs.Choices as meant;
ghost use Rattle.sql_meaning.specs.Orders.{same_site};
ghost use Rattle.sql_meaning.specs.TermLists as meant_terms;
ghost use Rattle.sql_value.specs.View.{plain_collation};
ghost use Rattle.sql_bound.specs.Columns.{site_of};
ghost use Rattle.where_terms.specs.Views.{column_terms_of};
ghost use Rattle.where_terms.specs.Marked.{AreMarked};
ghost use Rattle.plan_choice.specs.Offers.{without_bounds as meant_without_bounds};
ghost use Rattle.access_paths.specs.Placed.{items_in};
ghost use Rattle.access_paths.specs.Fitting.{fits_site};
ghost use Rattle.access_paths.specs.Supplies.{found_for, supplied};
ghost use Rattle.access_paths.specs.Supplies.{AreReady, lent_term};

use crate::fitting::{SeekColumn, first_fitting};
use where_terms::{ColumnTerms, Term};

/// What a seek may take once some items are placed.
#[derive(Clone, Copy)]
pub(crate) struct Supply<'p> {
    /// The columns that have a term, the rowid first and then by number.
    pub columns: &'p [ColumnTerms<'p>],
    pub placed: u64,
    /// The column of the table that is its rowid.
    pub alias: Option<u32>,
    /// Whether bounds are left out.
    pub unordered: bool,
}

fn is_same_column(left: Option<u32>, right: Option<u32>) -> bool
    ensures { result ≡ same_site (site_of left) (site_of right) }
{
    match (left, right) {
        (None, None) => true,
        (Some(left), Some(right)) => left == right,
        (None, Some(_)) => false,
        (Some(_), None) => false,
    }
}

/// The place of a column, the rowid first.
fn site_number(column: Option<u32>) -> u64
    ensures { result ≡ meant_terms.site_number (site_of column) }
{
    match column {
        Some(column) => column as u64 + 1,
        None => 0,
    }
}

fn is_before(terms: &ColumnTerms, number: u64) -> bool
    ensures { result ≡ nat_lt (meant_terms.site_number (site_of terms.now.column)) number }
{
    site_number(terms.column) < number
}

fn no_terms<'p>(column: Option<u32>) -> ColumnTerms<'p>
    ensures terms { column_terms_of result ≡ meant.terms_at (site_of column) [] }
    ensures marked { AreMarked result }
{
    ColumnTerms {
        column,
        equals: &[],
        lows: &[],
        highs: &[],
    }
}

fn found_terms<'p>(found: Option<&ColumnTerms<'p>>, column: Option<u32>) -> ColumnTerms<'p>
    requires { IfSome found (λ terms. AreMarked terms.now) }
    ensures terms { column_terms_of result ≡ found_for (site_of column)
        (option_map (λ terms. column_terms_of terms.now) found.entry) }
    ensures marked { AreMarked result }
{
    match found {
        Some(terms) => {
            if is_same_column(terms.column, column) {
                *terms
            } else {
                no_terms(column)
            }
        }
        None => no_terms(column),
    }
}

/// The terms of a column, found by halving; none where it isn't there.
fn terms_of_column<'p>(columns: &'p [ColumnTerms<'p>], column: Option<u32>) -> ColumnTerms<'p>
    requires { AreReady columns.now }
    ensures terms { column_terms_of result
        ≡ meant.terms_at (site_of column) (map column_terms_of columns.now) }
    ensures marked { AreMarked result }
{
    let number = site_number(column);
    let place = columns.partition_point(|terms| is_before(terms, number));
    found_terms(columns.get(place), column)
}

fn without_bounds<'p>(terms: ColumnTerms<'p>) -> ColumnTerms<'p>
    requires { AreMarked terms }
    ensures terms { column_terms_of result ≡ meant_without_bounds (column_terms_of terms.entry) }
    ensures marked { AreMarked result }
{
    ColumnTerms {
        column: terms.column,
        equals: terms.equals,
        lows: &[],
        highs: &[],
    }
}

/// The terms of a column that may be taken.
fn terms_at<'p>(supply: &Supply<'p>, column: Option<u32>) -> ColumnTerms<'p>
    requires { AreReady supply.now.columns.now }
    ensures terms { column_terms_of result ≡ meant.terms_at (site_of column) (supplied supply.now) }
    ensures marked { AreMarked result }
{
    let terms = terms_of_column(supply.columns, column);
    if supply.unordered {
        without_bounds(terms)
    } else {
        terms
    }
}

/// The first equality term that fits the column.
pub(crate) fn equal_term<'p>(supply: &Supply<'p>, column: SeekColumn) -> Option<&'p Term<'p>>
    requires { AreReady supply.now.columns.now }
    ensures { lent_term result ≡ meant.first_that
        (fits_site (items_in supply.now.placed) (site_of column.column)
        (plain_collation column.coll))
        (meant.terms_at (site_of column.column) (supplied supply.now)).equals }
{
    first_fitting(
        terms_at(supply, column.column).equals,
        supply.placed,
        column,
    )
}

/// The bounds of a column.
#[derive(Clone, Copy)]
pub(crate) struct Bounds<'p> {
    pub low: Option<&'p Term<'p>>,
    pub high: Option<&'p Term<'p>>,
}

/// The first bounds that fit the column.
pub(crate) fn bounds_of<'p>(supply: &Supply<'p>, column: SeekColumn) -> Bounds<'p>
    requires { AreReady supply.now.columns.now }
    ensures low { lent_term result.low ≡ meant.first_that
        (fits_site (items_in supply.now.placed) (site_of column.column)
        (plain_collation column.coll))
        (meant.terms_at (site_of column.column) (supplied supply.now)).lows }
    ensures high { lent_term result.high ≡ meant.first_that
        (fits_site (items_in supply.now.placed) (site_of column.column)
        (plain_collation column.coll))
        (meant.terms_at (site_of column.column) (supplied supply.now)).highs }
{
    let terms = terms_at(supply, column.column);
    Bounds {
        low: first_fitting(terms.lows, supply.placed, column),
        high: first_fitting(terms.highs, supply.placed, column),
    }
}
