//! Which term fits a column that a seek goes along.
ghost use Rattle.std.specs.Prelude.{◌≡◌};
ghost use Rattle.std.specs.List.{AllByRecursion};
ghost use Rattle.sql_meaning.specs.Choices as meant;
ghost use Rattle.sql_meaning.specs.OrderState.{column_site};
ghost use Rattle.sql_meaning.specs.Orders as orders;
ghost use Rattle.sql_value.specs.View.{plain_collation};
ghost use Rattle.schema_model.specs.PlainSchemas.{plain_index_column};
ghost use Rattle.sql_bound.specs.Columns.{site_of};
ghost use Rattle.where_terms.specs.Kinds.{term_kind_of};
ghost use Rattle.where_terms.specs.Views.{term_of};
ghost use Rattle.where_terms.specs.Marked.{IsMarked};
ghost use Rattle.access_paths.specs.Placed.{items_in};
ghost use Rattle.access_paths.specs.Fitting.{fits_site};
ghost use Rattle.access_paths.specs.Supplies.{lent_term};
ghost use Rattle.std.specs.Prelude.{map};

use crate::usable::is_usable;
use schema_model::IndexColumn;
use sql_value::Collation;
use where_terms::{Term, TermKind};

/// A column that a seek goes along; none is the rowid.
#[derive(Clone, Copy)]
pub(crate) struct SeekColumn {
    pub column: Option<u32>,
    pub coll: Collation,
}

/// The rowid, which compares as bytes.
pub(crate) const ROWID: SeekColumn = SeekColumn {
    column: None,
    coll: Collation::Binary,
};

/// A column of an index, or the rowid where the column is the alias of that.
pub(crate) fn seek_column(alias: Option<u32>, column: IndexColumn) -> SeekColumn
    ensures site { site_of result.column ≡ column_site alias (plain_index_column column).column }
    ensures collation { plain_collation result.coll ≡ (plain_index_column column).collation }
{
    SeekColumn {
        column: match alias {
            Some(alias) if alias == column.column => None,
            _ => Some(column.column),
        },
        coll: column.coll,
    }
}

fn is_same_collation(left: Collation, right: Collation) -> bool
    ensures { result ≡ orders.same_collation (plain_collation left) (plain_collation right) }
{
    match (left, right) {
        (Collation::Binary, Collation::Binary) => true,
        (Collation::Nocase, Collation::Nocase) => true,
        (Collation::Rtrim, Collation::Rtrim) => true,
        _ => false,
    }
}

/// Whether a term of this kind may be used for the column; `same` says that the collations agree.
fn suits(column: Option<u32>, kind: &TermKind, same: bool) -> bool
    ensures { result ≡ meant.suits (site_of column) (term_kind_of kind.now) same }
{
    match column {
        None => true,
        Some(_) => match kind {
            TermKind::IsNull => true,
            TermKind::Equal(_) => same,
            TermKind::OneOf(_) => same,
            TermKind::Low(..) => same,
            TermKind::High(..) => same,
        },
    }
}

fn fits(term: &Term, placed: u64, column: SeekColumn) -> bool
    requires { IsMarked term.now }
    ensures { result ≡ fits_site (items_in placed) (site_of column.column)
        (plain_collation column.coll) (term_of term.now) }
{
    is_usable(term, placed)
        && suits(
            column.column,
            &term.kind,
            is_same_collation(term.coll, column.coll),
        )
}

/// The first of these terms that fits the column.
pub(crate) fn first_fitting<'p>(
    terms: &'p [Term<'p>],
    placed: u64,
    column: SeekColumn,
) -> Option<&'p Term<'p>>
    requires { AllByRecursion IsMarked terms.now }
    ensures { lent_term result ≡ meant.first_that
        (fits_site (items_in placed) (site_of column.column) (plain_collation column.coll))
        (map term_of terms.now) }
{
    for term in terms {
        if fits(term, placed, column) {
            return Some(term);
        }
    }
    None
}
