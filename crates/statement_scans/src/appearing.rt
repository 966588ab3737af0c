//! The terms of a list of conjuncts as they come: direct ones in the order of the conjuncts, then
//! those that no conjunct gives by itself, by column.
ghost use Rattle.std.specs.Prelude.{◌≡◌, ◌++◌, IfOk, OnOk};
ghost use Rattle.std.specs.List.{filter};
ghost use Rattle.statement_scans.specs.Asked as meant;
ghost use Rattle.statement_scans.specs.Asked.{is_derived, derived_in};

use sql_value::{Memory, push};
use where_terms::{ColumnTerms, Term};

/// Appends those of a list that have no conjunct.
fn push_derived<'p>(terms: &mut Vec<Term<'p>>, list: &[Term<'p>]) -> Result<(), Memory>
    ensures { OnOk result (terms.new.items ≡ terms.old.items ++ filter is_derived list.now) }
{
    for term in list {
        if term.conjunct.is_none() {
            push(terms, *term)?;
        }
    }
    Ok(())
}

fn push_derived_of<'p>(terms: &mut Vec<Term<'p>>, column: &ColumnTerms<'p>) -> Result<(), Memory>
    ensures { OnOk result (terms.new.items ≡ terms.old.items ++ derived_in column.now) }
{
    push_derived(terms, column.equals)?;
    push_derived(terms, column.lows)?;
    push_derived(terms, column.highs)
}

/// Direct terms with those behind them that have no conjunct.
pub(crate) fn appearing<'p>(
    mut direct: Vec<Term<'p>>,
    columns: &[ColumnTerms<'p>],
) -> Result<Vec<Term<'p>>, Memory>
    ensures { IfOk result (λ terms.
        terms.items ≡ meant.appearing direct.entry.items columns.now) }
{
    for column in columns {
        push_derived_of(&mut direct, column)?;
    }
    Ok(direct)
}
