//! The scan of a table, as a plan.
ghost use Rattle.std.specs.Prelude.{◌≡◌, ◌∷◌, [], false, IfOk};
ghost use Rattle.sql_bound.specs.Statements.{bound_of};
ghost use Rattle.plan_form.specs.Plans.{plan_of, covering_of};
ghost use Rattle.plan_form.specs.Scans.{table_scan, TableScansMean};

use crate::{Loop, Path, Plan};
use bumpalo::Bump;
use sql_bound::Bound;
use sql_tree::{place, place_slice};
use sql_value::Memory;

/// The plan that scans the first table of a statement, testing each conjunct on each row.
pub fn scan_plan<'p>(arena: &'p Bump, bound: &'p Bound<'p>) -> Result<Plan<'p>, Memory>
    ensures plan { IfOk result (λ plan. plan_of plan ≡ table_scan (bound_of bound.now)) }
    ensures bound { IfOk result (λ plan. plan.bound.now ≡ bound.now) }
    ensures covering { IfOk result (λ plan. covering_of plan ≡ false ∷ []) }
{
    let scan = Loop {
        item: 0,
        path: place(arena, Path::TableScan)?,
        reverse: false,
        consumed: &[],
    };
    Ok(Plan {
        bound,
        loops: place_slice(arena, &[scan])?,
        sort: false,
    })
}

/// A law: where a statement has one table and no ORDER BY, the scan of the table gives, on every
/// database of the schema and for all parameters, the statement's rows.
pub fn table_scans_mean()
    ensures { TableScansMean }
{}
