//! What a statement answers for its rows.
ghost use Rattle.std.specs.Prelude.{◌≡◌, [], ◌∷◌, map, IfOk};
ghost use Rattle.std.specs.List.{AllByRecursion};
ghost use Rattle.sql_meaning.specs.Evaluation.{ev};
ghost use Rattle.sql_meaning.specs.Expressions as plain_exprs;
ghost use Rattle.sql_meaning.specs.Statements as meant;
ghost use Rattle.sql_value.specs.View.{plain_value};
ghost use Rattle.schema_model.specs.PlainSchemas.{plain_database};
ghost use Rattle.sql_bound.specs.Statements.{bound_of};
ghost use Rattle.sql_eval.specs.Environments.{GivesRows, assignment_of, params_of, placed};
ghost use Rattle.bound_rows.specs.Answers.{rows_of_answer};
ghost use Rattle.bound_rows.specs.Places.{AllFit, FitPlaces, assignments, lent};
ghost use Rattle.bound_rows.specs.Readable.{IsReadable, IsReadableBound, lent_exprs};

use crate::places::Source;
use sql_bound::{BExpr, Bound};
use sql_eval::{Env, Place, eval};
use sql_value::{Items, Memory, Values};
use std::alloc::Global;

/// A list of values for each row.
pub type Answer = Items<Values>;

/// The value of each expression.
fn values_of(alloc: Global, exprs: &[&BExpr], env: &Env) -> Result<Values, Memory>
    requires { AllByRecursion (GivesRows env.now) (lent_exprs exprs.now) }
    ensures { IfOk result (λ values. map plain_value values
        ≡ map (ev (assignment_of env.now) (params_of env.now)) (lent_exprs exprs.now)) }
{
    let mut values = Values::new(alloc);
    for expr in exprs {
        let value = eval(alloc, expr, env)?;
        values.push(value)?;
    }
    Ok(values)
}

/// The rowid of the first item's row: which row an UPDATE or DELETE changes.
fn changed_rowid(alloc: Global, env: &Env) -> Result<Values, Memory>
    requires { GivesRows env.now (plain_exprs.Rowid 0) }
    ensures { IfOk result (λ values. map plain_value values
        ≡ map (ev (assignment_of env.now) (params_of env.now)) (plain_exprs.Rowid 0 ∷ [])) }
{
    let rowid = BExpr::Rowid { item: 0 };
    let mut values = Values::new(alloc);
    let value = eval(alloc, &rowid, env)?;
    values.push(value)?;
    Ok(values)
}

/// What the statement answers where each item has the row at its place.
fn image(alloc: Global, source: &Source, bound: &Bound, places: &[Place]) -> Result<Values, Memory>
    requires readable { IsReadableBound (plain_database source.now.tables.now) (bound_of bound.now) }
    requires rowid { IsReadable (plain_database source.now.tables.now) (bound_of bound.now).items
        (plain_exprs.Rowid 0) }
    requires fit { FitPlaces (plain_database source.now.tables.now) (bound_of bound.now).items
        places.now }
    ensures { IfOk result (λ values. map plain_value values
        ≡ meant.image (bound_of bound.now) (map plain_value source.now.params.now)
        (placed (plain_database source.now.tables.now) places.now)) }
{
    let env = Env {
        tables: source.tables,
        places,
        params: source.params,
    };
    if bound.rowids {
        let rowid = changed_rowid(alloc, &env)?;
        return Ok(rowid);
    }
    let values = values_of(alloc, bound.results, &env)?;
    Ok(values)
}

/// What the statement answers for each row.
pub fn images(
    alloc: Global,
    source: &Source,
    bound: &Bound,
    rows: &[&[Place]],
) -> Result<Answer, Memory>
    requires readable { IsReadableBound (plain_database source.now.tables.now) (bound_of bound.now) }
    requires rowid { IsReadable (plain_database source.now.tables.now) (bound_of bound.now).items
        (plain_exprs.Rowid 0) }
    requires fit { AllFit (plain_database source.now.tables.now) (bound_of bound.now).items
        (lent rows.now) }
    ensures { IfOk result (λ answer. rows_of_answer answer
        ≡ map (meant.image (bound_of bound.now) (map plain_value source.now.params.now))
        (assignments (plain_database source.now.tables.now) (lent rows.now))) }
{
    let mut answer = Answer::new(alloc);
    for places in rows {
        let values = image(alloc, source, bound, places)?;
        answer.push(values)?;
    }
    Ok(answer)
}
