//! The keys of paths, evaluated: what a seek takes.
ghost use Rattle.std.specs.Prelude.{◌≡◌, [], ◌∷◌, None, map, option_map, IfOk};
ghost use Rattle.std.specs.List.{AllByRecursion};
ghost use Rattle.sql_meaning.specs.Fitting.{edge_keys, part_keys};
ghost use Rattle.sql_meaning.specs.Paths as meant;
ghost use Rattle.sql_value.specs.View.{plain_value};
ghost use Rattle.schema_model.specs.PlainSchemas.{plain_database};
ghost use Rattle.sql_bound.specs.Statements.{key_expr_of, key_exprs_of};
ghost use Rattle.sql_eval.specs.Environments.{GivesRows, assignment_of, params_of};
ghost use Rattle.path_walks.specs.Parts.{plain_part};
ghost use Rattle.plan_form.specs.Paths.{edge_of, part_of, parts_of, path_of};
ghost use Rattle.plan_form.specs.Seeks.{AllGive, FormGives, keys_form, owned_end};

use crate::path::{Edge, EqPart, EqParts, Path};
use path_walks::{End, Part};
use sql_bound::{KeyExpr, Keys};
use sql_eval::{Env, eval};
use sql_value::{Memory, Value, Values, convert};
use std::alloc::Global;

/// The value of a key, under its conversion.
fn key_value(alloc: Global, key: &KeyExpr, env: &Env) -> Result<Value, Memory>
    requires { GivesRows env.now (key_expr_of key.now).expr }
    ensures { IfOk result (λ value. plain_value value
        ≡ meant.key_value (assignment_of env.now) (params_of env.now) (key_expr_of key.now)) }
{
    let value = eval(alloc, key.expr, env)?;
    let Some(affinity) = key.conv else {
        return Ok(value);
    };
    let converted = convert(alloc, affinity, value)?;
    Ok(converted)
}

fn key_values(alloc: Global, keys: &Keys, env: &Env) -> Result<Values, Memory>
    requires { AllGive (plain_database env.now.tables.now) env.now.places.now
        (key_exprs_of keys.now) }
    ensures { IfOk result (λ values. map plain_value values
        ≡ map (meant.key_value (assignment_of env.now) (params_of env.now))
        (key_exprs_of keys.now)) }
{
    let mut values = Values::new(alloc);
    for key in keys.keys {
        let value = key_value(alloc, key, env)?;
        values.push(value)?;
    }
    Ok(values)
}

fn part_value(alloc: Global, part: &EqPart, env: &Env) -> Result<Part, Memory>
    requires { AllGive (plain_database env.now.tables.now) env.now.places.now
        (part_keys (part_of part.now)) }
    ensures { IfOk result (λ value. plain_part value
        ≡ meant.part_value (assignment_of env.now) (params_of env.now) (part_of part.now)) }
{
    match part {
        EqPart::One(key) => {
            let value = key_value(alloc, key, env)?;
            Ok(Part::One(value))
        }
        EqPart::Many(keys) => {
            let values = key_values(alloc, keys, env)?;
            Ok(Part::Many(values))
        }
        EqPart::Null => Ok(Part::Null),
    }
}

fn part_values(alloc: Global, eqs: &EqParts, env: &Env) -> Result<Vec<Part>, Memory>
    requires { AllByRecursion (λ part. AllGive (plain_database env.now.tables.now) env.now.places.now
        (part_keys part)) (parts_of eqs.now) }
    ensures { IfOk result (λ values. map plain_part values.items
        ≡ map (meant.part_value (assignment_of env.now) (params_of env.now))
        (parts_of eqs.now)) }
{
    let mut values = Vec::new(alloc);
    for part in eqs.parts {
        let value = part_value(alloc, part, env)?;
        values.push(value)?;
    }
    Ok(values)
}

/// The one part of a rowid's equality.
fn rowid_part(alloc: Global, part: &EqPart, env: &Env) -> Result<Vec<Part>, Memory>
    requires { AllGive (plain_database env.now.tables.now) env.now.places.now
        (part_keys (part_of part.now)) }
    ensures { IfOk result (λ values. map plain_part values.items
        ≡ meant.part_value (assignment_of env.now) (params_of env.now) (part_of part.now) ∷ []) }
{
    let mut values = Vec::new(alloc);
    let value = part_value(alloc, part, env)?;
    values.push(value)?;
    Ok(values)
}

fn end_value(alloc: Global, edge: &Option<Edge>, env: &Env) -> Result<Option<End>, Memory>
    requires { AllGive (plain_database env.now.tables.now) env.now.places.now
        (edge_keys (option_map edge_of edge.now)) }
    ensures { IfOk result (λ end. owned_end end
        ≡ meant.end_value (assignment_of env.now) (params_of env.now)
        (option_map edge_of edge.now)) }
{
    match edge {
        Some(edge) => {
            let key = key_value(alloc, &edge.key, env)?;
            Ok(Some(End {
                key,
                inclusive: edge.inclusive,
            }))
        }
        None => Ok(None),
    }
}

/// What a path seeks by, its keys evaluated.
#[derive(Drop)]
pub(crate) struct SeekValues {
    pub parts: Vec<Part>,
    pub low: Option<End>,
    pub high: Option<End>,
}

/// What a scan seeks by.
fn nothing(alloc: Global) -> SeekValues
    ensures parts { result.parts.items ≡ [] }
    ensures low { result.low ≡ None }
    ensures high { result.high ≡ None }
{
    SeekValues {
        parts: Vec::new(alloc),
        low: None,
        high: None,
    }
}

/// What a path seeks by where each item has the row at its place. A scan and a union seek nothing.
#[tactic(auto, using(crate::proofs::PathViews::seen_paths))]
pub(crate) fn seek_values(alloc: Global, path: &Path, env: &Env) -> Result<SeekValues, Memory>
    requires { FormGives (plain_database env.now.tables.now) env.now.places.now
        (keys_form (path_of path.now)) }
    ensures parts { IfOk result (λ values. map plain_part values.parts.items
        ≡ map (meant.part_value (assignment_of env.now) (params_of env.now))
        (keys_form (path_of path.now)).eqs) }
    ensures low { IfOk result (λ values. owned_end values.low
        ≡ meant.end_value (assignment_of env.now) (params_of env.now)
        (keys_form (path_of path.now)).low) }
    ensures high { IfOk result (λ values. owned_end values.high
        ≡ meant.end_value (assignment_of env.now) (params_of env.now)
        (keys_form (path_of path.now)).high) }
{
    match path {
        Path::TableScan => Ok(nothing(alloc)),
        Path::IndexScan { .. } => Ok(nothing(alloc)),
        Path::Union(_) => Ok(nothing(alloc)),
        Path::RowidEq(part) => {
            let parts = rowid_part(alloc, part, env)?;
            Ok(SeekValues {
                parts,
                low: None,
                high: None,
            })
        }
        Path::RowidRange(first, last) => {
            let low = end_value(alloc, first, env)?;
            let high = end_value(alloc, last, env)?;
            Ok(SeekValues {
                parts: Vec::new(alloc),
                low,
                high,
            })
        }
        Path::IndexSeek {
            eqs,
            low: first,
            high: last,
            ..
        } => {
            let parts = part_values(alloc, eqs, env)?;
            let low = end_value(alloc, first, env)?;
            let high = end_value(alloc, last, env)?;
            Ok(SeekValues { parts, low, high })
        }
    }
}
