//! Binding a statement.
ghost use Rattle.std.specs.Prelude.{◌≡◌, ◌<◌, ◌≤◌, length, map, option_map, None, Some};
ghost use Rattle.std.specs.Prelude.{false, IfOk, OnOk, IfErr};
ghost use Rattle.sql_tree.specs.Statements.{statement_tree};
ghost use Rattle.schema_model.specs.PlainSchemas.{plain_schema};
ghost use Rattle.sql_bound.specs.Fits.{Fits, most_items};
ghost use Rattle.sql_bound.specs.Statements.{bound_of, needs_of};
ghost use Rattle.sql_names.specs.Faults.{Answers};
ghost use Rattle.sql_bind.specs.Clauses as clauses;
ghost use Rattle.sql_bind.specs.Sources.{begins_left};
ghost use Rattle.sql_bind.specs.Views.{named_of};
ghost use Rattle.sql_bind.specs.Binding.{first_failure, bound_statement, needs_statement};
ghost use Rattle.sql_bind.specs.Binding.{checks, later_checks};
ghost use Rattle.sql_bind.specs.Parts.{aliases_of, whole, whole_in, whole_statement};

use crate::clauses::{entries_of, filter_of, order_keys_of, sets_of, sources_of};
use crate::conditions::{bind_condition, bind_ons, check_sets};
use crate::keys::bind_keys;
use crate::parts::{Parts, place_bound};
use crate::results::bind_results;
use crate::sources::{NamedItem, find_items, scope_of};
use bumpalo::Bump;
use schema_model::Schema;
use sql_bound::{Bound, MOST_CONJUNCTS, MOST_ITEMS};
use sql_names::{BindFault, Scope};
use sql_tree::Stmt;
use std::alloc::Global;

/// What stands behind FROM, bound in the order of its checks.
fn bind_in<'a>(
    alloc: Global,
    arena: &'a Bump,
    scope: &Scope,
    list: &[NamedItem<'a>],
    stmt: &Stmt<'a>,
) -> Result<Bound<'a>, BindFault>
    requires some { 0 < length scope.now.items }
    requires few { length (clauses.sources_of (statement_tree stmt.now)) ≤ most_items }
    requires items { scope.now.items ≡ map (λ n. n.item) (map named_of list.now) }
    ensures answer { Answers whole result (later_checks scope.now (statement_tree stmt.now))
        (whole_in scope.now (statement_tree stmt.now)) }
    ensures aliases { IfOk result (λ b. aliases_of b ≡ map (λ n. n.alias) (map named_of list.now)) }
{
    let results = bind_results(alloc, arena, scope, entries_of(stmt))?;
    let mut terms = bind_ons(alloc, arena, scope, sources_of(stmt))?;
    check_sets(alloc, arena, scope, sets_of(stmt))?;
    bind_condition(alloc, arena, scope, &mut terms, None, filter_of(stmt))?;
    let keys = bind_keys(alloc, arena, scope, results.as_slice(), order_keys_of(stmt))?;
    if terms.as_slice().len() > MOST_CONJUNCTS {
        return Err(BindFault::TooManyTerms);
    }
    let parts = Parts {
        results: results.as_slice(),
        terms: terms.as_slice(),
        keys: keys.as_slice(),
    };
    Ok(place_bound(alloc, arena, scope, list, stmt, &parts)?)
}

fn bind_checked<'a>(
    alloc: Global,
    arena: &'a Bump,
    schema: &Schema,
    stmt: &Stmt<'a>,
) -> Result<Bound<'a>, BindFault>
    requires { 0 < length (clauses.sources_of (statement_tree stmt.now)) }
    ensures answer { Answers whole result (checks schema.now (statement_tree stmt.now))
        (whole_statement schema.now (statement_tree stmt.now)) }
    ensures aliases { IfOk result (λ b. aliases_of b
        ≡ clauses.aliases_statement (statement_tree stmt.now)) }
{
    let sources = sources_of(stmt);
    if sources.len() > MOST_ITEMS {
        return Err(BindFault::TooManyTables);
    }
    let list = find_items(alloc, schema, sources)?;
    let scope = scope_of(alloc, schema, list.as_slice())?;
    bind_in(alloc, arena, &scope, list.as_slice(), stmt)
}

/// The statement with its names bound (<https://sqlite.org/lang_select.html>). Each fault but
/// `Memory` comes where it is that of the first check which fails: the number of tables in FROM,
/// each table, each name in FROM, then each name, collation and position of the result list, ON,
/// SET, WHERE and ORDER BY, and last the number of conditions joined by AND. In the ON condition of
/// a LEFT JOIN a name is checked, directly after it is found, to denote no item to the right.
pub fn bind<'a>(
    alloc: Global,
    arena: &'a Bump,
    schema: &Schema,
    stmt: &Stmt<'a>,
) -> Result<Bound<'a>, BindFault>
    requires source { 0 < length (clauses.sources_of (statement_tree stmt.now)) }
    requires first { begins_left (clauses.sources_of (statement_tree stmt.now)) ≡ false }
    ensures bound { IfOk result (λ b.
        bound_of b ≡ bound_statement schema.now (statement_tree stmt.now)) }
    ensures needs { IfOk result (λ b.
        needs_of b ≡ needs_statement schema.now (statement_tree stmt.now)) }
    ensures aliases { IfOk result (λ b.
        map (λ item. option_map (λ alias. alias.now) item.alias) b.items.now
        ≡ clauses.aliases_statement (statement_tree stmt.now)) }
    ensures fits { IfOk result (λ b. Fits (plain_schema schema.now) (bound_of b) (needs_of b)) }
    ensures passed { OnOk result (first_failure schema.now (statement_tree stmt.now) ≡ None) }
    ensures refused { IfErr result (λ fault. (fault ≡ BindFault.Memory → ⊥)
        → first_failure schema.now (statement_tree stmt.now) ≡ Some fault) }
{
    bind_checked(alloc, arena, schema, stmt)
}
