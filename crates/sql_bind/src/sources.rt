//! FROM: the tables are looked up, and then their names.
ghost use Rattle.std.specs.Prelude.{◌<◌, ◌≤◌, ◌∷◌, [], length, map, flat_map, IfOk};
ghost use Rattle.std.specs.List.{AllByRecursion};
ghost use Rattle.sql_meaning.specs.Letters.{folded_bytes};
ghost use Rattle.sql_tree.specs.Statements.{source_tree};
ghost use Rattle.schema_model.specs.Schemas.{found_table};
ghost use Rattle.sql_bound.specs.Fits.{most_items};
ghost use Rattle.sql_names.specs.Faults.{Answers};
ghost use Rattle.sql_bind.specs.Sources as meant;
ghost use Rattle.sql_bind.specs.Sources.{table_fault, table_checks, name_checks, named_item};
ghost use Rattle.sql_bind.specs.Sources.{scope_from};
ghost use Rattle.sql_bind.specs.Views.{named_of};

use schema_model::{Found, Schema, find_table};
use sql_bound::BItem;
use sql_names::{BindFault, Scope};
use sql_tree::Source;
use sql_value::{Bytes, fold, push};
use std::alloc::Global;

/// An item of FROM, and the name that the other clauses know it by.
#[derive(Clone, Copy)]
pub(crate) struct NamedItem<'a> {
    pub name: &'a [u8],
    pub item: BItem<'a>,
}

/// The number of the table of a name.
fn table_number(alloc: Global, schema: &Schema, name: &[u8]) -> Result<u32, BindFault>
    ensures answer { Answers (λ n. n) result
        (table_fault name.now (found_table schema.now (folded_bytes name.now)) ∷ [])
        (meant.table_number (found_table schema.now (folded_bytes name.now))) }
    ensures there { IfOk result (λ n. n < length schema.now.tables) }
{
    let folded = fold(alloc, name)?;
    match find_table(schema, folded.as_slice()) {
        Found::Read(number) => Ok(number),
        Found::Unread => Err(BindFault::UnreadTable(Bytes::copy(alloc, name)?)),
        Found::Missing => Err(BindFault::NoSuchTable(Bytes::copy(alloc, name)?)),
    }
}

/// The item of a source.
fn find_item<'a>(
    alloc: Global,
    schema: &Schema,
    source: &Source<'a>,
) -> Result<NamedItem<'a>, BindFault>
    ensures answer { Answers named_of result
        (table_checks schema.now (source_tree source.now))
        (named_item schema.now (source_tree source.now)) }
    ensures there { IfOk result (λ n. n.item.table < length schema.now.tables) }
{
    let table = table_number(alloc, schema, source.table)?;
    Ok(NamedItem {
        name: source.alias.unwrap_or(source.table),
        item: BItem {
            table,
            alias: source.alias,
            cross: source.cross,
            left: source.left,
        },
    })
}

/// The items of FROM, whose tables are looked up in order.
pub(crate) fn find_items<'a>(
    alloc: Global,
    schema: &Schema,
    sources: &[Source<'a>],
) -> Result<Vec<NamedItem<'a>>, BindFault>
    ensures answer { Answers (λ list. map named_of list.items) result
        (flat_map (table_checks schema.now) (map source_tree sources.now))
        (map (named_item schema.now) (map source_tree sources.now)) }
    ensures there { IfOk result (λ list.
        AllByRecursion (λ n. n.item.table < length schema.now.tables) list.items) }
{
    let mut list = Vec::new(alloc);
    for source in sources {
        let named = find_item(alloc, schema, source)?;
        push(&mut list, named)?;
    }
    Ok(list)
}

/// What names are looked up in: the items, where no two have one name.
pub(crate) fn scope_of<'s, 'a>(
    alloc: Global,
    schema: &'s Schema,
    list: &'s [NamedItem<'a>],
) -> Result<Scope<'s>, BindFault>
    requires few { length list.now ≤ most_items }
    requires there { AllByRecursion (λ n. n.item.table < length schema.now.tables) list.now }
    ensures { Answers (λ scope. scope) result
        (name_checks [] (map (λ n. n.name) (map named_of list.now)))
        (scope_from schema.now (map named_of list.now)) }
{
    let mut scope = Scope::new(alloc, schema);
    for named in list {
        if scope.has_name(alloc, named.name)? {
            return Err(BindFault::SameName(Bytes::copy(alloc, named.name)?));
        }
        scope.push(alloc, named.name, named.item)?;
    }
    Ok(scope)
}
