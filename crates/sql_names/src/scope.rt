//! The tables of FROM, found by the names that stand for them.
ghost use Rattle.std.specs.Prelude.{◌≡◌, ◌<◌, ◌≤◌, length, map, Some, false, OnOk, OnErr};
ghost use Rattle.std.specs.Prelude.{IfOk, IfSome};
ghost use Rattle.sql_meaning.specs.Letters.{folded_bytes};
ghost use Rattle.schema_model.specs.Names.{has_name};
ghost use Rattle.sql_bound.specs.Fits.{most_items};
ghost use Rattle.sql_bound.specs.Statements.{item_of};
ghost use Rattle.schema_model.specs.Schemas.{IsTable};
ghost use Rattle.sql_names.specs.Scopes.{no_items, with_item, table_at};
ghost use Rattle.sql_names.specs.Names.{item_named};

use schema_model::{Names, Schema, Table, schema_is_sound};
use sql_bound::BItem;
use sql_value::{Memory, fold};
use std::alloc::Global;
use std::marker::Model;

/// The tables of FROM as items, numbered from 0, each found by one hash of its name: its alias, or
/// the table's name where it has none.
#[derive(Drop)]
pub struct Scope<'a> {
    schema: &'a Schema,
    names: Names,
    items: Vec<BItem<'a>>,
}

impl<'a> Model for Scope<'a> {
    ghost use Rattle.sql_names.specs.Scopes.{Scope as Plain};

    ghost Value = { Plain };

    ghost use Rattle.sql_names.specs.ScopeView.{seen, IsSeenScope};

    ghost view = { seen };

    ghost invariant = { IsSeenScope };
}

impl<'a> Scope<'a> {
    /// No items.
    pub fn new(alloc: Global, schema: &'a Schema) -> Self
        ensures { result ≡ no_items schema.now }
    {
        Scope {
            schema,
            names: Names::new(alloc),
            items: Vec::new(alloc),
        }
    }

    /// Appends an item under a name that no item has. After `Memory` the scope is as it was.
    pub fn push(&mut self, alloc: Global, name: &[u8], item: BItem<'a>) -> Result<(), Memory>
        requires free { has_name (folded_bytes name.now) self.old.names ≡ false }
        requires room { length self.old.items < most_items }
        requires table { item.table < length self.old.schema.tables }
        ensures ok { OnOk result
            (self.new ≡ with_item self.old (folded_bytes name.now) (item_of item.entry)) }
        ensures err { OnErr result (self.new ≡ self.old) }
    {
        self.names.add(alloc, name)?;
        let Ok(()) = self.items.push(item) else {
            self.names.forget();
            return Err(Memory);
        };
        Ok(())
    }

    /// The schema. Takes no memory.
    pub fn schema(&self) -> &Schema
        ensures { result.now ≡ self.now.schema }
    {
        self.schema
    }

    /// The items, in order. Takes no memory.
    pub fn items(&self) -> &[BItem<'a>]
        ensures { map item_of result.now ≡ self.now.items }
    {
        self.items.as_slice()
    }

    /// How many items there are. Takes no memory.
    pub fn count(&self) -> u32
        ensures count { result ≡ length self.now.items }
        ensures few { result ≤ most_items }
    {
        self.items.len() as u32
    }

    /// The table of an item. Takes no memory.
    pub fn table(&self, item: u32) -> &Table
        requires { item < length self.now.items }
        ensures found { table_at self.now item ≡ Some result.now }
        ensures sound { IsTable result.now }
    {
        schema_is_sound(self.schema);
        self.schema.table(self.items[item as usize].table)
    }

    /// Whether the name of an item equals the name but for the case of ASCII letters, by one hash.
    pub fn has_name(&self, alloc: Global, name: &[u8]) -> Result<bool, Memory>
        ensures { IfOk result (λ is. is ≡ has_name (folded_bytes name.now) self.now.names) }
    {
        let lower = fold(alloc, name)?;
        Ok(self.names.has(lower.as_slice()))
    }

    /// The number of the item that a name stands for, by one hash.
    pub fn item_named(&self, alloc: Global, name: &[u8]) -> Result<Option<u32>, Memory>
        ensures found { IfOk result (λ item. item ≡ item_named self.now name.now) }
        ensures within { IfOk result (λ item.
            IfSome item (λ number. number < length self.now.items)) }
    {
        let lower = fold(alloc, name)?;
        match self.names.find(lower.as_slice()) {
            Some(item) => Ok(Some(item as u32)),
            None => Ok(None),
        }
    }
}
