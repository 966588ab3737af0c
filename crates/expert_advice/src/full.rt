//! A schema with all candidates behind its own indexes.
ghost use Rattle.std.specs.Prelude.{◌≡◌, ◌<◌, ◌^◌, length, IfOk};
ghost use Rattle.schema_model.specs.Schemas.{size};
ghost use Rattle.expert_advice.specs.Full.{AreCandidatesOf, FullSchemasAreMeant, IsFull};
ghost use Rattle.expert_advice.specs.Full.{StatementsStillFit, TermsStay, with_candidates};

use schema_model::{Index, IndexColumn, IndexColumns, Schema, add_index};
use sql_value::{Bytes, Items, Memory};
use std::alloc::Global;

fn copy_columns(alloc: Global, columns: &[IndexColumn]) -> Result<IndexColumns, Memory>
    ensures { IfOk result (λ copy. copy ≡ columns.now) }
{
    let mut copy = Items::new(alloc);
    for column in columns {
        copy.push(*column)?;
    }
    Ok(copy)
}

/// An index that equals another one of few columns.
fn copy_index(alloc: Global, index: &Index) -> Result<Index, Memory>
    ensures same { IfOk result (λ copy. copy ≡ index.now) }
    ensures few { IfOk result (λ copy. length copy.columns < 2 ^ 32) }
{
    let columns = index.columns.as_slice();
    if columns.len() >= 1 << 32 {
        return Err(Memory);
    }
    Ok(Index {
        name: Bytes::copy(alloc, index.name.as_slice())?,
        table: index.table,
        columns: copy_columns(alloc, columns)?,
        unique: index.unique,
        usable: index.usable,
    })
}

/// The schema with all candidates behind its own indexes, under their own names. A candidate of
/// 2^32 columns is answered as want of memory.
pub fn full_schema(alloc: Global, schema: &Schema, candidates: &[Index]) -> Result<Schema, Memory>
    requires candidates { AreCandidatesOf schema.now candidates.now }
    requires room { size schema.now < 10 ^ 9 }
    ensures same { IfOk result (λ full. full ≡ with_candidates schema.now candidates.now) }
    ensures full { IfOk result (IsFull schema.now) }
{
    let mut full = schema.try_copy(alloc)?;
    for candidate in candidates {
        let index = copy_index(alloc, candidate)?;
        add_index(alloc, &mut full, index)?;
    }
    Ok(full)
}

/// A law: with the candidates of a request's scans, the schema is the one that the advice on the
/// request is planned over.
pub fn full_schemas_are_meant()
    ensures { FullSchemasAreMeant }
{}

/// A law: with candidates behind its indexes a schema keeps its tables, so a statement that fits it
/// still does, by the same terms.
pub fn statements_keep_with_candidates()
    ensures fits { StatementsStillFit }
    ensures terms { TermsStay }
{}
