//! The names of candidates: the table's, `_idx_`, and a sum over the text of the columns.
ghost use Rattle.std.specs.Prelude.{◌≡◌, ◌<◌, ◌≤◌, ◌^◌, ◌||◌, length, map, false};
ghost use Rattle.std.specs.Prelude.{IfOk};
ghost use Rattle.sql_meaning.specs.Letters.{folded_bytes};
ghost use Rattle.plan_choice.specs.CandidateNames as meant;
ghost use Rattle.plan_choice.specs.Candidates.{candidate_limit};
ghost use Rattle.schema_model.specs.CreateTexts.{AreInTable};
ghost use Rattle.schema_model.specs.Names.{has_name};
ghost use Rattle.schema_model.specs.Schemas.{columns_at, size, is_taken as schema_takes};
ghost use Rattle.schema_model.specs.PlainSchemas.{plain_index_column};
ghost use Rattle.candidate_index.specs.Naming.{naming, taken_with};

use schema_model::{IndexColumn, Names, Schema, append_columns, name_taken, schema_is_sound};
use sql_value::{Bytes, Memory, fold};
use std::alloc::Global;

/// The sum over a text: with each byte 9 times what it was, and the byte.
fn name_sum(text: &[u8]) -> u32
    ensures { result ≡ meant.name_sum text.now }
{
    let mut sum: u32 = 0;
    for byte in text {
        sum = sum.wrapping_mul(9).wrapping_add(*byte as u32);
    }
    sum
}

fn hex_digit(digit: u32) -> u8
    requires { digit < 16 }
    ensures { result ≡ meant.hex_digit digit }
{
    if digit < 10 {
        b'0' + digit as u8
    } else {
        b'a' - 10 + digit as u8
    }
}

/// The eight hexadecimal digits of a sum, written from the last one on.
fn hex_digits(sum: u32) -> [u8; 8]
    ensures { result ≡ meant.hex_digits 8 sum }
{
    let mut digits = [b'0'; 8];
    let mut rest = sum;
    let mut place: usize = 8;
    while place > 0 {
        place -= 1;
        digits[place] = hex_digit(rest % 16);
        rest /= 16;
    }
    digits
}

fn name_of_sum(alloc: Global, table: &[u8], sum: u32) -> Result<Bytes, Memory>
    ensures { IfOk result (λ name. name ≡ meant.name_of_sum table.now sum) }
{
    let mut name = Bytes::copy(alloc, table)?;
    name.append(b"_idx_")?;
    name.append(&hex_digits(sum))?;
    Ok(name)
}

fn is_known(schema: &Schema, made: &Names, folded: &[u8]) -> bool
    ensures { result ≡ (has_name folded.now made.now || schema_takes schema.now folded.now) }
{
    made.has(folded) || name_taken(schema, folded)
}

/// Whether a name is that of a table, an unread table or an index, or one of those that were made.
fn is_taken(alloc: Global, schema: &Schema, made: &Names, name: &[u8]) -> Result<bool, Memory>
    ensures { IfOk result (λ taken. taken
        ≡ meant.is_taken (taken_with schema.now made.now) name.now) }
{
    let folded = fold(alloc, name)?;
    Ok(is_known(schema, made, folded.as_slice()))
}

/// The name of a sum, or of the first one behind it whose name isn't taken. Of one more name than
/// are taken one is free, so the last one isn't looked up.
fn free_name(
    alloc: Global,
    schema: &Schema,
    made: &Names,
    count: usize,
    table: &[u8],
    first: u32,
) -> Result<Bytes, Memory>
    requires { count ≡ length (taken_with schema.now made.now) }
    ensures { IfOk result (λ name. name ≡ meant.free_name
        (meant.is_taken (taken_with schema.now made.now)) table.now count first) }
{
    let mut sum = first;
    for _tried in 0..count {
        let name = name_of_sum(alloc, table, sum)?;
        if !is_taken(alloc, schema, made, name.as_slice())? {
            return Ok(name);
        }
        sum = sum.wrapping_add(1);
    }
    name_of_sum(alloc, table, sum)
}

/// How many names a schema has.
fn name_count(schema: &Schema) -> usize
    ensures exact { result ≡ size schema.now }
    ensures small { result < 2 ^ 34 }
{
    schema.table_count() as usize + schema.unread_count() as usize + schema.index_count() as usize
}

/// The name of a candidate on these columns of a table, behind as many as `made` has names.
pub(crate) fn candidate_name(
    alloc: Global,
    schema: &Schema,
    made: &Names,
    count: usize,
    table: u32,
    columns: &[IndexColumn],
) -> Result<Bytes, Memory>
    requires table { table < length schema.now.tables }
    requires columns { AreInTable (columns_at schema.now.tables table) columns.now }
    requires count { count ≡ length made.now }
    requires few { count ≤ candidate_limit }
    ensures exact { IfOk result (λ name. name
        ≡ meant.candidate_name (naming schema.now) (taken_with schema.now made.now)
        (record { table = table; columns = map plain_index_column columns.now })) }
    ensures free { IfOk result (λ name. has_name (folded_bytes name) made.now ≡ false) }
{
    schema_is_sound(schema);
    let of_table = schema.table(table);
    let mut text = Bytes::new(alloc);
    append_columns(&mut text, of_table.columns.as_slice(), columns)?;
    free_name(
        alloc,
        schema,
        made,
        name_count(schema) + count,
        of_table.name.as_slice(),
        name_sum(text.as_slice()),
    )
}
