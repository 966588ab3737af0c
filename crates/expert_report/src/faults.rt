//! The texts of refusals.
ghost use Rattle.std.specs.Prelude.{◌≡◌, ◌≢◌, ◌++◌, IfOk, OnOk};
ghost use Rattle.expert_report.specs.Faults as meant;

use sql_lex::foreign_name;
use sql_names::BindFault;
use sql_parse::ParseFault;
use sql_value::{Bytes, Memory};
use std::alloc::Global;

/// A text behind which a name stands.
fn with_name(alloc: Global, front: &[u8], name: &[u8]) -> Result<Bytes, Memory>
    ensures { IfOk result (λ text. text ≡ front.now ++ name.now) }
{
    let mut text = Bytes::copy(alloc, front)?;
    text.append(name)?;
    Ok(text)
}

/// Why a statement has no tree; `Memory` where memory was wanting for the tree or the text.
#[tactic(auto, unfolding(crate::specs::Faults::parse_text))]
pub fn parse_text(alloc: Global, fault: ParseFault) -> Result<Bytes, Memory>
    ensures text { IfOk result (λ text. text ≡ meant.parse_text fault) }
    ensures memory { OnOk result (fault ≢ ParseFault.Memory) }
{
    match fault {
        ParseFault::Lexical => Bytes::copy(alloc, b"unrecognized token"),
        ParseFault::Foreign(construct) => {
            with_name(
                alloc,
                b"not in this profile: ",
                foreign_name(construct).as_bytes(),
            )
        }
        ParseFault::NumberOutOfProfile => Bytes::copy(alloc, b"number outside this profile"),
        ParseFault::TooDeep => Bytes::copy(alloc, b"expression too deep"),
        ParseFault::Syntax => Bytes::copy(alloc, b"syntax error"),
        ParseFault::Memory => Err(Memory),
    }
}

/// Why a statement can't be bound; `Memory` where memory was wanting for that or for the text.
#[tactic(auto, unfolding(crate::specs::Faults::bind_text))]
pub fn bind_text(alloc: Global, fault: &BindFault) -> Result<Bytes, Memory>
    ensures text { IfOk result (λ text. text ≡ meant.bind_text fault.now) }
    ensures memory { OnOk result (fault.now ≢ BindFault.Memory) }
{
    match fault {
        BindFault::NoSuchTable(name) => with_name(alloc, b"no such table: ", name.as_slice()),
        BindFault::UnreadTable(name) => with_name(alloc, b"table not read: ", name.as_slice()),
        BindFault::NoSuchColumn(name) => with_name(alloc, b"no such column: ", name.as_slice()),
        BindFault::AmbiguousColumn(name) => {
            with_name(alloc, b"ambiguous column name: ", name.as_slice())
        }
        BindFault::SameName(name) => {
            with_name(alloc, b"name used twice in FROM: ", name.as_slice())
        }
        BindFault::NoSuchCollation(name) => {
            with_name(alloc, b"no such collation: ", name.as_slice())
        }
        BindFault::RightName(name) => {
            with_name(alloc, b"ON names a table to its right: ", name.as_slice())
        }
        BindFault::BadPosition => Bytes::copy(alloc, b"ORDER BY position out of range"),
        BindFault::TooManyTables => Bytes::copy(alloc, b"more than 64 tables"),
        BindFault::TooManyTerms => Bytes::copy(alloc, b"more than 256 terms"),
        BindFault::Memory => Err(Memory),
    }
}
