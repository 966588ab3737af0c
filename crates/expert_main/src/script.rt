//! The script: the texts of its pieces, in the order of the words.
ghost use Rattle.std.specs.Prelude.{◌≡◌, ◌≢◌, ◌<◌, ◌≤◌, ◌∷◌, [], length, Ok, Err, IsNone, IfSome};
ghost use Rattle.std.specs.Prelude.{IfOk, IfErr, OnOk, List, ℕ};
ghost use Rattle.std.specs.List.{AllByRecursion};
ghost use Rattle.expert_main.specs.Refusals.{HasReason, IsOfPieces, IsToldOrFailed, ran_of};
ghost use Rattle.expert_main.specs.Refusals.{status_of};
ghost use Rattle.expert_main.specs.Scripts as meant;
ghost use Rattle.expert_main.specs.Seen.{seen_piece};
ghost use Rattle.expert_main.specs.Statuses.{cannot_read};
ghost use Rattle.expert_main.specs.Words.{pieces_of, settings_among};

use crate::refusal::Refusal;
use crate::words::{Piece, Setting, read_setting};
use expert_io::{ReadFault, Shelf, read_file};
use expert_report::Script;
use sql_value::Bytes;
use std::alloc::Global;

/// How many bytes the pieces of a script may have together.
const SCRIPT_LIMIT: u64 = 4_194_304;

// A piece of the script, and the words behind it.
#[derive(Clone, Copy)]
struct PieceAndRest<'a> {
    piece: Piece<'a>,
    rest: &'a [Bytes],
}

// The first piece among words, if there is one.
fn first_piece(words: &[Bytes]) -> Option<PieceAndRest<'_>>
    ensures none { IsNone result → pieces_of (settings_among words.now) ≡ [] }
    ensures some { IfSome result (λ found. pieces_of (settings_among words.now)
        ≡ seen_piece found.piece ∷ pieces_of (settings_among found.rest.now)) }
    ensures shorter { IfSome result (λ found. length found.rest.now < length words.now) }
{
    let mut rest = words;
    while let [option, value, behind @ ..] = rest {
        if let Some(Setting::Script(piece)) = read_setting(option.as_slice(), value.as_slice()) {
            return Some(PieceAndRest {
                piece,
                rest: behind,
            });
        }
        rest = behind;
    }
    None
}

// The text of a piece, if it has at most `room` bytes.
fn read_piece<'a, F: Shelf>(
    alloc: Global,
    shelf: &mut F,
    piece: Piece<'a>,
    room: u64,
) -> Result<Bytes, Refusal<'a>>
    ensures files { F.files shelf.new ≡ F.files shelf.old }
    ensures ok { IfOk result (λ text. IfSome (F.files shelf.old) (λ files.
        meant.fitted room (meant.text_of files (seen_piece piece.entry)) ≡ Ok text)) }
    ensures fits { IfOk result (λ text. length text ≤ room) }
    ensures own { IfOk result (meant.IsOwn (seen_piece piece.entry)) }
    ensures reason { IfErr result (λ why. HasReason (F.faults shelf.old) (F.faults shelf.new) why
        (IfSome (F.files shelf.old) (λ files.
        meant.fitted room (meant.text_of files (seen_piece piece.entry)) ≡ Err (ran_of why)))) }
    ensures only { IfErr result (IsToldOrFailed (F.files shelf.old) (F.faults shelf.old)
        (F.faults shelf.new)) }
    ensures pieces { IfErr result (IsOfPieces (seen_piece piece.entry ∷ [])) }
    ensures later { F.faults shelf.old ≤ F.faults shelf.new }
    ensures kept { OnOk result (F.faults shelf.new ≡ F.faults shelf.old) }
    ensures failed { F.faults shelf.old < F.faults shelf.new
        → IfErr result (λ why. status_of why ≡ cannot_read) }
{
    match piece {
        Piece::Sql(text) => {
            if text.len() as u64 > room {
                return Err(Refusal::ScriptTooLarge);
            }
            Ok(Bytes::copy(alloc, text)?)
        }
        Piece::File(name) => match read_file(alloc, shelf, name, room) {
            Ok(text) => Ok(text),
            Err(ReadFault::Failed) => Err(Refusal::CannotRead(name)),
            Err(ReadFault::TooLarge) => Err(Refusal::ScriptTooLarge),
            Err(ReadFault::Memory) => Err(Refusal::Memory),
        },
    }
}

/// The texts of the pieces among the words, if they have at most 4,194,304 bytes together. A file
/// is read up to what is left of that, and one byte behind it.
pub fn read_script<'a, F: Shelf>(
    alloc: Global,
    shelf: &mut F,
    words: &'a [Bytes],
) -> Result<Script, Refusal<'a>>
    ensures files { F.files shelf.new ≡ F.files shelf.old }
    ensures ok { IfOk result (λ texts. IfSome (F.files shelf.old) (λ files.
        meant.gathered files (pieces_of (settings_among words.now)) meant.script_limit
        ≡ Ok texts)) }
    ensures own { IfOk result (meant.AreOf (pieces_of (settings_among words.now))) }
    ensures few { IfOk result (λ texts. meant.total texts ≤ meant.script_limit) }
    ensures reason { IfErr result (λ why. HasReason (F.faults shelf.old) (F.faults shelf.new) why
        (IfSome (F.files shelf.old) (λ files.
        meant.gathered files (pieces_of (settings_among words.now)) meant.script_limit
        ≡ Err (ran_of why)))) }
    ensures only { IfErr result (IsToldOrFailed (F.files shelf.old) (F.faults shelf.old)
        (F.faults shelf.new)) }
    ensures pieces { IfErr result (IsOfPieces (pieces_of (settings_among words.now))) }
    ensures later { F.faults shelf.old ≤ F.faults shelf.new }
    ensures kept { OnOk result (F.faults shelf.new ≡ F.faults shelf.old) }
    ensures failed { F.faults shelf.old < F.faults shelf.new
        → IfErr result (λ why. status_of why ≡ cannot_read) }
{
    let mut script = Script::new(alloc);
    let mut room = SCRIPT_LIMIT;
    let mut rest = words;
    while let Some(found) = first_piece(rest) {
        let text = read_piece(alloc, shelf, found.piece, room)?;
        room -= text.as_slice().len() as u64;
        script.push(text)?;
        rest = found.rest;
    }
    Ok(script)
}
