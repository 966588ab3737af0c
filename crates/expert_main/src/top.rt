//! The top call.
ghost use Rattle.std.specs.Prelude.{◌≡◌, ◌≢◌, ◌↔◌, ◌<◌, ◌≤◌, None, Some, IfOk, IfErr, IfSome};
ghost use Rattle.std.specs.Prelude.{OnOk, true, false};
ghost use Rattle.expert_io.specs.Told.{Lacks, file_of};
ghost use Rattle.expert_main.specs.Answers.{Answers, status_in};
ghost use Rattle.expert_main.specs.Promises.{sent, RunsAsTold, Reports, ReadsAsTold};
ghost use Rattle.expert_main.specs.Promises.{WritesAsTold, SaysWhy, WritesLine};
ghost use Rattle.expert_main.specs.Refusals.{status_of, line_of, ran_of, Declines, HasReason};
ghost use Rattle.expert_main.specs.Refusals.{IsOfDatabase, IsToldOrFailed};
ghost use Rattle.expert_main.specs.Run.{IsDump, run_file};
ghost use Rattle.expert_main.specs.Seen.{seen_command};
ghost use Rattle.expert_main.specs.Statuses.{is_report, usage, cannot_read, cannot_write};
ghost use Rattle.expert_main.specs.Statuses.{out_of_memory};
ghost use Rattle.expert_main.specs.Words.{command_of};

use crate::answer::{Answer, answer_texts};
use crate::refusal::Refusal;
use crate::script::read_script;
use crate::words::{Command, read_words};
use expert_io::{ReadFault, Shelf, Sink, Words, read_file, write_all};
use sql_value::Bytes;
use std::alloc::Global;

/// How many bytes a database may have.
const DATABASE_LIMIT: u64 = 67_108_864;

/// What a database file of SQLite begins with (<https://sqlite.org/fileformat2.html>, section 1.3).
const FILE_HEADER: &[u8] = b"SQLite format 3\0";

// The dump that the command names, if it is one.
fn read_database<'a, F: Shelf>(
    alloc: Global,
    shelf: &mut F,
    command: &Command<'a>,
) -> Result<Bytes, Refusal<'a>>
    ensures files { F.files shelf.new ≡ F.files shelf.old }
    ensures told { IfOk result (λ database. IfSome (F.files shelf.old)
        (λ files. file_of files command.now.database.now ≡ Some database)) }
    ensures dump { IfOk result IsDump }
    ensures reason { IfErr result (λ why. HasReason (F.faults shelf.old) (F.faults shelf.new) why
        (IfSome (F.files shelf.old) (λ files. run_file files (seen_command command.now)
        (file_of files command.now.database.now) ≡ ran_of why))) }
    ensures only { IfErr result (IsToldOrFailed (F.files shelf.old) (F.faults shelf.old)
        (F.faults shelf.new)) }
    ensures blames { IfErr result (IsOfDatabase command.now.database.now) }
    ensures lacks { Lacks (F.files shelf.old) command.now.database.now
        → IfErr result (λ why. status_of why ≡ cannot_read) }
    ensures later { F.faults shelf.old ≤ F.faults shelf.new }
    ensures kept { OnOk result (F.faults shelf.new ≡ F.faults shelf.old) }
    ensures failed { F.faults shelf.old < F.faults shelf.new
        → IfErr result (λ why. status_of why ≡ cannot_read) }
{
    let database = match read_file(alloc, shelf, command.database, DATABASE_LIMIT) {
        Ok(database) => database,
        Err(ReadFault::Failed) => return Err(Refusal::CannotRead(command.database)),
        Err(ReadFault::TooLarge) => return Err(Refusal::DatabaseTooLarge),
        Err(ReadFault::Memory) => return Err(Refusal::Memory),
    };
    if database.as_slice().starts_with(FILE_HEADER) {
        return Err(Refusal::DatabaseFile);
    }
    Ok(database)
}

// The whole report, or why there is none.
fn prepare<'a, F: Shelf>(
    alloc: Global,
    words: &'a Words,
    shelf: &mut F,
) -> Result<Answer, Refusal<'a>>
    ensures ok { IfOk result (Answers words.now (F.files shelf.old)) }
    ensures err { IfErr result (Declines words.now (F.files shelf.old) (F.faults shelf.old)
        (F.faults shelf.new)) }
    ensures command { (status_in result ≡ usage) ↔ (command_of words.now ≡ None) }
    ensures reads { ReadsAsTold words.now (F.files shelf.old) (F.faults shelf.old)
        (F.faults shelf.new) (status_in result) }
{
    let command = match read_words(words) {
        Some(command) => command,
        None => return Err(Refusal::Usage),
    };
    let database = read_database(alloc, shelf, &command)?;
    let script = read_script(alloc, shelf, command.words)?;
    answer_texts(alloc, &command, database.as_slice(), &script)
}

// Says why there is no report, and answers the status of that.
fn give_up<E: Sink>(why: &Refusal, err: &mut E) -> u8
    ensures status { result ≡ status_of why.now }
    ensures line { WritesLine (sent (E.written err.old) (E.written err.new) (E.faults err.old)
        (E.faults err.new)) (line_of why.now) }
{
    why.complain(err);
    why.status()
}

/// Reads what the words name, writes the report to `out`, and answers the exit status; where there
/// is no report, says in one line on `err` why.
///
/// | Status | When |
/// |---|---|
/// | 0 | the whole report was written, and each statement has a plan |
/// | 1 | the words are no command |
/// | 2 | the database, script or candidates pass a limit, or the database is a file of SQLite |
/// | 3 | the whole report was written, and it refuses some statement |
/// | 4 | the file of the database or of a piece can't be read |
/// | 5 | the report can't be written; `out` holds a proper prefix of it |
/// | 6 | memory was wanting before the first write |
pub fn expert<F: Shelf, O: Sink, E: Sink>(
    alloc: Global,
    words: &Words,
    shelf: &mut F,
    out: &mut O,
    err: &mut E,
) -> u8
    // The status and the bytes are the stated function of the words and the files.
    ensures told { RunsAsTold words.now (F.files shelf.old) (F.faults shelf.old)
        (F.faults shelf.new)
        (sent (O.written out.old) (O.written out.new) (O.faults out.old) (O.faults out.new))
        (sent (E.written err.old) (E.written err.new) (E.faults err.old) (E.faults err.new))
        result }

    // On every database of the schema each printed plan gives the rows that its statement asks for;
    // over files whose bytes aren't told, of some bytes.
    ensures report { is_report result ≡ true → Reports words.now (F.files shelf.old)
        (sent (O.written out.old) (O.written out.new) (O.faults out.old) (O.faults out.new))
        result }

    // 1 comes exactly where the words are no command.
    ensures command { (result ≡ usage) ↔ (command_of words.now ≡ None) }

    // 4 comes where a read failed, and else exactly where a file whose turn it is to be read is
    // told to be missing.
    ensures reads { ReadsAsTold words.now (F.files shelf.old) (F.faults shelf.old)
        (F.faults shelf.new) result }

    // 5 comes where, and only where, a write to `out` failed; it holds a front of the report then.
    ensures writes { WritesAsTold words.now (F.files shelf.old)
        (sent (O.written out.old) (O.written out.new) (O.faults out.old) (O.faults out.new))
        result }

    // Nothing is half said: one stream alone is written to, but for 5.
    ensures out_unchanged { is_report result ≡ false → result ≢ cannot_write
        → out.new ≡ out.old }
    ensures err_unchanged { is_report result ≡ true → err.new ≡ err.old }
    ensures line { is_report result ≡ false → SaysWhy words.now
        (sent (E.written err.old) (E.written err.new) (E.faults err.old) (E.faults err.new))
        result }
    ensures known { result ≤ out_of_memory }
{
    let answer = match prepare(alloc, words, shelf) {
        Ok(answer) => answer,
        Err(why) => return give_up(&why, err),
    };
    match write_all(out, answer.text.as_slice()) {
        Ok(()) => answer.status,
        Err(_) => give_up(&Refusal::CannotWrite, err),
    }
}
