//! Why the program gives up, and what it says then.
ghost use Rattle.std.specs.Prelude.{◌≡◌, ◌++◌, [], ◌∷◌, OnOk, OnErr};
ghost use Rattle.std.specs.Io.KnownBytes.{Appends};
ghost use Rattle.expert_io.specs.Faults.{HasCause};
ghost use Rattle.expert_io.specs.Written.{AppendsProperPrefix};
ghost use Rattle.expert_main.specs.Promises.{sent, WritesLine};
ghost use Rattle.expert_main.specs.Refusals.{status_of, line_of};

use crate::status::{CANNOT_READ, CANNOT_WRITE, INPUT_REFUSED, OUT_OF_MEMORY, USAGE};
use expert_io::{Failed, Sink, write_all};
use expert_report::AdviseFault;
use schema_read::ReadDumpFault;
use sql_value::Memory;

const USAGE_TEXT: &[u8] = b"usage: sqlite3_expert [-sql SQL] [-file FILE] [-sample PERCENT] \
    [-stat MODE] [-verbose LEVEL] DATABASE";

/// Why there is no report.
#[derive(Clone, Copy, Drop)]
pub enum Refusal<'a> {
    /// The words are no command.
    Usage,
    /// The database has more than 67,108,864 bytes.
    DatabaseTooLarge,
    /// The database is a file of SQLite, and no dump.
    DatabaseFile,
    /// The pieces of the script have more than 4,194,304 bytes together.
    ScriptTooLarge,
    /// The dump names more than 1,000 tables.
    TooManyTables,
    /// There are more than 2,000 candidates for indexes.
    TooManyCandidates,
    /// The file of this name can't be read.
    CannotRead(&'a [u8]),
    /// The report can't be written.
    CannotWrite,
    /// Memory was wanting.
    Memory,
}

impl<'a> From<Memory> for Refusal<'a> {
    ghost use Rattle.std.specs.Prelude.{◌≡◌};
    ghost use Rattle.expert_main.specs.declared.refusal.Refusal.TheVariants as refusal;

    ghost from_gives = { λ _ why. why ≡ refusal.Memory };

    fn from(_: Memory) -> Refusal<'a> {
        Refusal::Memory
    }
}

impl<'a> From<ReadDumpFault> for Refusal<'a> {
    ghost use Rattle.std.specs.Prelude.{◌≡◌};
    ghost use Rattle.expert_main.specs.Refusals.{of_dump};

    ghost from_gives = { λ fault why. why ≡ of_dump fault };

    fn from(fault: ReadDumpFault) -> Refusal<'a> {
        match fault {
            ReadDumpFault::TooManyTables => Refusal::TooManyTables,
            ReadDumpFault::Memory => Refusal::Memory,
        }
    }
}

impl<'a> From<AdviseFault> for Refusal<'a> {
    ghost use Rattle.std.specs.Prelude.{◌≡◌};
    ghost use Rattle.expert_main.specs.Refusals.{of_advice};

    ghost from_gives = { λ fault why. why ≡ of_advice fault };

    fn from(fault: AdviseFault) -> Refusal<'a> {
        match fault {
            AdviseFault::TooManyCandidates => Refusal::TooManyCandidates,
            AdviseFault::Memory => Refusal::Memory,
        }
    }
}

// Writes a line in three pieces, so that no memory is wanted for it.
fn write_line<E: Sink>(err: &mut E, front: &[u8], name: &[u8]) -> Result<(), Failed>
    ensures ok { OnOk result (Appends (E.written err.old) (E.written err.new)
        (front.now ++ name.now ++ 10 ∷ [])) }
    ensures err { OnErr result (AppendsProperPrefix (E.written err.old) (E.written err.new)
        (front.now ++ name.now ++ 10 ∷ [])) }
    ensures cause { HasCause (E.faults err.old) (E.faults err.new) result }
{
    write_all(err, front)?;
    write_all(err, name)?;
    write_all(err, b"\n")
}

impl<'a> Refusal<'a> {
    /// The exit status.
    pub fn status(&self) -> u8
        ensures { result ≡ status_of self.now }
    {
        match self {
            Refusal::Usage => USAGE,
            Refusal::DatabaseTooLarge
            | Refusal::DatabaseFile
            | Refusal::ScriptTooLarge
            | Refusal::TooManyTables
            | Refusal::TooManyCandidates => INPUT_REFUSED,
            Refusal::CannotRead(_) => CANNOT_READ,
            Refusal::CannotWrite => CANNOT_WRITE,
            Refusal::Memory => OUT_OF_MEMORY,
        }
    }

    // The line but for its line feed: a text, and the name that stands behind it.
    fn text(&self) -> (&[u8], &[u8])
        ensures { line_of self.now ≡ result.0.now ++ result.1.now ++ 10 ∷ [] }
    {
        match self {
            Refusal::Usage => (USAGE_TEXT, &[]),
            Refusal::DatabaseTooLarge => (b"sqlite3_expert: database too large", &[]),
            Refusal::DatabaseFile => (b"sqlite3_expert: database file format not read", &[]),
            Refusal::ScriptTooLarge => (b"sqlite3_expert: script too large", &[]),
            Refusal::TooManyTables => (b"sqlite3_expert: too many tables", &[]),
            Refusal::TooManyCandidates => (b"sqlite3_expert: too many candidates", &[]),
            Refusal::CannotRead(name) => (b"sqlite3_expert: cannot read ", name),
            Refusal::CannotWrite => (b"sqlite3_expert: cannot write", &[]),
            Refusal::Memory => (b"sqlite3_expert: out of memory", &[]),
        }
    }

    /// Says so on standard error, as far as the sink takes it.
    pub fn complain<E: Sink>(&self, err: &mut E)
        ensures { WritesLine (sent (E.written err.old) (E.written err.new) (E.faults err.old)
            (E.faults err.new)) (line_of self.now) }
    {
        let (front, name) = self.text();
        let _ = write_line(err, front, name);
    }
}
