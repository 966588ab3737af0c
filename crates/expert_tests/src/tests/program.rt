//! The top call over files and sinks in memory.
ghost use Rattle.std.specs.Prelude.{◌≤◌};

use expert_io::{Calls, Files, MemoryShelf, MemorySink, Words};
use expert_main::expert;
use sql_value::{Bytes, Memory};
use std::alloc::Global;
use std::test::Fail;

const X1: &str = "CREATE TABLE x1(a,b,c);";

const SELECT: &str = "SELECT * FROM x1";

const SCAN: &str = "-- Statement 1
(no new indexes)

SCAN x1

-- Recommended
(no new indexes)
";

const TOO_DEEP: &str = "-- Statement 1
refused: expression too deep

-- Recommended
(no new indexes)
";

/// No call of the objects in memory has this number.
const NEVER: u64 = u64::MAX;

fn shelf(alloc: Global, failing: u64, most: u64) -> Result<MemoryShelf, Memory>
    requires { 1 ≤ most }
{
    let mut files = Files::new(alloc);
    for (name, text) in [("db", X1), ("q", SELECT)] {
        files.push((
            Bytes::copy(alloc, name.as_bytes())?,
            Bytes::copy(alloc, text.as_bytes())?,
        ))?;
    }
    Ok(MemoryShelf::new(files, call(alloc, failing)?, most))
}

fn call(alloc: Global, number: u64) -> Result<Calls, Memory> {
    let mut calls = Calls::new(alloc);
    calls.push(number)?;
    Ok(calls)
}

fn words_of(alloc: Global, words: &[&str]) -> Result<Words, Memory> {
    let mut list = Words::new(alloc);
    for word in words {
        list.push(Bytes::copy(alloc, word.as_bytes())?)?;
    }
    Ok(list)
}

fn sink(alloc: Global, failing: u64, most: u64) -> Result<MemorySink, Memory>
    requires { 1 ≤ most }
{
    MemorySink::new(alloc, 12_000_000, call(alloc, failing)?, most)
}

/// What a call answers, and what it was given to write to.
#[derive(Drop)]
struct Ran {
    status: u8,
    out: MemorySink,
    err: MemorySink,
}

/// A call with these words. The call of the shelf with the number `reading` fails, and a read gives
/// at most `read` bytes; so do `writing` and `written` for the report, and `telling` for standard
/// error.
fn run(
    alloc: Global,
    words: &Words,
    reading: u64,
    read: u64,
    writing: u64,
    written: u64,
    telling: u64,
) -> Result<Ran, Memory>
    requires reads { 1 ≤ read }
    requires writes { 1 ≤ written }
{
    let mut shelf = shelf(alloc, reading, read)?;
    let mut out = sink(alloc, writing, written)?;
    let mut err = sink(alloc, telling, 999)?;
    let status = expert(alloc, words, &mut shelf, &mut out, &mut err);
    Ok(Ran { status, out, err })
}

/// Whether a call has this status and report, and nothing on standard error.
fn says(ran: &Ran, status: u8, out: &str) -> bool {
    ran.status == status && ran.out.written() == out.as_bytes() && ran.err.written().is_empty()
}

/// The plan of a scan, where these calls fail.
fn faulty(alloc: Global, reading: u64, read: u64, writing: u64, written: u64) -> Result<Ran, Memory>
    requires reads { 1 ≤ read }
    requires writes { 1 ≤ written }
{
    let words = words_of(alloc, &["-sql", SELECT, "db"])?;
    run(alloc, &words, reading, read, writing, written, NEVER)
}

/// Whether the status is told, by its line, and this was written of the report.
fn tells(ran: &Ran, status: u8, out: &str) -> bool {
    let line = match status {
        0 => "",
        4 => "sqlite3_expert: cannot read db\n",
        _ => "sqlite3_expert: cannot write\n",
    };
    ran.status == status
        && ran.out.written() == out.as_bytes()
        && ran.err.written() == line.as_bytes()
}

/// Whether the plan is told, however few bytes a call moves, and where a call fails that isn't
/// made.
fn tells_the_plan(alloc: Global) -> Result<bool, Memory> {
    Ok(
        tells(&faulty(alloc, NEVER, 1, NEVER, 999)?, 0, SCAN)
            && tells(&faulty(alloc, NEVER, 65_536, NEVER, 1)?, 0, SCAN)
            && tells(&faulty(alloc, 7, 7, NEVER, 999)?, 0, SCAN),
    )
}

/// Whether a fault of the open, of each read and of the read of the end is told.
fn tells_faults_of_reading(alloc: Global) -> Result<bool, Memory> {
    Ok(
        tells(&faulty(alloc, 1, 7, NEVER, 999)?, 4, "")
            && tells(&faulty(alloc, 2, 7, NEVER, 999)?, 4, "")
            && tells(&faulty(alloc, 5, 7, NEVER, 999)?, 4, "")
            && tells(&faulty(alloc, 6, 7, NEVER, 999)?, 4, ""),
    )
}

/// The plan of a scan whose statement stands in a file, where this call fails.
fn faulty_piece(alloc: Global, reading: u64) -> Result<Ran, Memory> {
    let words = words_of(alloc, &["-file", "q", "db"])?;
    run(alloc, &words, reading, 7, NEVER, 999, NEVER)
}

/// Whether the file of the statement is told to be the one that can't be read.
fn blames_the_piece(ran: &Ran) -> bool {
    ran.status == 4
        && ran.out.written().is_empty()
        && ran.err.written() == b"sqlite3_expert: cannot read q\n".as_slice()
}

/// Whether a fault of the open, of each read and of the read of the end is told of a piece of the
/// script, behind the six calls for the database.
fn tells_faults_of_a_piece(alloc: Global) -> Result<bool, Memory> {
    Ok(
        tells(&faulty_piece(alloc, 6)?, 4, "")
            && blames_the_piece(&faulty_piece(alloc, 7)?)
            && blames_the_piece(&faulty_piece(alloc, 8)?)
            && blames_the_piece(&faulty_piece(alloc, 10)?)
            && blames_the_piece(&faulty_piece(alloc, 11)?)
            && tells(&faulty_piece(alloc, 12)?, 0, SCAN),
    )
}

fn tells_faults_of_writing(alloc: Global) -> Result<bool, Memory> {
    Ok(
        tells(&faulty(alloc, NEVER, 7, 2, 10)?, 5, "-- Stateme")
            && tells(&faulty(alloc, NEVER, 7, 1, 999)?, 5, ""),
    )
}

#[test]
fn says_which_outside_call_failed(rt: HostRuntime) -> Result<(), Fail> {
    assert!(rt; tells_the_plan(rt.alloc())?);
    assert!(rt; tells_faults_of_reading(rt.alloc())?);
    assert!(rt; tells_faults_of_a_piece(rt.alloc())?);
    assert!(rt; tells_faults_of_writing(rt.alloc())?);
    Ok(())
}

/// A call with these words, whose first write to standard error fails.
fn unheard(alloc: Global, words: &[&str]) -> Result<Ran, Memory> {
    run(alloc, &words_of(alloc, words)?, NEVER, 7, NEVER, 999, 1)
}

#[test]
fn a_fault_of_standard_error_changes_nothing(rt: HostRuntime) -> Result<(), Fail> {
    let alloc = rt.alloc();
    assert!(rt; says(&unheard(alloc, &[])?, 1, ""));
    assert!(rt; says(&unheard(alloc, &["-sql", "x"])?, 1, ""));
    Ok(())
}

/// A call with a script that doesn't stand in one literal.
fn run_script(alloc: Global, script: Bytes) -> Result<Ran, Memory> {
    let mut words = words_of(alloc, &["-sql"])?;
    words.push(script)?;
    words.push(Bytes::copy(alloc, b"db")?)?;
    run(alloc, &words, NEVER, 7, NEVER, 9_999, NEVER)
}

/// A call with a script that has a front, a piece so often, and a back.
fn run_long(alloc: Global, [front, piece, back]: [&str; 3], count: u32) -> Result<Ran, Memory> {
    let mut script = Bytes::copy(alloc, front.as_bytes())?;
    for _ in 0..count {
        script.append(piece.as_bytes())?;
    }
    script.append(back.as_bytes())?;
    run_script(alloc, script)
}

/// How long such a script's report is; nothing where a statement is refused.
fn report_length(alloc: Global, parts: [&str; 3], count: u32) -> Result<usize, Memory> {
    let ran = run_long(alloc, parts, count)?;
    Ok(if ran.status == 0 {
        ran.out.written().len()
    } else {
        0
    })
}

/// Lists are read in loops: the stack and the time of a byte don't grow with them.
#[test]
fn reads_the_largest_scripts(rt: HostRuntime) -> Result<(), Fail> {
    let alloc = rt.alloc();
    let terms = ["SELECT a FROM x1 WHERE ''", "OR''", ""];
    assert_eq!(rt; report_length(alloc, terms, 1_000_000)?, SCAN.len());
    let entries = ["SELECT a FROM x1 WHERE a IN (1", ",1", ")"];
    assert_eq!(rt; report_length(alloc, entries, 99_999)?, SCAN.len());
    let statements = ["", "SELECT a FROM x1;", ""];
    assert_eq!(rt; report_length(alloc, statements, 60_000)?, 2_748_926);
    Ok(())
}

/// Parentheses are looked at in few passes, however deep they stand.
#[test]
fn reads_the_deepest_scripts(rt: HostRuntime) -> Result<(), Fail> {
    let open = ["SELECT ", "(", "1 FROM x1"];
    assert!(rt; says(&run_long(rt.alloc(), open, 4_000_000)?, 3, TOO_DEEP));
    let groups = ["SELECT 1 FROM x1 WHERE ", "(1 IN (", ""];
    assert!(rt; says(&run_long(rt.alloc(), groups, 500_000)?, 3, TOO_DEEP));
    Ok(())
}
