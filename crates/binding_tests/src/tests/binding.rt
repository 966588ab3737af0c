//! What statements are bound to.
ghost use Rattle.std.specs.Prelude.{◌≡◌, ◌<◌, length, true, false, IfOk, IfSome};
ghost use Rattle.schema_model.specs.PlainSchemas.{plain_schema};
ghost use Rattle.sql_tree.specs.Statements.{statement_tree};
ghost use Rattle.sql_bound.specs.Fits.{Fits};
ghost use Rattle.sql_bound.specs.Statements.{bound_of, needs_of};
ghost use Rattle.sql_bind.specs.Clauses.{sources_of};
ghost use Rattle.sql_bind.specs.Sources.{begins_left};

use super::shown::append_bound;
use bumpalo::Bump;
use schema_model::Schema;
use schema_read::read_dump;
use sql_bind::bind;
use sql_bound::Bound;
use sql_lex::lex;
use sql_parse::parse;
use sql_tree::Stmt;
use sql_value::{Bytes, Memory};
use std::alloc::Global;
use std::test::Fail;

const TABLES: &str = "
    CREATE TABLE x1(a, b, c);
    CREATE TABLE y1(a, d COLLATE NOCASE, id INTEGER PRIMARY KEY);
    CREATE TABLE r1(k, rowid);
    CREATE TABLE w1(a,,b);
    CREATE TABLE b(b BLOB COLLATE RTRIM);
    CREATE TABLE x(x TEXT COLLATE NOCASE);
    CREATE TABLE n(n NUMERIC);
    CREATE TABLE i(i INTEGER COLLATE RTRIM);
    CREATE TABLE r(r REAL);
    CREATE TABLE a(id INTEGER PRIMARY KEY);
    CREATE TABLE w(RowId TEXT);
    CREATE TABLE t('True' TEXT);
    CREATE TABLE d(X TEXT COLLATE RTRIM);";

/// Whether FROM begins with a table before which no LEFT JOIN stands.
pub(crate) fn is_bindable(stmt: &Stmt) -> bool
    ensures source { result ≡ true → 0 < length (sources_of (statement_tree stmt.now)) }
    ensures left { result ≡ true → begins_left (sources_of (statement_tree stmt.now)) ≡ false }
{
    match stmt {
        Stmt::Select(select) => match select.sources {
            [first, ..] => !first.left,
            [] => false,
        },
        Stmt::Update(update) => !update.source.left,
        Stmt::Delete(delete) => !delete.source.left,
    }
}

/// What a statement is bound to; none where it is no statement, or isn't bound.
pub(crate) fn bound_from<'p>(
    alloc: Global,
    arena: &'p Bump,
    schema: &Schema,
    text: &'p [u8],
) -> Result<Option<Bound<'p>>, Memory>
    ensures { IfOk result (λ found. IfSome found (λ bound.
        Fits (plain_schema schema.now) (bound_of bound) (needs_of bound))) }
{
    if text.len() > 10_000 {
        return Ok(None);
    }
    let tokens = lex(alloc, text)?;
    let run = tokens.as_slice();
    if run.len() > 10_000 {
        return Ok(None);
    }
    let Ok(stmt) = parse(alloc, arena, text, run) else {
        return Ok(None);
    };
    if !is_bindable(&stmt) {
        return Ok(None);
    }
    match bind(alloc, arena, schema, &stmt) {
        Ok(bound) => Ok(Some(bound)),
        Err(_) => Ok(None),
    }
}

/// Whether a statement is bound to this.
fn is_bound_to(alloc: Global, schema: &Schema, text: &[u8], want: &[u8]) -> Result<bool, Memory> {
    let arena = Bump::new(alloc);
    match bound_from(alloc, &arena, schema, text)? {
        Some(bound) => is_shown_as(alloc, &bound, want),
        None => Ok(false),
    }
}

fn is_shown_as(alloc: Global, bound: &Bound, want: &[u8]) -> Result<bool, Memory> {
    let mut shown = Bytes::new(alloc);
    append_bound(&mut shown, bound)?;
    Ok(shown.as_slice() == want)
}

/// A statement over the tables above a line, and behind `=>` its results, conjuncts, keys and cut, and
/// the columns that it needs of each table of FROM. `shown` has the letters; a line that begins with
/// `--` is a heading.
const STATEMENTS: &str = "\
-- a column by its name, alone or behind its table's, and the alias of the rowid
SELECT X FROM b, x => 1.0 ()(0)
SELECT D.x FROM x, d => 1.0 ()(0)
SELECT id FROM b, a => 1.rowid ()()
SELECT a.Id FROM b, a => 1.rowid ()()
SELECT B, [b], x1.b FROM x1 => 0.1 0.1 0.1 (1)
-- the rowid's names, where no table, another one or this one has such a column
SELECT RowId, OID, b._rowid_ FROM b => 0.rowid 0.rowid 0.rowid ()
SELECT rowid FROM b, w => 1.0 ()(0)
SELECT b.rowid, w.rowid FROM b, w => 0.rowid 1.0 ()(0)
SELECT rowid, oid FROM r1 => 0.1 0.rowid (1)
SELECT id, y1.oid FROM x1, y1 => 1.rowid 1.rowid ()()
SELECT rowid, oid, _ROWID_ FROM x1 => 0.rowid 0.rowid 0.rowid ()
-- TRUE and FALSE, where no table or one has such a column
SELECT TRUE, False FROM b, x => 1 0 ()()
SELECT TRUE FROM b, t => 1.0 ()(0)
-- an explicit collation before a column's own, and the left side before the right one
SELECT x = b FROM x, b => 0.0=1.0 --n (0)(0)
SELECT b <> x FROM x, b => 1.0<>0.0 --r (0)(0)
SELECT 1 < x FROM x => 1<0.0 T-n (0)
SELECT 1 > 1 FROM x => 1>1 --b ()
SELECT x = b COLLATE BINARY FROM x, b => 0.0=1.0:b --b (0)(0)
SELECT x COLLATE RTrim = b COLLATE nocase FROM x, b => 0.0:r=1.0:n --r (0)(0)
SELECT x = +(b COLLATE BINARY) FROM x, b => 0.0=+1.0:b -Tb (0)(0)
SELECT +x = b FROM x, b => +0.0=1.0 --n (0)(0)
SELECT x COLLATE binary = 1 FROM x, b => 0.0:b=1 -Tb (0)()
SELECT id = x FROM a, x => 0.rowid=1.0 -Nb ()(0)
-- IN converts its entries alone, and has the collation of its left side alone
SELECT x IN (1, i) FROM x, i => 0.0 in (1,1.0,) Tn (0)(0)
SELECT i NOT IN (x COLLATE binary) FROM x, i => 1.0 not in (0.0:b,) Nr (0)(0)
SELECT 1 IN (x) FROM x, i => 1 in (0.0,) -b (0)()
-- BETWEEN, its lower bound first
SELECT x BETWEEN 1 AND i FROM x, i => all (0.0>=1 -Tn,0.0<=1.0 N-n,) (0)(0)
SELECT i NOT BETWEEN x AND 1 FROM x, i => not all (1.0>=0.0 -Nr,1.0<=1 -Nr,) (0)(0)
-- the result list
SELECT * FROM x1 => 0.0 0.1 0.2 (012)
SELECT y1.*, x1.* FROM x1, y1 => 1.0 1.1 1.rowid 0.0 0.1 0.2 (012)(01)
SELECT *, * FROM r1 => 0.0 0.1 0.0 0.1 (01)
-- positions in ORDER BY
SELECT * FROM x1 ORDER BY 3 => 0.0 0.1 0.2 by 0.2 b (012)
SELECT a FROM x1 ORDER BY (1) DESC => 0.0 by 0.0 b- (0)
SELECT a FROM x1 ORDER BY -1 => 0.0 by ? b (0)
SELECT a FROM x1 ORDER BY +1 => 0.0 by +1 b (0)
-- aliases of results, which ORDER BY alone sees, and columns of its keys
SELECT b AS a, a AS q FROM x1 ORDER BY A => 0.1 0.0 by 0.1 b (01)
SELECT a AS z, b AS Z FROM x1 ORDER BY z => 0.0 0.1 by 0.0 b (01)
SELECT b AS a FROM x1 ORDER BY a COLLATE nocase DESC => 0.1 by 0.1:n n- (1)
SELECT d AS e FROM y1 ORDER BY e COLLATE binary => 0.1 by 0.1:b b (1)
SELECT b AS a FROM x1 ORDER BY x1.a => 0.1 by 0.0 b (01)
SELECT b AS a FROM x1 ORDER BY +a => 0.1 by +0.0 b (01)
SELECT d FROM y1 ORDER BY d => 0.1 by 0.1 n (1)
SELECT a FROM x1 ORDER BY b, c => 0.0 by 0.1 b by 0.2 b (012)
-- conjuncts: ON before WHERE, and ANDs and BETWEEN taken apart
SELECT c FROM x1 WHERE (a = 1 AND (b = 2 AND a < 3)) AND (b = 1 OR c = 1) => 0.2 & 0.0=1 --b & 0.1=2 --b & 0.0<3 --b & any (0.1=1 --b,0.2=1 --b,) (012)
SELECT c FROM x1 WHERE c BETWEEN 1 AND 2 AND c NOT BETWEEN 3 AND 4 => 0.2 & 0.2>=1 --b & 0.2<=2 --b & not all (0.2>=3 --b,0.2<=4 --b,) (2)
SELECT d FROM x1 JOIN y1 ON b = d WHERE x1.c IN (y1.a) => 1.1 & 0.1=1.1 --b & 0.2 in (1.0,) -b (12)(01)
-- the ON condition of a LEFT JOIN is owned by its item
SELECT c FROM x1 LEFT JOIN y1 ON b = d AND c < 1 WHERE y1.id = 2 => 0.2 & 0.1=1.1 --b 1 & 0.2<1 --b 1 & 1.rowid=2 -Nb (12)(1)
SELECT c FROM x1 LEFT OUTER JOIN y1 ON x1.a = 1 JOIN r1 ON k = d => 0.2 & 0.0=1 --b 1 & 2.0=1.1 --b (02)(1)(0)
SELECT 1 FROM x1 JOIN y1 ON k = 1, r1 => 1 & 2.0=1 --b ()()(0)
SELECT 1 FROM x1 LEFT JOIN y1 ON y1.a = TRUE LEFT JOIN r1 ON k = d WHERE c = 1 => 1 & 1.0=1 --b 1 & 2.0=1.1 --b 2 & 0.2=1 --b (2)(01)(0)
-- LIKE, which converts nothing when it is bound
SELECT x LIKE 1 FROM x => 0.0 like 1 (0)
SELECT 1 NOT LIKE x COLLATE binary FROM x => 1 not like 0.0:b (0)
SELECT (1 LIKE x COLLATE rtrim) = x FROM x => 1 like 0.0:r=0.0 T-r (0)
-- UPDATE and DELETE, which need all columns
UPDATE x1 SET a = 1, oid = c WHERE b = 2 => & 0.1=2 --b (012)
UPDATE y1 AS t SET id = t.d => (01)
DELETE FROM r1 WHERE k = 1 => & 0.0=1 --b (01)
DELETE FROM y1 => (01)
-- what is applied to the sides of =, for each affinity of both, and none
SELECT 1 = 1 FROM b, x, n, i, r => 1=1 --b ()()()()()
SELECT 1 = b FROM b, x, n, i, r => 1=0.0 --r (0)()()()()
SELECT 1 = x FROM b, x, n, i, r => 1=1.0 T-n ()(0)()()()
SELECT 1 = n FROM b, x, n, i, r => 1=2.0 N-b ()()(0)()()
SELECT 1 = i FROM b, x, n, i, r => 1=3.0 N-r ()()()(0)()
SELECT 1 = r FROM b, x, n, i, r => 1=4.0 N-b ()()()()(0)
SELECT b = 1 FROM b, x, n, i, r => 0.0=1 --r (0)()()()()
SELECT b = b FROM b, x, n, i, r => 0.0=0.0 --r (0)()()()()
SELECT b = x FROM b, x, n, i, r => 0.0=1.0 --r (0)(0)()()()
SELECT b = n FROM b, x, n, i, r => 0.0=2.0 N-r (0)()(0)()()
SELECT b = i FROM b, x, n, i, r => 0.0=3.0 N-r (0)()()(0)()
SELECT b = r FROM b, x, n, i, r => 0.0=4.0 N-r (0)()()()(0)
SELECT x = 1 FROM b, x, n, i, r => 1.0=1 -Tn ()(0)()()()
SELECT x = b FROM b, x, n, i, r => 1.0=0.0 --n (0)(0)()()()
SELECT x = x FROM b, x, n, i, r => 1.0=1.0 --n ()(0)()()()
SELECT x = n FROM b, x, n, i, r => 1.0=2.0 N-n ()(0)(0)()()
SELECT x = i FROM b, x, n, i, r => 1.0=3.0 N-n ()(0)()(0)()
SELECT x = r FROM b, x, n, i, r => 1.0=4.0 N-n ()(0)()()(0)
SELECT n = 1 FROM b, x, n, i, r => 2.0=1 -Nb ()()(0)()()
SELECT n = b FROM b, x, n, i, r => 2.0=0.0 -Nb (0)()(0)()()
SELECT n = x FROM b, x, n, i, r => 2.0=1.0 -Nb ()(0)(0)()()
SELECT n = n FROM b, x, n, i, r => 2.0=2.0 --b ()()(0)()()
SELECT n = i FROM b, x, n, i, r => 2.0=3.0 --b ()()(0)(0)()
SELECT n = r FROM b, x, n, i, r => 2.0=4.0 --b ()()(0)()(0)
SELECT i = 1 FROM b, x, n, i, r => 3.0=1 -Nr ()()()(0)()
SELECT i = b FROM b, x, n, i, r => 3.0=0.0 -Nr (0)()()(0)()
SELECT i = x FROM b, x, n, i, r => 3.0=1.0 -Nr ()(0)()(0)()
SELECT i = n FROM b, x, n, i, r => 3.0=2.0 --r ()()(0)(0)()
SELECT i = i FROM b, x, n, i, r => 3.0=3.0 --r ()()()(0)()
SELECT i = r FROM b, x, n, i, r => 3.0=4.0 --r ()()()(0)(0)
SELECT r = 1 FROM b, x, n, i, r => 4.0=1 -Nb ()()()()(0)
SELECT r = b FROM b, x, n, i, r => 4.0=0.0 -Nb (0)()()()(0)
SELECT r = x FROM b, x, n, i, r => 4.0=1.0 -Nb ()(0)()()(0)
SELECT r = n FROM b, x, n, i, r => 4.0=2.0 --b ()()(0)()(0)
SELECT r = i FROM b, x, n, i, r => 4.0=3.0 --b ()()()(0)(0)
SELECT r = r FROM b, x, n, i, r => 4.0=4.0 --b ()()()()(0)
-- the cut: of LIMIT's two numbers the first is the offset
SELECT a FROM x1 LIMIT 3, 4 => 0.0 limit 4 offset 3 (0)
SELECT a FROM x1 LIMIT 5 => 0.0 limit 5 (0)
SELECT a FROM x1 LIMIT 5 OFFSET 6 => 0.0 limit 5 offset 6 (0)";

fn comes_true(alloc: Global, schema: &Schema, row: &str) -> Result<bool, Memory> {
    match row.split_once(" => ") {
        Some((text, want)) => is_bound_to(alloc, schema, text.as_bytes(), want.as_bytes()),
        None => Ok(row.starts_with("-- ")),
    }
}

#[test]
fn statements_are_bound_to_these(rt: HostRuntime) -> Result<(), Fail> {
    let dump = read_dump(rt.alloc(), TABLES.as_bytes())?;
    for row in STATEMENTS.lines() {
        assert!(rt; comes_true(rt.alloc(), &dump.schema, row)?, "{row}");
    }
    Ok(())
}
