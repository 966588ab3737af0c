//! Figures of dumps: what is counted, what rows of sqlite_stat1 give, and what is taken where there
//! is neither.
ghost use Rattle.std.specs.Prelude.{◌≤◌};
ghost use Rattle.schema_model.specs.Databases.{IsDatabase};

use schema_model::Schema;
use schema_read::{Dump, read_dump};
use sql_value::{Bytes, Memory, read_digits};
use stat_figures::{Figures, figures, given_figures, log_add, log_est, stat1_text};
use std::alloc::Global;
use std::test::Fail;

fn add_number(alloc: Global, text: &mut Bytes, number: i32) -> Result<(), Memory> {
    let Ok(digits) = format!(in alloc; "{number}") else {
        return Err(Memory);
    };
    text.append(digits.as_bytes())
}

/// What sqlite_stat1 would have of an index, and its figures.
fn add_index(
    alloc: Global,
    text: &mut Bytes,
    schema: &Schema,
    figures: &Figures,
    index: u32,
) -> Result<(), Memory> {
    if index >= schema.index_count() {
        return Ok(());
    }
    let columns = schema.index(index).columns.as_slice().len();
    if columns > 2_000 {
        return Ok(());
    }
    let stat = stat1_text(alloc, figures, index)?;
    text.append(stat.as_slice())?;
    text.append(b" =")?;
    for count in 0..columns + 1 {
        text.push(b' ')?;
        add_number(alloc, text, figures.index_rows(index, count))?;
    }
    text.append(if figures.unordered(index) {
        b" unordered"
    } else {
        b""
    })
}

fn summary_of(alloc: Global, schema: &Schema, figures: &Figures) -> Result<Bytes, Memory> {
    let mut text = Bytes::new(alloc);
    for table in 0..schema.table_count() {
        if table > 0 {
            text.push(b' ')?;
        }
        add_number(alloc, &mut text, figures.table_rows(table))?;
    }
    for index in 0..schema.index_count() {
        text.push(b'\n')?;
        add_index(alloc, &mut text, schema, figures, index)?;
    }
    Ok(text)
}

/// Figures by a percentage, or by the word `given` and one.
fn figures_by(alloc: Global, dump: &Dump, how: &str) -> Result<Option<Figures>, Memory>
    requires { IsDatabase dump.now.schema dump.now.rows }
{
    let (is_given, digits) = match how.strip_prefix("given ") {
        Some(digits) => (true, digits),
        None => (false, how),
    };
    let Some(percent) = read_digits(100, digits.as_bytes()) else {
        return Ok(None);
    };
    if percent > 100 {
        return Ok(None);
    }
    let percent = percent as u8;
    if is_given {
        let own = dump.schema.index_count();
        let held = given_figures(alloc, &dump.schema, &dump.rows, percent, &dump.given, own)?;
        return Ok(Some(held));
    }
    let held = figures(alloc, &dump.schema, &dump.rows, percent)?;
    Ok(Some(held))
}

fn is_told(alloc: Global, dump: &Dump, told: &str) -> Result<bool, Memory>
    requires { IsDatabase dump.now.schema dump.now.rows }
{
    let Some((how, want)) = told.split_once(": ") else {
        return Ok(false);
    };
    let Some(held) = figures_by(alloc, dump, how)? else {
        return Ok(false);
    };
    let found = summary_of(alloc, &dump.schema, &held)?;
    Ok(found.as_slice() == want.as_bytes())
}

fn are_told(alloc: Global, block: &str) -> Result<bool, Memory> {
    let Some((text, told)) = block.split_once("\n=> ") else {
        return Ok(false);
    };
    if text.len() > 10_000 {
        return Ok(false);
    }
    let Ok(dump) = read_dump(alloc, text.as_bytes()) else {
        return Ok(false);
    };
    for each in told.split("\n=> ") {
        if !is_told(alloc, &dump, each)? {
            return Ok(false);
        }
    }
    Ok(true)
}

/// Dumps, an empty line between two, and behind each `=>` the percentage that is sampled, with the
/// word `given` where rows of sqlite_stat1 are taken; the figure of each table; and in a line for
/// each index what sqlite_stat1 would have of it, its figures, and whether it is unordered. All was
/// worked out by another reading of the rules.
const DUMPS: &str = "\
CREATE TABLE x1(a,b,c); CREATE INDEX i ON x1(a); INSERT INTO x1 VALUES(1,0,0);
INSERT INTO x1 VALUES(1,0,0); INSERT INTO x1 VALUES(2,0,0); INSERT INTO x1 VALUES(1,0,0);
=> 100: 20
4 2 = 20 10
=> 50: 10
2 2 = 10 10
=> 0: 200
default = 200 33

CREATE TABLE x1(a,b,c); CREATE INDEX i1 ON x1(a); ANALYZE sqlite_schema;
INSERT INTO sqlite_stat1 VALUES('x1','i1','1000 10');
=> given 100: 99
1000 10 = 99 33
=> 100: 200
default = 200 33

CREATE TABLE x1(a,b,c); CREATE INDEX i1 ON x1(a);
INSERT INTO sqlite_stat1 VALUES('x1','i1','1000 10 unordered');
=> given 100: 99
1000 10 = 99 33 unordered

CREATE TABLE x1(a,b,c); CREATE INDEX i1 ON x1(a);
INSERT INTO sqlite_stat1 VALUES('x1','i1','1000');
=> given 100: 200
default = 200 33

CREATE TABLE s(a); CREATE INDEX s1 ON s(a); INSERT INTO s VALUES(5);
CREATE TABLE t(a); CREATE INDEX t1 ON t(a); INSERT INTO t VALUES(5); INSERT INTO t VALUES(6);
CREATE TABLE u(a); CREATE INDEX u1 ON u(a); INSERT INTO u VALUES(1); INSERT INTO u VALUES(2);
INSERT INTO u VALUES(2);
CREATE TABLE v(a); CREATE INDEX v1 ON v(a); INSERT INTO v VALUES(7); INSERT INTO v VALUES(7);
INSERT INTO v VALUES(1); INSERT INTO v VALUES(1); INSERT INTO v VALUES(1); INSERT INTO v VALUES(9);
INSERT INTO v VALUES(NULL);
=> 0: 200 200 200 200
default = 200 33
default = 200 33
default = 200 33
default = 200 33
=> 1: 200 200 200 200
default = 200 33
default = 200 33
default = 200 33
default = 200 33
=> 50: 200 0 0 16
default = 200 33
1 1 = 0 0
1 1 = 0 0
3 1 = 16 0
=> 99: 200 0 10 26
default = 200 33
1 1 = 0 0
2 2 = 10 10
6 2 = 26 10
=> 100: 0 10 16 28
1 1 = 0 0
2 1 = 10 0
3 2 = 16 10
7 2 = 28 10

CREATE TABLE t(a, b, c, d, e, f, g, UNIQUE(a), UNIQUE(a, b)); CREATE INDEX i ON t(a);
CREATE INDEX j ON t(a, b, c, d, e, f, g); CREATE UNIQUE INDEX k ON t(a, b, c, d, e, f, g);
CREATE INDEX l ON t(a + 1);
=> 100: 200
default = 200 0
default = 200 33 0
default = 200 33
default = 200 33 32 30 28 27 23 23
default = 200 33 32 30 28 27 23 0
default = 200
=> given 100: 200
default = 200 0
default = 200 33 0
default = 200 33
default = 200 33 32 30 28 27 23 23
default = 200 33 32 30 28 27 23 0
default = 200

CREATE TABLE t(a TEXT COLLATE NOCASE, b, c); CREATE INDEX n ON t(a);
CREATE INDEX b ON t(a COLLATE BINARY); CREATE INDEX r ON t(a COLLATE RTRIM DESC, b DESC);
CREATE INDEX m ON t(b, a);
INSERT INTO t VALUES('a',NULL,1); INSERT INTO t VALUES('A',NULL,2); INSERT INTO t VALUES('a ',1,3);
INSERT INTO t VALUES(NULL,1.0,4); INSERT INTO t VALUES(NULL,'1',5);
INSERT INTO t VALUES(NULL,x'31',6); INSERT INTO t VALUES('b',0,7); INSERT INTO t VALUES('B',0,8);
INSERT INTO t VALUES('B',0,9); INSERT INTO t VALUES('B',1,10); INSERT INTO t VALUES('A ',1,11);
=> 100: 35
11 3 = 35 16
11 2 = 35 10
11 3 2 = 35 16 10
11 3 2 = 35 16 10
=> 60: 26
6 2 = 26 10
6 2 = 26 10
6 2 1 = 26 10 0
6 2 2 = 26 10 10

CREATE TABLE \"Big Table\"(a, b); CREATE INDEX ia ON \"Big Table\"(a);
CREATE INDEX ib ON \"Big Table\"(a, b);
CREATE TABLE u(a); CREATE INDEX iu ON u(a); CREATE TABLE w(a); CREATE INDEX iw ON w(a + 1);
INSERT INTO \"Big Table\" VALUES(1,1); INSERT INTO u VALUES(1);
INSERT INTO sqlite_stat1 VALUES('BIG TABLE','IB','64 8 2 sz=9 unordered noskipscan');
INSERT INTO sqlite_stat1 VALUES('big table','ib','32 4 x');
INSERT INTO sqlite_stat1 VALUES('u','ia','5 5');
INSERT INTO sqlite_stat1 VALUES('u','iu','9223372036854775808 1');
INSERT INTO sqlite_stat1 VALUES('U','Iu','9223372036854775807 0001');
INSERT INTO sqlite_stat1 VALUES('u','iu','7  1');
INSERT INTO sqlite_stat1 VALUES('u',NULL,'3 and more');
INSERT INTO sqlite_stat1 VALUES('u',NULL,'3,4'); INSERT INTO sqlite_stat1 VALUES('w','iw','9');
INSERT INTO sqlite_stat1 VALUES('nope',NULL,'9');
=> given 100: 60 16 200
1 1 = 0 0
64 8 2 = 60 30 10 unordered
9223372036854775807 1 = 629 0
default = 200
=> 100: 0 0 200
1 1 = 0 0
1 1 1 = 0 0 0
1 1 = 0 0
default = 200

CREATE TABLE t(a); CREATE INDEX i ON t(a);
INSERT INTO sqlite_stat1 VALUES('t','i','8 4 unordered');
INSERT INTO sqlite_stat1 VALUES('t','i','16 2'); INSERT INTO sqlite_stat1 VALUES('t','i','16');
INSERT INTO sqlite_stat1 VALUES('t',NULL,'100'); INSERT INTO sqlite_stat1 VALUES('t',NULL,'200');
=> given 100: 76
16 2 = 40 10

CREATE TABLE t(a);
=> 100: 200
=> given 0: 200";

#[test]
fn figures_are_told(rt: HostRuntime) -> Result<(), Fail> {
    for block in DUMPS.split("\n\n") {
        assert!(rt; are_told(rt.alloc(), block)?, "{block}");
    }
    Ok(())
}

#[test]
fn logarithms_are_told(rt: HostRuntime) -> Result<(), Fail> {
    assert!(rt; log_est(0) == 0 && log_est(1) == 0 && log_est(2) == 10 && log_est(3) == 16);
    assert!(rt; log_est(4) == 20 && log_est(10) == 33 && log_est(20) == 43 && log_est(100) == 66);
    assert!(rt; log_est(1000) == 99 && log_est(1048576) == 200 && log_est(u64::MAX) == 639);
    assert!(rt; log_add(33, 33) == 43 && log_add(40, 33) == 47 && log_add(-7, 43) == 43);
    assert!(rt; log_add(-20, -69) == -19 && log_add(0, 18) == 22 && log_add(25, 0) == 27);
    Ok(())
}
