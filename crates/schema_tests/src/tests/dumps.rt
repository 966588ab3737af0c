//! Dumps, and what is read of them.
use schema_model::{Column, Index, Row, Schema, Table, conforms};
use schema_read::{Dump, Given, read_dump};
use sql_value::{Affinity, Bytes, Collation, Memory, Value};
use std::alloc::Global;
use std::test::Fail;

/// Writes what a dump holds, in the form of the table below: a part a line.
#[derive(Drop)]
struct Summary {
    alloc: Global,
    written: Bytes,
}

fn add(summary: &mut Summary, piece: &[u8]) -> Result<(), Memory> {
    summary.written.append(piece)
}

fn add_number(summary: &mut Summary, number: i64) -> Result<(), Memory> {
    let Ok(text) = format!(in summary.alloc; "{number}") else {
        return Err(Memory);
    };
    summary.written.append(text.as_bytes())
}

fn collation(coll: Collation) -> &'static [u8] {
    match coll {
        Collation::Binary => b"b",
        Collation::Nocase => b"n",
        Collation::Rtrim => b"r",
    }
}

fn affinity(aff: Affinity) -> &'static [u8] {
    match aff {
        Affinity::Integer => b"I",
        Affinity::Real => b"R",
        Affinity::Numeric => b"N",
        Affinity::Text => b"T",
        Affinity::Blob => b"B",
    }
}

fn add_column(summary: &mut Summary, column: &Column) -> Result<(), Memory> {
    add(summary, column.name.as_slice())?;
    add(summary, b":")?;
    add(summary, affinity(column.affinity))?;
    add(summary, collation(column.coll))
}

fn add_table(summary: &mut Summary, table: &Table) -> Result<(), Memory> {
    add(summary, b"T ")?;
    add(summary, table.name.as_slice())?;
    add(summary, b"(")?;
    for (number, column) in table.columns.as_slice().iter().enumerate() {
        if number > 0 {
            add(summary, b",")?;
        }
        add_column(summary, column)?;
    }
    add(summary, b")")?;
    if let Some(alias) = table.alias {
        add(summary, b"@")?;
        add_number(summary, alias as i64)?;
    }
    add(summary, b"\n")
}

fn add_value(summary: &mut Summary, value: &Value) -> Result<(), Memory> {
    match value {
        Value::Null => add(summary, b"N"),
        Value::Int(number) => {
            add(summary, b"i")?;
            add_number(summary, *number)
        }
        Value::Dec(units) => {
            add(summary, b"d")?;
            add_number(summary, *units)
        }
        Value::Text(bytes) => {
            add(summary, b"t")?;
            add(summary, bytes.as_slice())
        }
        Value::Blob(bytes) => {
            add(summary, b"b")?;
            add(summary, bytes.as_slice())
        }
    }
}

fn add_row(summary: &mut Summary, row: &Row) -> Result<(), Memory> {
    add(summary, b"R ")?;
    add_number(summary, row.rowid)?;
    add(summary, b"=")?;
    for (number, value) in row.values.as_slice().iter().enumerate() {
        if number > 0 {
            add(summary, b",")?;
        }
        add_value(summary, value)?;
    }
    add(summary, b"\n")
}

fn add_index(summary: &mut Summary, index: &Index) -> Result<(), Memory> {
    add(summary, b"I ")?;
    add(summary, index.name.as_slice())?;
    add(summary, b" ")?;
    add_number(summary, index.table as i64)?;
    add(summary, b"(")?;
    for (number, column) in index.columns.as_slice().iter().enumerate() {
        if number > 0 {
            add(summary, b",")?;
        }
        add_number(summary, column.column as i64)?;
        add(summary, collation(column.coll))?;
        add(summary, if column.desc { b"-" } else { b"" })?;
    }
    add(summary, b")")?;
    add(summary, if index.unique { b" unique" } else { b"" })?;
    add(summary, if index.usable { b"" } else { b" unusable" })?;
    add(summary, b"\n")
}

fn add_tables(summary: &mut Summary, dump: &Dump) -> Result<(), Memory> {
    for (number, rows) in dump.rows.as_slice().iter().enumerate() {
        if number < dump.schema.table_count() as usize {
            add_table(summary, dump.schema.table(number as u32))?;
        }
        for row in rows.as_slice() {
            add_row(summary, row)?;
        }
    }
    Ok(())
}

fn add_schema(summary: &mut Summary, schema: &Schema) -> Result<(), Memory> {
    if schema.unread_count() > 0 {
        add(summary, b"U ")?;
        add_number(summary, schema.unread_count() as i64)?;
        add(summary, b"\n")?;
    }
    for number in 0..schema.index_count() {
        add_index(summary, schema.index(number))?;
    }
    Ok(())
}

fn add_given(summary: &mut Summary, given: &Given) -> Result<(), Memory> {
    add(summary, b"G ")?;
    add(summary, given.table.as_slice())?;
    add(summary, b"|")?;
    match &given.index {
        Some(index) => add(summary, index.as_slice())?,
        None => add(summary, b"-")?,
    }
    add(summary, b"|")?;
    add(summary, given.stat.as_slice())?;
    add(summary, b"\n")
}

fn summary_of(alloc: Global, dump: &Dump) -> Result<Bytes, Memory> {
    let mut summary = Summary {
        alloc,
        written: Bytes::new(alloc),
    };
    add_tables(&mut summary, dump)?;
    add_schema(&mut summary, &dump.schema)?;
    for given in dump.given.as_slice() {
        add_given(&mut summary, given)?;
    }
    add(&mut summary, b"P ")?;
    add_number(&mut summary, (dump.statements_passed % 1000) as i64)?;
    add(&mut summary, b" ")?;
    add_number(&mut summary, (dump.rows_passed % 1000) as i64)?;
    Ok(summary.written)
}

/// Dumps, an empty line between two, and behind `=>` what is read of each, a part a line.
///
/// - T a table: each column with its affinity and its collation, and behind @ the number of the one
///   that is the rowid.
/// - R a row: its rowid and its values.
/// - U how many tables aren't read.
/// - I an index: its table and columns by number, each with its collation, - where it falls.
/// - G figures: a table, an index or -, and their text.
/// - P how many statements and rows were passed over.
///
/// An affinity is I INTEGER, R REAL, N NUMERIC, T TEXT or B BLOB, and a collation b BINARY,
/// n NOCASE or r RTRIM. A value is N NULL, i an integer, d a decimal in units of 1/10000, t a text
/// or b a blob with its bytes as they are.
const DUMPS: &str = "\
CREATE TABLE t(a INT, b); INSERT INTO t VALUES('7',x'00'); INSERT INTO t VALUES(1);
=> T t(a:Ib,b:Bb)
R 1=i7,b\0
P 0 1

CREATE TABLE t(id INTEGER PRIMARY KEY, a UNIQUE); INSERT INTO t VALUES(5,1);
INSERT INTO t VALUES(NULL,2);
=> T t(id:Ib,a:Bb)@0
R 5=i5,i1
R 6=i6,i2
I sqlite_autoindex_t_1 0(1b) unique
P 0 0

CREATE TABLE t(a) WITHOUT ROWID; INSERT INTO t VALUES(1);
=> U 1
P 1 0

CREATE TABLE \"t\"(\"id\" INTEGER, \"a\", PRIMARY KEY(\"id\" AUTOINCREMENT));
INSERT INTO t VALUES(4,'x');
=> T t(id:Ib,a:Bb)@0
R 4=i4,tx
P 0 0

CREATE TABLE t(a); CREATE TABLE T(b); CREATE TABLE sqlite_x(c); CREATE VIEW t AS SELECT 1;
=> T t(a:Bb)
P 3 0

CREATE TEMP TABLE IF NOT EXISTS main.'t'([a b] VARCHAR(1,2) COLLATE nocase COLLATE rtrim,
c REAL DEFAULT (1+(2)) CHECK(c>0))
=> T t(a b:Tr,c:Rb)
P 0 0

CREATE TABLE t(a COLLATE french); CREATE TABLE u(a COLLATE french COLLATE binary);
CREATE TABLE v(a, b AS (a)); CREATE TABLE w(a, A);
=> T u(a:Bb)
U 3
P 0 0

CREATE TABLE t(a INTEGER PRIMARY KEY DESC, b); INSERT INTO t VALUES(7,8);
=> T t(a:Ib,b:Bb)
R 1=i7,i8
I sqlite_autoindex_t_1 0(0b-) unique
P 0 0

CREATE TABLE t(a INTEGER, b, PRIMARY KEY(a DESC)); INSERT INTO t VALUES('3',8);
INSERT INTO t VALUES(NULL,1); INSERT INTO t VALUES(1.5,1);
=> T t(a:Ib,b:Bb)@0
R 3=i3,i8
R 4=i4,i1
P 0 1

CREATE TABLE t(a PRIMARY KEY, b PRIMARY KEY); CREATE TABLE u(a, UNIQUE(b));
CREATE TABLE v(a, UNIQUE(a COLLATE x));
=> U 3
P 0 0

CREATE TABLE t(a UNIQUE, b, UNIQUE(a DESC), CONSTRAINT k UNIQUE(a, b COLLATE NOCASE DESC)
ON CONFLICT IGNORE, UNIQUE(a, b), UNIQUE(a+1), PRIMARY KEY(b))
=> T t(a:Bb,b:Bb)
I sqlite_autoindex_t_1 0(0b) unique
I sqlite_autoindex_t_2 0(0b,1n-) unique
I sqlite_autoindex_t_3 0(0b,1b) unique
I sqlite_autoindex_t_4 0(1b) unique
P 0 0

CREATE TABLE t(a ANY) STRICT; CREATE TABLE u(a ANY); CREATE TABLE v(a INT) STRICT, STRICT;
CREATE TABLE w(a) STRICT,;
=> T u(a:Nb)
T v(a:Ib)
U 2
P 0 0

CREATE VIRTUAL TABLE IF NOT EXISTS v USING fts5(x); CREATE TEMPORARY VIEW w AS SELECT 1;
CREATE TABLE x AS SELECT 1; INSERT INTO v VALUES(1);
=> U 3
P 1 0

CREATE TABLE t(a, b); CREATE UNIQUE INDEX i ON t(b DESC, A COLLATE rtrim);
CREATE INDEX j ON t(a) WHERE a>1; CREATE INDEX k ON t(a+1); CREATE INDEX I ON t(a);
CREATE INDEX l ON nope(a); CREATE INDEX m ON t(zz);
=> T t(a:Bb,b:Bb)
I i 0(1b-,0r) unique
I j 0() unusable
I k 0() unusable
I m 0() unusable
P 2 0

CREATE TABLE t(a); INSERT INTO t VALUES(replace('a','b','c')); INSERT INTO t VALUES(1e5);
INSERT INTO t VALUES(-1.50000); INSERT INTO t VALUES(+.5);
INSERT INTO t VALUES(99999999999999999999); INSERT INTO t VALUES(-9223372036854775808);
INSERT INTO t VALUES(9223372036854775808); INSERT INTO t VALUES('it''s');
INSERT INTO t VALUES(1,2); INSERT INTO t(a) VALUES(1); INSERT INTO t VALUES(1),(2);
=> T t(a:Bb)
R 1=d-15000
R 2=d5000
R 3=i-9223372036854775808
R 4=tit's
P 2 5

CREATE TABLE t(id INTEGER PRIMARY KEY, a); INSERT INTO t VALUES(9223372036854775807,1);
INSERT INTO t VALUES(NULL,2); INSERT INTO t VALUES(-5,3); INSERT INTO t VALUES(-5,4);
INSERT INTO t VALUES('x',5); INSERT INTO t VALUES(2.0,6);
=> T t(id:Ib,a:Bb)@0
R -5=i-5,i3
R 2=i2,i6
R 9223372036854775807=i9223372036854775807,i1
P 0 3

CREATE TABLE t(a REAL, b TEXT, c NUMERIC, d BLOB); INSERT INTO t VALUES(1,1,'1.0','1');
INSERT INTO t VALUES('1.5',1.50,1.25,x'4142');
=> T t(a:Rb,b:Tb,c:Nb,d:Bb)
R 1=d10000,t1,i1,t1
R 2=d15000,t1.5,d12500,bAB
P 0 0

INSERT INTO sqlite_stat1 VALUES('t','i','10 1'); INSERT INTO sqlite_stat1 VALUES('t',NULL,'10');
INSERT INTO sqlite_stat1 VALUES('t',1,'10'); ANALYZE sqlite_schema;
=> G t|i|10 1
G t|-|10
P 2 0

CREATE TABLE t(a); CREATE TRIGGER r AFTER INSERT ON t BEGIN INSERT INTO t VALUES(1);
DELETE FROM t; END; INSERT INTO t VALUES();
=> T t(a:Bb)
P 1 1

CREATE TABLE t(); CREATE TABLE u(a,,b); CREATE TABLE v(CHECK(1));
CREATE TABLE sqlite_autoindex_w_1(a); CREATE TABLE w(a UNIQUE, b UNIQUE);
=> T v()
T w(a:Bb,b:Bb)
U 2
I sqlite_autoindex_w_1 1(0b) unique
I sqlite_autoindex_w_2 1(1b) unique
P 1 0

CREATE TABLE t(id INTEGER PRIMARY KEY UNIQUE, a);
CREATE TABLE u(a INT PRIMARY KEY, b, PRIMARY KEY(b)); CREATE TABLE v(a INT PRIMARY KEY);
=> T t(id:Ib,a:Bb)@0
T v(a:Ib)
U 1
I sqlite_autoindex_v_1 1(0b) unique
P 0 0

CREATE TABLE t(a INTEGER GENERATED ALWAYS AS (1)); CREATE TABLE u(a DEFAULT (CAST(1 AS INT)));
CREATE INDEX n ON u(a COLLATE french); CREATE INDEX main.o ON u(a ASC);
CREATE INDEX sqlite_i ON u(a);
=> T u(a:Bb)
U 1
I n 0() unusable
I o 0(0b)
P 1 0

PRAGMA foreign_keys=OFF;
BEGIN TRANSACTION;
CREATE TABLE customer(id INTEGER PRIMARY KEY AUTOINCREMENT,
  name TEXT COLLATE NOCASE NOT NULL, city TEXT);
INSERT INTO customer VALUES(1,'Ada','Bern');
CREATE TABLE item(id INTEGER PRIMARY KEY, title TEXT, price REAL);
INSERT INTO item VALUES(1,'cup',4.5);
CREATE TABLE sale(id INTEGER PRIMARY KEY,
  customer_id INT REFERENCES customer(id), item_id INT, day TEXT);
INSERT INTO sale VALUES(1,1,1,'2024-01-02');
DELETE FROM sqlite_sequence;
INSERT INTO sqlite_sequence VALUES('customer',1);
CREATE INDEX sale_day ON sale(day);
CREATE TRIGGER tg AFTER INSERT ON sale BEGIN UPDATE item SET price=1; END;
CREATE VIEW v AS SELECT name FROM customer;
COMMIT;
=> T customer(id:Ib,name:Tn,city:Tb)@0
R 1=i1,tAda,tBern
T item(id:Ib,title:Tb,price:Rb)@0
R 1=i1,tcup,d45000
T sale(id:Ib,customer_id:Ib,item_id:Ib,day:Tb)@0
R 1=i1,i1,i1,t2024-01-02
U 1
I sale_day 2(3b)
P 6 0

CREATE TABLE t(a, b INT); create temp table if not exists main.u(id INTEGER PRIMARY KEY,
b UNIQUE, CHECK(b > 0)); CREATE TABLE v(a, b, UNIQUE(b COLLATE nocase DESC, a),
FOREIGN KEY(a) REFERENCES u); CREATE TABLE 'select'(\"a b\" INTEGER, PRIMARY KEY(\"a b\" DESC))
STRICT; CREATE VIEW w(a);
=> T t(a:Bb,b:Ib)
T u(id:Ib,b:Bb)@0
T v(a:Bb,b:Bb)
T select(a b:Ib)@0
U 1
I sqlite_autoindex_u_1 1(1b) unique
I sqlite_autoindex_v_1 2(1n-,0b) unique
P 0 0

CREATE TABLE t(a, b); CREATE INDEX i ON t(a); CREATE UNIQUE INDEX IF NOT EXISTS main.j
ON t(a DESC, (b)) WHERE a > 1; CREATE INDEX k ON t(a) x; CREATE INDEX l t(a);
=> T t(a:Bb,b:Bb)
I i 0(0b)
I j 0() unique unusable
P 2 0";

/// What the shell of SQLite 3.40.1 writes for two tables, an index, a view and a trigger.
const SHELL_DUMP: &[u8] = b"PRAGMA foreign_keys=OFF;
BEGIN TRANSACTION;
CREATE TABLE note(id INTEGER PRIMARY KEY, body TEXT, \"a \"\"b\"\"\" BLOB, worth REAL, kept);
INSERT INTO note VALUES(-3,replace('two\\nlines','\\n',char(10)),NULL,-2.25,'7');
INSERT INTO note VALUES(1,'it''s \"so\"',X'00ff41',1.5,NULL);
INSERT INTO note VALUES(7,'',X'',12.0,-9223372036854775808);
INSERT INTO note VALUES(8,NULL,NULL,-0.5,3);
INSERT INTO note VALUES(9,'end;--',NULL,0.12345670000000000254,2.5);
CREATE TABLE log(note INT REFERENCES note(id), at TEXT COLLATE NOCASE, UNIQUE(at, note));
INSERT INTO log VALUES(1,'Mon');
INSERT INTO log VALUES(7,NULL);
CREATE INDEX log_at ON log(at DESC);
CREATE VIEW long AS SELECT body FROM note WHERE worth > 1;
CREATE TRIGGER told AFTER INSERT ON log BEGIN UPDATE note SET worth = 0; DELETE FROM log; END;
COMMIT;
";

/// The rows -3, of a call of `replace`, and 9, of 20 digits behind the point, are passed over.
const SHELL_SUMMARY: &[u8] = b"T note(id:Ib,body:Tb,a \"b\":Bb,worth:Rb,kept:Bb)@0
R 1=i1,tit's \"so\",b\0\xffA,d15000,N
R 7=i7,t,b,d120000,i-9223372036854775808
R 8=i8,N,N,d-5000,i3
T log(note:Ib,at:Tn)
R 1=i1,tMon
R 2=i7,N
U 1
I sqlite_autoindex_log_1 1(1n,0b) unique
I log_at 1(1n-)
P 4 2";

/// Whether this is read of a dump, and its rows are a database.
fn reads_as(alloc: Global, text: &[u8], want: &[u8]) -> Result<bool, Memory> {
    if text.len() > 10_000 {
        return Ok(false);
    }
    let Ok(dump) = read_dump(alloc, text) else {
        return Ok(false);
    };
    let found = summary_of(alloc, &dump)?;
    Ok(found.as_slice() == want && conforms(&dump.schema, &dump.rows))
}

fn is_read(alloc: Global, block: &str) -> Result<bool, Memory> {
    match block.split_once("\n=> ") {
        Some((text, want)) => reads_as(alloc, text.as_bytes(), want.as_bytes()),
        None => Ok(false),
    }
}

#[test]
fn dumps_are_read(rt: HostRuntime) -> Result<(), Fail> {
    for block in DUMPS.split("\n\n") {
        assert!(rt; is_read(rt.alloc(), block)?, "{block}");
    }
    assert!(rt; reads_as(rt.alloc(), SHELL_DUMP, SHELL_SUMMARY)?);
    Ok(())
}
