//! Which conjunct serves which column.
use super::binding::bound_from;
use super::shown::{affinity_letter, append_digit, append_expr, collation_letter};
use bumpalo::Bump;
use schema_model::Schema;
use schema_read::read_dump;
use sql_bound::KeyExpr;
use sql_value::{Bytes, Memory};
use std::alloc::Global;
use std::test::Fail;
use where_terms::{ColumnTerms, ItemTerms, Term, TermKind, terms};

const TABLES: &str = "
    CREATE TABLE x1(a, b, c);
    CREATE TABLE t(a INT, d);
    CREATE TABLE u(b INT, e);
    CREATE TABLE n(a TEXT COLLATE NOCASE, d);
    CREATE TABLE s(b TEXT, e);
    CREATE TABLE i(n INTEGER, q);
    CREATE TABLE k(id INTEGER PRIMARY KEY, a);";

/// A key, and what is applied to it.
fn append_key(shown: &mut Bytes, key: &KeyExpr) -> Result<(), Memory> {
    append_expr(shown, key.expr)?;
    shown.push(affinity_letter(key.conv))?;
    shown.push(b' ')
}

fn append_kind(shown: &mut Bytes, kind: &TermKind) -> Result<(), Memory> {
    match kind {
        TermKind::Equal(key) => {
            shown.append(b"=")?;
            append_key(shown, key)
        }
        TermKind::OneOf(keys) => {
            shown.append(b"in ")?;
            for key in keys.keys {
                append_key(shown, key)?;
            }
            Ok(())
        }
        TermKind::IsNull => shown.append(b"null "),
        TermKind::Low(key, inclusive) => {
            shown.append(if *inclusive { b">=" } else { b">" })?;
            append_key(shown, key)
        }
        TermKind::High(key, inclusive) => {
            shown.append(if *inclusive { b"<=" } else { b"<" })?;
            append_key(shown, key)
        }
    }
}

/// A term, its conjunct or a `~`, its collation, and the items that its keys name as a number.
fn append_term(shown: &mut Bytes, term: &Term) -> Result<(), Memory> {
    append_kind(shown, &term.kind)?;
    match term.conjunct {
        Some(number) => append_digit(shown, number)?,
        None => shown.push(b'~')?,
    }
    shown.push(collation_letter(term.coll))?;
    append_digit(shown, (term.others % 10) as u32)?;
    shown.append(b", ")
}

fn append_terms(shown: &mut Bytes, list: &[Term]) -> Result<(), Memory> {
    for term in list {
        append_term(shown, term)?;
    }
    Ok(())
}

/// The column's number, or `rowid`, and its terms.
fn append_column(shown: &mut Bytes, column: &ColumnTerms) -> Result<(), Memory> {
    match column.column {
        Some(number) => append_digit(shown, number)?,
        None => shown.append(b"rowid")?,
    }
    shown.append(b": ")?;
    append_terms(shown, column.equals)?;
    append_terms(shown, column.lows)?;
    append_terms(shown, column.highs)
}

fn append_columns(shown: &mut Bytes, columns: &[ColumnTerms]) -> Result<(), Memory> {
    for column in columns {
        append_column(shown, column)?;
    }
    Ok(())
}

fn append_branches(shown: &mut Bytes, branches: &[&[ColumnTerms]]) -> Result<(), Memory> {
    for branch in branches {
        shown.append(b"(")?;
        append_columns(shown, branch)?;
        shown.append(b")")?;
    }
    Ok(())
}

fn append_item(shown: &mut Bytes, item: &ItemTerms) -> Result<(), Memory> {
    shown.append(b"[ ")?;
    append_columns(shown, item.columns)?;
    for term in item.ors {
        shown.append(b"or")?;
        append_digit(shown, term.conjunct)?;
        append_branches(shown, term.branches)?;
    }
    shown.append(b"]")
}

/// Whether a statement has these terms.
fn has_terms(alloc: Global, schema: &Schema, text: &[u8], want: &[u8]) -> Result<bool, Memory> {
    let arena = Bump::new(alloc);
    let Some(bound) = bound_from(alloc, &arena, schema, text)? else {
        return Ok(false);
    };
    let list = terms(alloc, &arena, schema, &bound)?;
    let mut shown = Bytes::new(alloc);
    for item in list.items {
        append_item(&mut shown, item)?;
    }
    Ok(shown.as_slice() == want)
}

/// A statement over the tables above a line, and behind `=>` the terms of each of its tables. A line
/// that begins with `--` is a heading.
const STATEMENTS: &str = "\
-- direct terms, by column; a column that isn't alone has none
SELECT * FROM x1 WHERE b = 1 AND a = 2 AND b < 3 AND 4 <= b => [ 0: =2- 1b0, 1: =1- 0b0, >=4- 3b0, <3- 2b0, ]
SELECT * FROM x1 WHERE +a = 5 => [ ]
SELECT * FROM x1 WHERE (a) = 5 AND b COLLATE nocase IS NULL => [ 0: =5- 0b0, 1: null 1b0, ]
SELECT * FROM k WHERE rowid = 1 AND id > a => [ rowid: =1N 0b0, ]
-- IN, whose entries are converted, and an OR of equalities of one column
SELECT * FROM t WHERE a IN (1, '1', 1.0) => [ 0: in 1N ?N ?N 0b0, ]
SELECT * FROM x1 WHERE a = 1 OR 2 = a => [ 0: in 1- 2- 0b0, ]
SELECT * FROM x1 WHERE a IN (1) AND a = 2 => [ 0: =2- 1b0, in 1- 0b0, ]
-- the other table's column is a key, unless the column itself is converted
SELECT * FROM s, i WHERE s.b = i.n => [ ][ 0: =0.0N 0b1, ]
-- what follows from two equalities, where both columns compare alike
SELECT * FROM t, u WHERE t.a = u.b AND u.b = 5 => [ 0: =1.0- 0b2, =5N ~b0, =1.0- ~b2, ][ 0: =0.0- 0b1, =5N 1b0, =0.0- ~b1, ]
SELECT * FROM n, s WHERE n.a = s.b AND s.b = 'k' => [ 0: =1.0- 0n2, ][ 0: =0.0- 0n1, =?T 1b0, ]
-- IN comes behind what is derived
SELECT * FROM t, u WHERE t.a = u.b AND t.a IN (1) => [ 0: =1.0- 0b2, =1.0- ~b2, in 1N 1b0, ][ 0: =0.0- 0b1, =0.0- ~b1, ]
-- an item of LEFT JOIN is served by its own ON alone
SELECT * FROM t LEFT JOIN u ON b = a WHERE e = 1 AND d = 2 => [ 1: =2- 2b0, ][ 0: =0.0- 0b1, ]
-- the bounds of LIKE, which have no conjunct
SELECT * FROM n WHERE a LIKE 'ab%' => [ 0: >=?- ~n0, <?- ~n0, ]
SELECT * FROM s WHERE b LIKE 'ab%' => [ ]
-- an OR with terms in each branch
SELECT * FROM x1 WHERE (a = 1 AND b = 2) OR c = 3 => [ or0(0: =1- 0b0, 1: =2- 0b0, )(2: =3- 0b0, )]
SELECT * FROM x1 WHERE a = 1 OR +b = 2 => [ ]";

fn comes_true(alloc: Global, schema: &Schema, row: &str) -> Result<bool, Memory> {
    match row.split_once(" => ") {
        Some((text, want)) => has_terms(alloc, schema, text.as_bytes(), want.as_bytes()),
        None => Ok(row.starts_with("-- ")),
    }
}

#[test]
fn statements_have_these_terms(rt: HostRuntime) -> Result<(), Fail> {
    let dump = read_dump(rt.alloc(), TABLES.as_bytes())?;
    for row in STATEMENTS.lines() {
        assert!(rt; comes_true(rt.alloc(), &dump.schema, row)?, "{row}");
    }
    Ok(())
}
