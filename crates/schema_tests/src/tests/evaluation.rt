//! Whether the definitions say what was meant: values worked out by hand from the rules of SQLite's
//! pages, and calls that succeed.
ghost use Rattle.sql_bound.specs.Expressions.{expr_of};
ghost use Rattle.sql_eval.specs.Environments.{HasRows};
ghost use Rattle.std.specs.Prelude.{[]};

use bumpalo::Bump;
use schema_model::Tables;
use sql_bound::{BExpr, all, any, cmp, collate, is_null, like, not, one_of, plus};
use sql_eval::{Env, eval};
use sql_tree::{Lit, Op};
use sql_value::{Affinity, Collation, Memory, Value, Values, conversions};
use std::alloc::Global;
use std::test::Fail;

/// The value of a condition, NULL as `?`.
fn answer(value: &Value) -> &'static str {
    match value {
        Value::Null => "?",
        Value::Int(0) => "0",
        Value::Int(1) => "1",
        _ => "none of a condition",
    }
}

/// The value of an expression that names no column.
fn evaluated(alloc: Global, expr: &BExpr) -> Result<&'static str, Memory>
    requires { HasRows [] [] (expr_of expr.now) }
{
    let tables = Tables::new(alloc);
    let params = Values::new(alloc);
    let env = Env {
        tables: &tables,
        places: &[],
        params: &params,
    };
    Ok(answer(&eval(alloc, expr, &env)?))
}

/// An affinity by its letter; none for another.
fn affinity(letter: &str) -> Option<Affinity> {
    match letter.as_bytes() {
        b"I" => Some(Affinity::Integer),
        b"R" => Some(Affinity::Real),
        b"N" => Some(Affinity::Numeric),
        b"T" => Some(Affinity::Text),
        b"B" => Some(Affinity::Blob),
        _ => None,
    }
}

fn collation(letter: &str) -> Collation {
    if letter == "n" {
        Collation::Nocase
    } else {
        Collation::Binary
    }
}

/// A value by its letters.
fn literal(letters: &str) -> Lit<'static> {
    match letters.as_bytes() {
        b"0" => Lit::Int(0),
        b"1" => Lit::Text(b" 1x"),
        b"i1" => Lit::Int(1),
        b"i12" => Lit::Int(12),
        b"i-12" => Lit::Int(-12),
        b"d0" => Lit::Dec(0),
        b"d1" => Lit::Dec(1),
        b"t1" => Lit::Text(b"1"),
        b"tA" => Lit::Text(b"A"),
        b"ta" => Lit::Text(b"a"),
        b"t12" => Lit::Text(b"12"),
        b"t-_2" => Lit::Text(b"-_2"),
        b"tAb" => Lit::Text(b"Ab"),
        b"t%" => Lit::Text(b"%"),
        b"ta%" => Lit::Text(b"a%"),
        b"bAb" => Lit::Blob(b"Ab"),
        _ => Lit::Null,
    }
}

/// `'1' = 1`, where the sides have these affinities.
fn equal_under(alloc: Global, left: &str, right: &str) -> Result<&'static str, Memory> {
    let arena = Bump::new(alloc);
    let text = BExpr::Lit(Lit::Text(b"1"));
    let number = BExpr::Lit(Lit::Int(1));
    let conv = conversions(affinity(left), affinity(right));
    let expr = cmp(&arena, Op::Eq, text, number, conv, Collation::Binary)?;
    evaluated(alloc, &expr)
}

fn both_say(alloc: Global, left: &str, right: &str) -> Result<&'static str, Memory> {
    let arena = Bump::new(alloc);
    let parts = [BExpr::Lit(literal(left)), BExpr::Lit(literal(right))];
    evaluated(alloc, &all(&arena, &parts)?)
}

fn either_says(alloc: Global, left: &str, right: &str) -> Result<&'static str, Memory> {
    let arena = Bump::new(alloc);
    let parts = [BExpr::Lit(literal(left)), BExpr::Lit(literal(right))];
    evaluated(alloc, &any(&arena, &parts)?)
}

/// `NOT +value COLLATE BINARY`
fn denied(alloc: Global, value: Lit) -> Result<&'static str, Memory> {
    let arena = Bump::new(alloc);
    let inner = plus(&arena, BExpr::Lit(value))?;
    let inner = collate(&arena, inner, Collation::Binary)?;
    evaluated(alloc, &not(&arena, inner)?)
}

fn missing(alloc: Global, value: Lit) -> Result<&'static str, Memory> {
    let arena = Bump::new(alloc);
    evaluated(alloc, &is_null(&arena, false, BExpr::Lit(value))?)
}

/// `value IN (entry)`, or `value IN ()`.
fn is_in<'v>(
    alloc: Global,
    value: Lit<'v>,
    entry: Option<Lit<'v>>,
    conv: Option<Affinity>,
    coll: Collation,
) -> Result<&'static str, Memory> {
    let arena = Bump::new(alloc);
    let value = BExpr::Lit(value);
    let expr = match entry {
        Some(entry) => one_of(&arena, false, value, &[BExpr::Lit(entry)], conv, coll)?,
        None => one_of(&arena, false, value, &[], conv, coll)?,
    };
    evaluated(alloc, &expr)
}

/// The same by the letters of an affinity, a collation, the value and the entry, `-` for none.
fn is_in_by_letters(alloc: Global, given: &str) -> Result<&'static str, Memory> {
    let Some((conv, rest)) = given.split_once(' ') else {
        return Ok("");
    };
    let Some((coll, sides)) = rest.split_once(' ') else {
        return Ok("");
    };
    let Some((value, entry)) = sides.split_once(' ') else {
        return Ok("");
    };
    let entry = if entry == "-" {
        None
    } else {
        Some(literal(entry))
    };
    is_in(
        alloc,
        literal(value),
        entry,
        affinity(conv),
        collation(coll),
    )
}

/// `value LIKE pattern`, or its NOT form.
fn is_like(alloc: Global, negated: bool, value: Lit, pattern: Lit) -> Result<&'static str, Memory> {
    let arena = Bump::new(alloc);
    let expr = like(&arena, negated, BExpr::Lit(value), BExpr::Lit(pattern))?;
    evaluated(alloc, &expr)
}

fn of_two(alloc: Global, call: &str, given: &str) -> Result<&'static str, Memory> {
    let Some((left, right)) = given.split_once(' ') else {
        return Ok("");
    };
    match call.as_bytes() {
        b"equal" => equal_under(alloc, left, right),
        b"both" => both_say(alloc, left, right),
        b"either" => either_says(alloc, left, right),
        b"like" => is_like(alloc, false, literal(left), literal(right)),
        b"unlike" => is_like(alloc, true, literal(left), literal(right)),
        _ => Ok(""),
    }
}

/// What an expression comes to; nothing where there is no such one.
fn comes_to(alloc: Global, call: &str, given: &str) -> Result<&'static str, Memory> {
    match call.as_bytes() {
        b"in" => is_in_by_letters(alloc, given),
        b"not" => denied(alloc, literal(given)),
        b"missing" => missing(alloc, literal(given)),
        _ => of_two(alloc, call, given),
    }
}

/// Expressions by their first word, and behind `=>` 1 where they hold, 0 where they don't, and ?
/// where they are NULL.
///
/// - `equal`: `'1' = 1`, where the sides have these affinities: I INTEGER, R REAL, N NUMERIC, T TEXT
///   or B BLOB, and - for none.
/// - `both` and `either`: AND and OR of a text that holds, 0, and NULL, as 1, 0 and ?.
/// - `not`: NOT of a value, which stands under a plus and a collation.
/// - `missing`: IS NULL.
/// - `in`: IN with one entry, or - for none, by the affinity of the entries, the collation (b BINARY,
///   n NOCASE), the value and the entry.
/// - `like` and `unlike`: LIKE and NOT LIKE of a value and a pattern. NULL comes before all else, and
///   then a blob; a number is converted to text on either side.
///
/// A value is N NULL, i an integer, d a decimal in units of 1/10000, t a text, or b a blob.
const EXPRESSIONS: &str = "\
equal - - => 0
equal - B => 0
equal - T => 0
equal - N => 1
equal - I => 1
equal - R => 1
equal B - => 0
equal B B => 0
equal B T => 0
equal B N => 1
equal B I => 1
equal B R => 1
equal T - => 1
equal T B => 0
equal T T => 0
equal T N => 1
equal T I => 1
equal T R => 1
equal N - => 0
equal N B => 0
equal N T => 0
equal N N => 0
equal N I => 0
equal N R => 0
equal I - => 0
equal I B => 0
equal I T => 0
equal I N => 0
equal I I => 0
equal I R => 0
equal R - => 0
equal R B => 0
equal R T => 0
equal R N => 0
equal R I => 0
equal R R => 0
both 0 0 => 0
both 0 1 => 0
both 0 ? => 0
both 1 0 => 0
both 1 1 => 1
both 1 ? => ?
both ? 0 => 0
both ? 1 => ?
both ? ? => ?
either 0 0 => 0
either 0 1 => 1
either 0 ? => ?
either 1 0 => 1
either 1 1 => 1
either 1 ? => 1
either ? 0 => ?
either ? 1 => 1
either ? ? => ?
not d0 => 1
not d1 => 0
not N => ?
missing d0 => 0
missing d1 => 0
missing N => 1
in - b N - => 0
in - b N i1 => ?
in - b i1 N => ?
in - b t1 i1 => 0
in T b t1 i1 => 1
in N b t1 i1 => 0
in N b i1 t1 => 1
in - b tA ta => 0
in - n tA ta => 1
like tAb ta% => 1
unlike tAb ta% => 0
like ta% tAb => 0
like N t% => ?
unlike tAb N => ?
like bAb N => ?
like bAb t% => 0
like tAb bAb => 0
unlike tAb bAb => 1
like i-12 t-_2 => 1
like t12 i12 => 1
like t12 i1 => 0";

fn comes_true(alloc: Global, row: &str) -> Result<bool, Memory> {
    let Some((written, want)) = row.split_once(" => ") else {
        return Ok(false);
    };
    match written.split_once(' ') {
        Some((call, given)) => Ok(comes_to(alloc, call, given)? == want),
        None => Ok(false),
    }
}

#[test]
fn expressions_come_to_these(rt: HostRuntime) -> Result<(), Fail> {
    for row in EXPRESSIONS.lines() {
        assert!(rt; comes_true(rt.alloc(), row)?, "{row}");
    }
    Ok(())
}
