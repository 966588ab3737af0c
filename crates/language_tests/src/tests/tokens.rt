//! Tables of cases: the forms of tokens, bad tokens, and what tokens mean.
use super::shown::{append_found, token_letter};
use sql_tokens::{
    Number, Symbol, Terminal, Token, TokenKind, lex, signed_number, terminal_at, token_number,
    token_text, token_value,
};
use sql_value::{Bytes, Keyword, Memory, Value};
use std::alloc::Global;
use std::test::Fail;

/// Texts, each with its tokens behind `=>` in the line below: the letter of each, and its text.
const TOKENS: &str = " \t\n\x0c\ra
=> w:a

-- note
b
=> w:b

a--end
=> w:a

a/* x * / */b
=> w:a w:b

/**/
=>

/*/ x */c
=> w:c

SELECT * FROM x1 /* open
=> w:SELECT s:* w:FROM w:x1

'a''b' '' 'ab''
=> t:'a''b' t:'' !:'ab''

'ab
=> !:'ab

x'0aF0' X'' x'0' x'12''34' x'zz' 1 x'12
=> b:x'0aF0' b:X'' !:x'0' !:x'12''34' !:x'zz' n:1 !:x'12

x 'a'
=> w:x t:'a'

\"a\"\"b\" `a``b` [a]b [a
=> q:\"a\"\"b\" q:`a``b` q:[a] w:b !:[a

SELECT * FROM \"x1
=> w:SELECT s:* w:FROM !:\"x1

[a''b]'c'
=> q:[a''b] t:'c'

_a$1é ä Select$
=> w:_a$1é w:ä w:Select$

1 1.5 1. .5 1e5 1.5E-3 .5e+2 1.e1 0x1F 0Xa
=> n:1 n:1.5 n:1. n:.5 n:1e5 n:1.5E-3 n:.5e+2 n:1.e1 n:0x1F n:0Xa

1e 1e+ 0x 0xg
=> !:1e !:1e s:+ !:0x !:0xg

1.5.2 12ab 5$ 1_ .
=> n:1.5 n:.2 !:12ab !:5$ !:1_ s:.

? ?12 ?32766 ?007 ?a
=> p:? p:?12 p:?32766 p:?007 p:? w:a

?0 ?32767 ?99999999999
=> !:?0 !:?32767 !:?99999999999

:a1 @b $c$ :1 : @ $
=> p::a1 p:@b p:$c$ p::1 !:: !:@ !:$

(),;.+-*/%
=> s:( s:) s:, s:; s:. s:+ s:- s:* s:/ s:%

= == <> != < <= > >=
=> s:= s:== s:<> s:!= s:< s:<= s:> s:>=

|| | & << >> ~ -> ->>
=> s:|| s:| s:& s:<< s:>> s:~ s:-> s:->>

=== <=> ->>> |||
=> s:== s:= s:<= s:> s:->> s:> s:|| s:|

! ^ \\ {\0
=> !:! !:^ !:\\ !:{ !:\0";

fn append_tokens(seen: &mut Bytes, alloc: Global, text: &[u8]) -> Result<(), Memory> {
    if text.len() > 1000 {
        return Ok(());
    }
    let tokens = lex(alloc, text)?;
    for token in tokens.as_slice() {
        seen.push(b' ')?;
        seen.push(token_letter(token.kind))?;
        seen.push(b':')?;
        seen.append(token_text(text, *token))?;
    }
    Ok(())
}

fn has_tokens(alloc: Global, text: &[u8], want: &[u8]) -> Result<bool, Memory> {
    let mut seen = Bytes::new(alloc);
    append_tokens(&mut seen, alloc, text)?;
    Ok(seen.as_slice() == want)
}

fn has_these_tokens(alloc: Global, block: &str) -> Result<bool, Memory> {
    match block.split_once("\n=>") {
        Some((text, want)) => has_tokens(alloc, text.as_bytes(), want.as_bytes()),
        None => Ok(false),
    }
}

#[test]
fn texts_have_these_tokens(rt: HostRuntime) -> Result<(), Fail> {
    for block in TOKENS.split("\n\n") {
        assert!(rt; has_these_tokens(rt.alloc(), block)?, "{block}");
    }
    let want = b" w:_a$1\xe9 w:\xc3\xa9";
    assert!(rt; has_tokens(rt.alloc(), b"_a$1\xe9 \xc3\xa9", want)?);
    Ok(())
}

/// Tokens, and what they mean: a number as it is without a sign, else the bytes of its value.
const MEANINGS: &str = "\
'a''b' => a'b
'''' => '
'' =>\x20
\"x\"\"y\" => x\"y
`a``b` => a`b
[a''b] => a''b
x'4a4B' => JK
Ab => Ab
0 => i0
007 => i7
9223372036854775807 => i9223372036854775807
9223372036854775808 => past i9223372036854775807
9223372036854775809 => none
1.5 => d15000
1. => d10000
.5 => d5000
1.50000 => d15000
1.00001 => none
000000000000000000000001.5 => d15000
99999999999.9999 => d999999999999999
100000000000.0 => none
1e5 => none
0x10 => none";

/// 2^63 is a number behind a minus alone, so it is told as the one past the greatest integer.
fn append_unsigned(seen: &mut Bytes, alloc: Global, text: &[u8]) -> Result<(), Memory> {
    let number = token_number(text);
    if number == Some(Number::Int(1 << 63)) {
        seen.append(b"past ")?;
        return append_found(seen, alloc, &Some(Value::Int(i64::MAX)));
    }
    match number {
        Some(number) => append_found(seen, alloc, &signed_number(false, number)),
        None => append_found(seen, alloc, &None),
    }
}

fn append_meaning(seen: &mut Bytes, alloc: Global, text: &[u8]) -> Result<(), Memory> {
    if text.len() > 1000 {
        return Ok(());
    }
    match lex(alloc, text)?.as_slice() {
        [token] if token.kind == TokenKind::Number => append_unsigned(seen, alloc, text),
        [token] => seen.append(token_value(alloc, text, *token)?.as_slice()),
        _ => seen.append(b"not one token"),
    }
}

fn means(alloc: Global, text: &[u8], want: &[u8]) -> Result<bool, Memory> {
    let mut seen = Bytes::new(alloc);
    append_meaning(&mut seen, alloc, text)?;
    Ok(seen.as_slice() == want)
}

fn means_this(alloc: Global, row: &str) -> Result<bool, Memory> {
    match row.split_once(" => ") {
        Some((text, want)) => means(alloc, text.as_bytes(), want.as_bytes()),
        None => Ok(false),
    }
}

#[test]
fn tokens_mean_these(rt: HostRuntime) -> Result<(), Fail> {
    for row in MEANINGS.lines() {
        assert!(rt; means_this(rt.alloc(), row)?, "{row}");
    }
    assert!(rt; means(rt.alloc(), b"x'0aF0'", b"\n\xf0")?);
    Ok(())
}

fn minus_brings_the_least_integer() -> bool {
    let least = Number::Int(1 << 63);
    matches!(signed_number(true, least), Some(Value::Int(i64::MIN)))
        && signed_number(false, least).is_none()
        && matches!(
            signed_number(true, Number::Dec(1000)),
            Some(Value::Dec(-1000))
        )
        && matches!(
            signed_number(true, Number::Dec(15_000)),
            Some(Value::Dec(-15_000))
        )
}

fn token(kind: TokenKind, end: u32) -> Token {
    Token {
        kind,
        start: 0,
        end,
    }
}

fn words_and_symbols_are_terminals() -> bool {
    let select = terminal_at(b"Select", token(TokenKind::Word, 6));
    let arrow = terminal_at(b"->>", token(TokenKind::Symbol, 3));
    let name = terminal_at(b"\"select\"", token(TokenKind::Quoted, 8));
    matches!(select, Terminal::Keyword(Keyword::Select))
        && matches!(arrow, Terminal::Symbol(Symbol::LongArrow))
        && matches!(name, Terminal::Quoted)
}

#[test]
fn tokens_are_terminals(rt: HostRuntime) {
    assert!(rt; minus_brings_the_least_integer());
    assert!(rt; words_and_symbols_are_terminals());
}
