//! Lists of the grammar: a first member, and then further ones.
ghost use Rattle.std.specs.Prelude.{map};
ghost use Rattle.sql_read.specs.Lexemes.{seen};
ghost use Rattle.sql_read.specs.Lists.{Reads, Finds};
ghost use Rattle.sql_read.specs.Reading.{Gives, after, list_at};

use crate::cursor::{Left, after_mark, count_left};
use crate::lexeme::{DescentFault, Mark};
use sql_value::push;
use std::alloc::Global;

/// What the grammar has lists of. A contract sees a member as a `Plain`, by `tree`.
pub trait Member: Copy {
    ghost Plain: { Type 0 };

    ghost tree: { Self → Plain };
}

/// A first member, and further ones as long as `follows` finds that one stands there.
pub fn list_of<'a, T: Member, First, Follows, Next>(
    alloc: Global,
    lexemes: Left<'a>,
    read_first: First,
    follows: Follows,
    read_next: Next,
) -> Result<(Vec<T>, Left<'a>), DescentFault>
where
    First: Fn(Left<'a>) -> Result<(T, Left<'a>), DescentFault>,
    Follows: Fn(Left<'a>) -> Option<Left<'a>>,
    Next: Fn(Left<'a>) -> Result<(T, Left<'a>), DescentFault>,
    requires first_callable { First.IsAlwaysCallable read_first }
    requires follows_callable { Follows.IsAlwaysCallable follows }
    requires next_callable { Next.IsAlwaysCallable read_next }
    ensures { (first : _) (start : _) (next : _) → Reads T.tree (First.post read_first) first →
        Finds (Follows.post follows) start → Reads T.tree (Next.post read_next) next →
        Gives (λ x. (map T.tree x.0.items, seen x.1.now)) result
        (list_at first start next (seen lexemes.now)) }
{
    let (first_read, mut rest) = read_first(lexemes)?;
    let mut list = Vec::new(alloc);
    push(&mut list, first_read)?;
    // A further member takes a lexeme at least, so there are no more than lexemes.
    let most = count_left(rest);
    'members: for _ in 0..most {
        let Some(behind) = follows(rest) else {
            break;
        };
        let (next, left) = read_next(behind)?;
        push(&mut list, next)?;
        rest = left;
    }
    Ok((list, rest))
}

/// One member or more, with this mark between each two.
pub fn separated_list<'a, T: Member, Read>(
    alloc: Global,
    separator: Mark,
    lexemes: Left<'a>,
    read: Read,
) -> Result<(Vec<T>, Left<'a>), DescentFault>
where
    Read: Fn(Left<'a>) -> Result<(T, Left<'a>), DescentFault> + Copy,
    requires { Read.IsAlwaysCallable read }
    ensures { (reader : _) → Reads T.tree (Read.post read) reader →
        Gives (λ x. (map T.tree x.0.items, seen x.1.now)) result
        (list_at reader (after separator) reader (seen lexemes.now)) }
{
    let follows = |left| after_mark(separator, left);
    list_of(alloc, lexemes, read, follows, read)
}
