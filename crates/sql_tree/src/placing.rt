//! What is put into the arena stands there as it was.
ghost use Rattle.std.specs.Prelude.{◌≡◌, IfOk, map};

use crate::{Expr, Exprs};
use bumpalo::Bump;
use bumpalo::collections::into_bump_slice;
use sql_value::Memory;

/// The value in the arena.
pub fn place<'a, T: Copy>(arena: &'a Bump, value: T) -> Result<&'a T, Memory>
    ensures { IfOk result (λ place. place.now ≡ value) }
{
    Ok(arena.try_alloc(value)?)
}

/// The list in the arena.
pub fn place_slice<'a, T: Copy>(arena: &'a Bump, list: &[T]) -> Result<&'a [T], Memory>
    ensures { IfOk result (λ place. place.now ≡ list.now) }
{
    Ok(arena.try_alloc_slice_copy(list)?)
}

/// The expression in the arena.
pub fn place_expr<'a>(arena: &'a Bump, expr: Expr<'a>) -> Result<&'a Expr<'a>, Memory>
    ensures { IfOk result (λ place. place.now ≡ expr.entry) }
{
    place(arena, expr)
}

/// The bytes in the arena.
pub fn place_bytes<'a>(arena: &'a Bump, from: &[u8]) -> Result<&'a [u8], Memory>
    ensures { IfOk result (λ place. place.now ≡ from.now) }
{
    place_slice(arena, from)
}

/// Each expression in the arena, and then the list of their references.
pub fn place_list<'a>(arena: &'a Bump, list: &[Expr<'a>]) -> Result<Exprs<'a>, Memory>
    ensures { IfOk result (λ exprs. map (λ member. member.now) exprs.members.now ≡ list.now) }
{
    let mut places: Vec<&'a Expr<'a>, &'a Bump> = Vec::new(arena);
    for expr in list {
        let place = place_expr(arena, *expr)?;
        places.push(place)?;
    }
    Ok(Exprs {
        members: into_bump_slice(places),
    })
}
