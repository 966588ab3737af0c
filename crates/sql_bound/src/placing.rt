//! Lists of expressions in the arena stand there as they were.
ghost use Rattle.std.specs.Prelude.{◌≡◌, IfOk, map};

use crate::{BExpr, BExprs};
use bumpalo::Bump;
use bumpalo::collections::into_bump_slice;
use sql_tree::place;
use sql_value::{Memory, push};

/// Each expression in the arena, and then the list of their references.
pub fn place_list<'a>(arena: &'a Bump, list: &[BExpr<'a>]) -> Result<BExprs<'a>, Memory>
    ensures { IfOk result (λ exprs. map (λ member. member.now) exprs.members.now ≡ list.now) }
{
    let mut places: Vec<&'a BExpr<'a>, &'a Bump> = Vec::new(arena);
    for expr in list {
        let placed = place(arena, *expr)?;
        push(&mut places, placed)?;
    }
    Ok(BExprs {
        members: into_bump_slice(places),
    })
}
