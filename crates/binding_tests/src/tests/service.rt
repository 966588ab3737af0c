//! Which items a conjunct may serve, and the loops that it is tested in.
ghost use Rattle.std.specs.Prelude.{◌<◌, ◌≤◌, length};

use bumpalo::Bump;
use sql_bound::{BExpr, BItem, Bound, Conjunct, any, first_at, may_derive, may_serve};
use sql_tree::Lit;
use sql_value::{Bytes, Memory};
use std::test::Fail;

/// `s` where the conjunct may serve the item, `d` where equalities may be derived from it as well.
fn letter(bound: &Bound, conjunct: u32, item: u32) -> u8
    requires conjunct { conjunct < length bound.now.conjuncts.now }
    requires item { item < length bound.now.items.now }
{
    match (
        may_serve(bound, conjunct, item),
        may_derive(bound, conjunct, item),
    ) {
        (true, true) => b'd',
        (true, false) => b's',
        (false, false) => b'-',
        (false, true) => b'!',
    }
}

/// The item in whose loop the conjunct is tested, where the loops stand in this order; `!` where it
/// is in none, and `?` where one of them is of no item.
fn tested_in(bound: &Bound, conjunct: u32, order: &[u32]) -> u8
    requires { conjunct < length bound.now.conjuncts.now }
{
    let mut placed = 0;
    for item in order {
        if bound.items.len() <= *item as usize {
            return b'?';
        }
        if first_at(bound, conjunct, placed, *item) {
            return b'0' + (*item % 10) as u8;
        }
        placed |= 1u64.checked_shl(*item).unwrap_or(0);
    }
    b'!'
}

/// A letter for each of three items, and the loop where they stand in the order of FROM and
/// backwards.
fn append_service(shown: &mut Bytes, bound: &Bound, conjunct: u32) -> Result<(), Memory>
    requires conjunct { conjunct < length bound.now.conjuncts.now }
    requires items { 3 ≤ length bound.now.items.now }
{
    for item in 0..3 {
        shown.push(letter(bound, conjunct, item))?;
    }
    shown.push(tested_in(bound, conjunct, &[0, 1, 2]))?;
    shown.push(tested_in(bound, conjunct, &[2, 1, 0]))
}

fn item<'a>(left: bool) -> BItem<'a> {
    BItem {
        table: 0,
        alias: None,
        cross: false,
        left,
    }
}

fn column<'a>(item: u32) -> BExpr<'a> {
    BExpr::Column { item, column: 0 }
}

#[test]
fn serves_items(rt: HostRuntime) -> Result<(), Fail> {
    let arena = Bump::new(rt.alloc());
    let constant = BExpr::Lit(Lit::Int(1));
    let (first, last) = (column(0), column(2));
    let tables = any(&arena, &[column(0), column(1)])?;
    let outer = any(&arena, &[column(1), column(2)])?;
    let common = |expr| Conjunct { expr, owner: None };
    let owned = |expr| Conjunct {
        expr,
        owner: Some(2),
    };
    let conjuncts = [
        common(&constant),
        common(&first),
        common(&tables),
        common(&outer),
        common(&last),
        owned(&constant),
        owned(&tables),
        owned(&outer),
    ];
    let bound = Bound {
        items: &[item(false), item(false), item(true)],
        rowids: true,
        results: &[],
        conjuncts: &conjuncts,
        keys: &[],
        limit: None,
        offset: None,
        needs: &[],
    };
    let mut shown = Bytes::new(rt.alloc());
    for number in 0..conjuncts.len() as u32 {
        append_service(&mut shown, &bound, number)?;
        shown.push(b' ')?;
    }
    let want = b"dd-02 dd-00 dd-10 dd-21 dd-22 --s22 --s22 --s22 ";
    assert_eq!(rt; shown.as_slice(), want.as_slice());
    Ok(())
}
