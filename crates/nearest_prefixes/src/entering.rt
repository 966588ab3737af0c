//! To enter a prefix among those that are kept: in order, without rivals, and so many at most.
ghost use Rattle.std.specs.Prelude.{◌≡◌, ◌≤◌, ◌<◌, ◌++◌, ℕ, List, OnOk, IfSome, length, take, drop};
ghost use Rattle.std.specs.List.{insert};
ghost use Rattle.plan_choice.specs.Choice.{nearer};
ghost use Rattle.plan_choice.specs.Prefixes as meant;
ghost use Rattle.access_paths.specs.Settings.{setting_of};
ghost use Rattle.nearest_prefixes.specs.Keeping.{drop_rival, joined};
ghost use Rattle.nearest_prefixes.specs.Growing.{Shows, AllShow};
ghost use Rattle.nearest_prefixes.specs.Entering.{alike, entry_from, rival_from};
ghost use Rattle.nearest_prefixes.specs.Searching.{AreShown};

use crate::Prefix;
use crate::comparing::{are_rivals, compare};
use access_paths::Setting;
use bumpalo::Bump;
use sql_tree::place;
use sql_value::Memory;

/// Where the prefix comes to: behind all that are nearer or tie, and nowhere where one of these is
/// its rival.
fn entry_place<'p>(
    setting: &Setting<'_, 'p>,
    kept: &[&'p Prefix<'p>],
    prefix: &Prefix<'p>,
) -> Option<usize>
    ensures within { IfSome result (λ at. at ≤ length kept.now) }
    ensures told { (count : ℕ) (ps : List meant.Prefix) (p : meant.Prefix)
        → AreShown (setting_of setting.now) count ps kept.now
        → Shows (setting_of setting.now) p prefix.now → length p.loops ≡ count
        → result ≡ entry_from (alike (setting_of setting.now)) (nearer (setting_of setting.now)) p 0
        ps }
{
    for number in 0..kept.len() {
        if compare(setting, kept[number], prefix).is_gt() {
            return Some(number);
        }
        if are_rivals(setting, kept[number], prefix) {
            return None;
        }
    }
    Some(kept.len())
}

/// The place of the prefix's first rival from a place on.
fn rival_place<'p>(
    setting: &Setting<'_, 'p>,
    kept: &[&'p Prefix<'p>],
    from: usize,
    prefix: &Prefix<'p>,
) -> Option<usize>
    ensures within { IfSome result (λ at. at < length kept.now) }
    ensures behind { IfSome result (λ at. from ≤ at) }
    ensures told { (ps : List meant.Prefix) (p : meant.Prefix)
        → AllShow (setting_of setting.now) ps kept.now
        → Shows (setting_of setting.now) p prefix.now
        → result ≡ rival_from (alike (setting_of setting.now)) p from (drop from ps) }
{
    for number in from..kept.len() {
        if are_rivals(setting, kept[number], prefix) {
            return Some(number);
        }
    }
    None
}

/// Removes the prefix's first rival from a place on.
fn remove_rival<'p>(
    setting: &Setting<'_, 'p>,
    kept: &mut Vec<&'p Prefix<'p>, &'p Bump>,
    from: usize,
    prefix: &Prefix<'p>,
)
    requires from { from ≤ length kept.old.items }
    ensures from { from ≤ length kept.new.items }
    ensures told { (ps : List meant.Prefix) (p : meant.Prefix)
        → AllShow (setting_of setting.now) ps kept.old.items
        → Shows (setting_of setting.now) p prefix.now
        → AllShow (setting_of setting.now)
        (take from ps ++ drop_rival (alike (setting_of setting.now)) p (drop from ps))
        kept.new.items }
{
    if let Some(number) = rival_place(setting, kept.as_slice(), from, prefix) {
        kept.remove(number);
    }
}

/// Puts the prefix at its place, where its rival behind that goes.
fn enter_at<'p>(
    arena: &'p Bump,
    setting: &Setting<'_, 'p>,
    most: usize,
    kept: &mut Vec<&'p Prefix<'p>, &'p Bump>,
    number: usize,
    prefix: Prefix<'p>,
) -> Result<(), Memory>
    requires number { number ≤ length kept.old.items }
    ensures few { OnOk result (length kept.new.items ≤ most) }
    ensures told { OnOk result ((ps : List meant.Prefix) (p : meant.Prefix)
        → AllShow (setting_of setting.now) ps kept.old.items
        → Shows (setting_of setting.now) p prefix.entry
        → AllShow (setting_of setting.now)
        (take most (insert
        (take number ps ++ drop_rival (alike (setting_of setting.now)) p (drop number ps))
        number p))
        kept.new.items) }
{
    remove_rival(setting, kept, number, &prefix);
    let placed = place(arena, prefix)?;
    kept.insert(number, placed)?;
    kept.truncate(most);
    Ok(())
}

/// Enters a prefix among those that are kept, which have as many loops each. It is put into the
/// arena only where it is kept.
pub(crate) fn enter<'p>(
    arena: &'p Bump,
    setting: &Setting<'_, 'p>,
    most: usize,
    kept: &mut Vec<&'p Prefix<'p>, &'p Bump>,
    prefix: Prefix<'p>,
) -> Result<(), Memory>
    requires few { length kept.old.items ≤ most }
    ensures few { OnOk result (length kept.new.items ≤ most) }
    ensures told { OnOk result ((count : ℕ) (ps : List meant.Prefix) (p : meant.Prefix)
        → AreShown (setting_of setting.now) count ps kept.old.items
        → Shows (setting_of setting.now) p prefix.entry → length p.loops ≡ count
        → AreShown (setting_of setting.now) count
        (joined most (alike (setting_of setting.now)) (nearer (setting_of setting.now)) ps p)
        kept.new.items) }
{
    match entry_place(setting, kept.as_slice(), &prefix) {
        Some(number) if number < most => enter_at(arena, setting, most, kept, number, prefix),
        _ => Ok(()),
    }
}
