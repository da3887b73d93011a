//! The groups that a store keeps.

ghost use Rattle.std.specs.Prelude.{◌≡◌, ◌<◌, ℕ, List, length, map, filter, IfOk, IfSome, IfNone, true, false, IsTrue};
ghost use Rattle.std.specs.List.Sorted.{IsPermutation, IsNonDecreasingBy};
ghost use Rattle.hf_base.specs.Entries.{has_id, are_distinct};
ghost use Rattle.hf_base.specs.Members.{Rises};
ghost use Rattle.hf_links.specs.Grpl.{Group as Stated, group_of, groups_of, group_ids};
ghost use Rattle.hf_read.specs.Kept.{left_of as left_of_stated, is_kept_group, kept_groups as kept_groups_stated};

use hf_base::{Ids, NoMemory, Series};
use hf_links::Group;
use hf_store::GroupList;
use std::alloc::Global;

/// Leaves the ids of items alone.
fn keep_items(entities: &mut Ids, ids: &[u32])
    requires { Rises ◌<◌ ids.now }
    ensures { entities.new ≡ filter (λ id. has_id id ids.now) entities.old }
{
    entities.retain(
        |id: &u32| -> bool
            ensures { Rises ◌<◌ ids.entry.now → result ≡ has_id id.now ids.entry.now }
        { ids.binary_search(id).is_ok() },
    );
}

/// Whether a group of so many entities stays, of which this is left: an entity is left, and none is
/// lost or nothing stands behind them.
fn stays(count: usize, left: &Group<'_>) -> bool
    ensures { (ids : List ℕ) (whole : Stated) → count ≡ length whole.entities → group_of left.now ≡ left_of_stated ids whole → result ≡ is_kept_group ids whole }
{
    left.entities.len() > 0 && (left.entities.len() == count || left.tail.is_empty())
}

/// What is left of a group, where it stays.
fn left_of<'a>(ids: &[u32], group: Group<'a>) -> Option<Group<'a>>
    requires { Rises ◌<◌ ids.now }
    ensures some { IfSome result (λ left. (is_kept_group ids.now (group_of group.entry) ≡ true) × (group_of left ≡ left_of_stated ids.now (group_of group.entry))) }
    ensures none { IfNone result (is_kept_group ids.now (group_of group.entry) ≡ false) }
{
    let mut left = group;
    let count = left.entities.len();
    keep_items(&mut left.entities, ids);
    if stays(count, &left) {
        return Some(left);
    }
    None
}

/// What is left of groups, in their order.
fn left_groups<'a>(
    alloc: Global,
    ids: &[u32],
    groups: Vec<Group<'a>>,
) -> Result<Vec<Group<'a>>, NoMemory>
    requires { Rises ◌<◌ ids.now }
    ensures { IfOk result (λ kept. groups_of kept.items ≡ map (left_of_stated ids.now) (filter (is_kept_group ids.now) (groups_of groups.entry.items))) }
{
    let mut kept = Vec::new(alloc);
    for group in groups {
        if let Some(left) = left_of(ids, group) {
            kept.push(left)?;
        }
    }
    Ok(kept)
}

/// Groups by rising id.
fn by_id(groups: Vec<Group<'_>>) -> Result<Vec<Group<'_>>, NoMemory>
    ensures moved { IfOk result (λ sorted. IsPermutation groups.entry.items sorted.items) }
    ensures rises { IfOk result (λ sorted. IsNonDecreasingBy (λ group. group.id) sorted.items) }
{
    let mut sorted = groups;
    sorted.sort_by_key(|group| group.id)?;
    Ok(sorted)
}

/// The groups that a store with these items keeps, by rising id, each with those entities alone that
/// are items. `NoMemory` comes where memory was refused.
pub fn kept_groups<'a>(
    alloc: Global,
    ids: &[u32],
    groups: Vec<Group<'a>>,
) -> Result<GroupList<'a>, NoMemory>
    requires rising { Rises ◌<◌ ids.now }
    requires distinct { IsTrue (are_distinct (group_ids (groups_of groups.items))) }
    ensures { IfOk result (λ kept. groups_of kept ≡ kept_groups_stated ids.now (groups_of groups.entry.items)) }
{
    let left = left_groups(alloc, ids, groups)?;
    Ok(Series::from_vec(by_id(left)?))
}
