//! What is counted over the items and groups of a store, of which the lengths of its boxes follow.

ghost use Rattle.std.specs.Prelude.{◌≡◌, ◌≤◌, ◌^◌, nat_le, length, map};
ghost use Rattle.hf_box.specs.Written.{bit as stated_bit, zero_ended};
ghost use Rattle.hf_info.specs.Infe.{content_text, uri_text};
ghost use Rattle.hf_info.specs.Texts.{zero_ended_if_any};
ghost use Rattle.hf_links.specs.Grpl.{group_of, groups_of};
ghost use Rattle.hf_store.specs.Capped.{capped, capped_counts};
ghost use Rattle.hf_store.specs.Counts.{HasCounts, no_counts, plus as sum_of, strings_of, targets_of, counts_of_item, counts_of_group, counts_of_items, counts_of_groups};
ghost use Rattle.hf_store.specs.Layout.{in_idat as stands_in_idat, info_of};
ghost use Rattle.hf_store.specs.Seen.{item_of, items_of};

use crate::Item;
use crate::item::RefList;
use hf_base::kinds::{GRID, IOVL, MIME, URI};
use hf_links::Group;

/// What is counted over the items and groups of a store. The greatest number stands for each that is
/// no less.
#[derive(Clone, Copy)]
pub struct Counts {
    /// Items.
    pub items: u64,
    /// Items that have bytes.
    pub located: u64,
    /// Items whose id takes more than two bytes.
    pub wide: u64,
    /// Bytes of the strings of `infe`, with the zero bytes that end them.
    pub strings: u64,
    /// Reference lists: boxes of `iref`.
    pub links: u64,
    /// Ids in those lists.
    pub targets: u64,
    /// Items that have properties.
    pub holders: u64,
    /// Properties of items: associations.
    pub picks: u64,
    /// Bytes of items that stand in `idat`.
    pub idat: u64,
    /// Bytes of items that stand in `mdat`.
    pub mdat: u64,
    /// Groups.
    pub groups: u64,
    /// Entities of groups.
    pub entities: u64,
    /// Bytes behind the entities of groups.
    pub tails: u64,
}

impl Counts {
    /// Nothing was counted.
    pub(crate) fn none() -> Counts
        ensures { result ≡ no_counts }
    {
        Counts {
            items: 0,
            located: 0,
            wide: 0,
            strings: 0,
            links: 0,
            targets: 0,
            holders: 0,
            picks: 0,
            idat: 0,
            mdat: 0,
            groups: 0,
            entities: 0,
            tails: 0,
        }
    }

    /// Both together.
    pub fn plus(self, more: Counts) -> Counts
        ensures { result ≡ capped_counts (sum_of self more) }
    {
        Counts {
            items: self.items.saturating_add(more.items),
            located: self.located.saturating_add(more.located),
            wide: self.wide.saturating_add(more.wide),
            strings: self.strings.saturating_add(more.strings),
            links: self.links.saturating_add(more.links),
            targets: self.targets.saturating_add(more.targets),
            holders: self.holders.saturating_add(more.holders),
            picks: self.picks.saturating_add(more.picks),
            idat: self.idat.saturating_add(more.idat),
            mdat: self.mdat.saturating_add(more.mdat),
            groups: self.groups.saturating_add(more.groups),
            entities: self.entities.saturating_add(more.entities),
            tails: self.tails.saturating_add(more.tails),
        }
    }

    /// These without a part of them.
    pub fn minus(self, less: Counts) -> Counts
        requires { HasCounts self less }
        ensures { sum_of result less ≡ self }
    {
        Counts {
            items: self.items - less.items,
            located: self.located - less.located,
            wide: self.wide - less.wide,
            strings: self.strings - less.strings,
            links: self.links - less.links,
            targets: self.targets - less.targets,
            holders: self.holders - less.holders,
            picks: self.picks - less.picks,
            idat: self.idat - less.idat,
            mdat: self.mdat - less.mdat,
            groups: self.groups - less.groups,
            entities: self.entities - less.entities,
            tails: self.tails - less.tails,
        }
    }
}

/// A mark as a number.
pub(crate) fn bit(is_set: bool) -> u64
    ensures { result ≡ stated_bit is_set }
{
    if is_set { 1 } else { 0 }
}

/// The bytes of a string and of the zero byte that ends it.
fn ended(bytes: &[u8]) -> u64
    ensures { result ≡ length (zero_ended bytes.now) }
{
    bytes.len() as u64 + 1
}

/// The same, where a string that is empty is left out.
fn ended_if_any(bytes: &[u8]) -> u64
    ensures { result ≡ length (zero_ended_if_any bytes.now) }
{
    if bytes.is_empty() { 0 } else { ended(bytes) }
}

/// The bytes of the strings that the `infe` of a `mime` has behind its name.
fn content_len(item: &Item<'_>) -> u64
    ensures { result ≡ capped (length (content_text (info_of (item_of item.now)))) }
{
    if item.kind == MIME {
        ended(item.content).saturating_add(ended_if_any(item.encoding))
    } else {
        0
    }
}

/// The bytes of the string that the `infe` of a `uri ` has behind its name.
fn uri_len(item: &Item<'_>) -> u64
    ensures { result ≡ capped (length (uri_text (info_of (item_of item.now)))) }
{
    if item.kind == URI { ended(item.uri) } else { 0 }
}

/// The bytes of all strings of an item's `infe`.
pub(crate) fn strings_len(item: &Item<'_>) -> u64
    ensures { result ≡ capped (strings_of (item_of item.now)) }
{
    ended(item.name)
        .saturating_add(content_len(item))
        .saturating_add(uri_len(item))
}

/// The ids in reference lists.
pub(crate) fn count_targets(refs: &[RefList]) -> u64
    ensures { result ≡ capped (targets_of refs.now) }
{
    let mut sum: u64 = 0;
    for list in refs {
        sum = sum.saturating_add(list.to.len() as u64);
    }
    sum
}

/// Whether the bytes of an item stand in `idat`: those of a `grid` or an `iovl` with 1 to 256 bytes.
pub fn in_idat(item: &Item<'_>) -> bool
    ensures { result ≡ stands_in_idat (item_of item.now) }
{
    (item.kind == GRID || item.kind == IOVL) && item.body.len() > 0 && item.body.len() <= 256
}

/// What is counted of an item.
pub fn count_item(item: &Item<'_>) -> Counts
    ensures { result ≡ capped_counts (counts_of_item (item_of item.now)) }
{
    let len = item.body.len();
    let in_idat = in_idat(item);
    Counts {
        items: 1,
        located: bit(len > 0),
        wide: bit(item.id >= 65_536),
        strings: strings_len(item),
        links: item.refs.len() as u64,
        targets: count_targets(item.refs.as_slice()),
        holders: bit(item.props.len() > 0),
        picks: item.props.len() as u64,
        idat: if in_idat { len } else { 0 },
        mdat: if in_idat { 0 } else { len },
        groups: 0,
        entities: 0,
        tails: 0,
    }
}

/// What is counted of a group.
pub(crate) fn count_group(group: &Group<'_>) -> Counts
    ensures { result ≡ capped_counts (counts_of_group (group_of group.now)) }
{
    Counts {
        items: 0,
        located: 0,
        wide: 0,
        strings: 0,
        links: 0,
        targets: 0,
        holders: 0,
        picks: 0,
        idat: 0,
        mdat: 0,
        groups: 1,
        entities: group.entities.len() as u64,
        tails: group.tail.len() as u64,
    }
}

/// What is counted over items.
pub(crate) fn count_items(items: &[Item<'_>]) -> Counts
    ensures { result ≡ capped_counts (counts_of_items (items_of items.now)) }
{
    let mut counts = Counts::none();
    for item in items {
        counts = counts.plus(count_item(item));
    }
    counts
}

/// What is counted over groups.
pub(crate) fn count_groups(groups: &[Group<'_>]) -> Counts
    ensures { result ≡ capped_counts (counts_of_groups (groups_of groups.now)) }
{
    let mut counts = Counts::none();
    for group in groups {
        counts = counts.plus(count_group(group));
    }
    counts
}
