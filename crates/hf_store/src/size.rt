//! The length of `meta`, told by counts. The greatest number stands for each length that is no less.

ghost use Rattle.std.specs.Prelude.{◌≡◌, ◌+◌, ℕ, ◌==◌, if◌then◌else◌};
ghost use Rattle.std.specs.List.{AllByRecursion};
ghost use Rattle.hf_box.specs.Head.{box_len};
ghost use Rattle.hf_box.specs.Written.{id_width as width_of};
ghost use Rattle.hf_links.specs.Grpl.{group_of, groups_of};
ghost use Rattle.hf_store.specs.Capped.{capped, capped_counts, capped_inner};
ghost use Rattle.hf_store.specs.Counts.{Counts as StatedCounts};
ghost use Rattle.hf_store.specs.Layout.{info_of};
ghost use Rattle.hf_store.specs.Seen.{item_of, items_of};
ghost use Rattle.hf_store.specs.Sizes.{Inner as StatedInner, iinf_size as iinf_stated, iref_size as iref_stated, ipma_size as ipma_stated, iprp_size as iprp_stated, grpl_size as grpl_stated, idat_size as idat_stated, iloc_size as iloc_stated, meta_size_by, short_inner as short_stated};

use crate::tally::Counts;

/// The bytes of the boxes inside `iinf`, `iref`, `ipco` and `grpl`, headers included.
#[derive(Clone, Copy)]
pub struct Inner {
    /// Inside `iinf`.
    pub infes: u64,
    /// Inside `iref`.
    pub links: u64,
    /// Inside `ipco`.
    pub props: u64,
    /// Inside `grpl`.
    pub groups: u64,
}

/// The bytes that an item id takes.
pub(crate) fn id_width(wide: bool) -> u64
    ensures { result ≡ width_of wide }
{
    if wide { 4 } else { 2 }
}

/// The size of a box with a body of so many bytes.
pub(crate) fn boxed(body: u64) -> u64
    ensures { (n : ℕ) → body ≡ capped n → result ≡ capped (box_len n) }
{
    if body < 4_294_967_288 {
        body + 8
    } else {
        body.saturating_add(16)
    }
}

/// The same of a box that is left out where nothing is counted.
fn boxed_if_any(count: u64, body: u64) -> u64
    ensures { (m n : ℕ) → count ≡ capped m → body ≡ capped n → result ≡ capped (if m == 0 then 0 else box_len n) }
{
    if count == 0 { 0 } else { boxed(body) }
}

/// The size of `iprp`, with so many distinct properties, whose boxes take so many bytes.
fn iprp_size(wide: bool, kinds: usize, counts: &Counts, props: u64) -> u64
    ensures { (c : StatedCounts) (b : StatedInner) → counts.now ≡ capped_counts c → props ≡ capped b.props → result ≡ capped (iprp_stated wide kinds c b) }
{
    let entries = counts.holders.saturating_mul(1 + id_width(wide));
    let pick = if kinds > 127 { 2 } else { 1 };
    let picks = counts.picks.saturating_mul(pick);
    let ipma = boxed(entries.saturating_add(picks).saturating_add(8));
    boxed(boxed(props).saturating_add(ipma))
}

/// The size of `iloc`, with offsets of eight bytes.
fn iloc_size(wide: bool, counts: &Counts) -> u64
    ensures { (c : StatedCounts) → counts.now ≡ capped_counts c → result ≡ capped (iloc_stated wide 8 c) }
{
    let width = id_width(wide);
    let entries = counts.located.saturating_mul(22 + width);
    boxed(entries.saturating_add(6 + width))
}

/// The size of `meta` with offsets of eight bytes: with ids of this width, so many distinct properties,
/// these counts, and these bytes of the boxes inside others.
pub(crate) fn meta_size(wide: bool, kinds: usize, counts: &Counts, inner: &Inner) -> u64
    ensures { (c : StatedCounts) (b : StatedInner) → counts.now ≡ capped_counts c → inner.now ≡ capped_inner b → result ≡ capped (meta_size_by wide 8 kinds c b) }
{
    let width = id_width(wide);
    let iinf = boxed(inner.infes.saturating_add(4 + width));
    let iref = boxed_if_any(counts.links, inner.links.saturating_add(4));
    let iprp = iprp_size(wide, kinds, counts, inner.props);
    let grpl = boxed_if_any(counts.groups, inner.groups);
    let idat = boxed_if_any(counts.idat, counts.idat);
    let front = iinf
        .saturating_add(iref)
        .saturating_add(iprp)
        .saturating_add(grpl)
        .saturating_add(idat)
        .saturating_add(49 + width);
    boxed(front.saturating_add(iloc_size(wide, counts)))
}

/// The bytes of the boxes inside others, where each has a header of eight bytes, and those of
/// properties take so many.
pub(crate) fn short_inner(wide: bool, props: u64, counts: &Counts) -> Inner
    ensures { (n : ℕ) (c : StatedCounts) → props ≡ capped n → counts.now ≡ capped_counts c → result ≡ capped_inner (short_stated wide n c) }
{
    let width = id_width(wide);
    let lists = counts.links.saturating_mul(10 + width);
    let targets = counts.targets.saturating_mul(width);
    let groups = counts.groups.saturating_mul(20);
    let entities = counts.entities.saturating_mul(4);
    Inner {
        infes: counts
            .items
            .saturating_mul(18 + width)
            .saturating_add(counts.strings),
        links: lists.saturating_add(targets),
        props,
        groups: groups.saturating_add(entities).saturating_add(counts.tails),
    }
}
