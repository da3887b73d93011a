//! How long the boxes are.

ghost use Rattle.std.specs.Prelude.{◌≡◌, ◌+◌, ◌^◌, ◌<◌, ◌≤◌, ◌==◌, length, if◌then◌else◌};
ghost use Rattle.hf_box.specs.Head.{box_len};
ghost use Rattle.hf_box.specs.Written.{id_width};
ghost use Rattle.hf_loc.specs.Iloc.{offset_width};
ghost use Rattle.hf_store.specs.Sizes.{AreFew, ipma_size as ipma_stated, iloc_size as iloc_stated, short_infes, short_links, short_groups};
ghost use Rattle.hf_base.specs.declared.limits.TheConstants as limits;
ghost use Rattle.hf_plan.specs.Counted.{sizes_by as stated_sizes};
ghost use Rattle.hf_plan.specs.Plan.{sizes_of};

use hf_store::{Counts, Store};

/// The whole length of each box in bytes, header included, and 0 for a box that is absent.
#[derive(Clone, Copy)]
pub struct Sizes {
    /// The box of the items.
    pub meta: u64,
    /// The types of the items.
    pub iinf: u64,
    /// Their references.
    pub iref: u64,
    /// Their properties, which are `ipco` and `ipma`.
    pub iprp: u64,
    /// The distinct properties.
    pub ipco: u64,
    /// Which item has which of them.
    pub ipma: u64,
    /// The groups.
    pub grpl: u64,
    /// The bytes of small derived items.
    pub idat: u64,
    /// Where the bytes of items stand.
    pub iloc: u64,
    /// The bytes of all other items.
    pub mdat: u64,
}

/// The length of a box with a body of so many bytes.
#[tactic(auto, unfolding(hf_box::specs::Head::box_len))]
fn boxed(body: u64) -> u64
    requires { body < 2 ^ 62 }
    ensures value { result ≡ box_len body }
    ensures bound { result ≤ 16 + body }
{
    if 8 + body < 1 << 32 {
        8 + body
    } else {
        16 + body
    }
}

/// The same of a box that is absent where nothing is counted.
fn boxed_if_any(count: u64, body: u64) -> u64
    requires { body < 2 ^ 62 }
    ensures value { result ≡ (if count == 0 then 0 else box_len body) }
    ensures bound { result ≤ 16 + body }
{
    if count == 0 { 0 } else { boxed(body) }
}

/// Bytes of an item id.
fn id_bytes(wide: bool) -> u64
    ensures value { result ≡ id_width wide }
    ensures bound { result ≤ 4 }
{
    if wide { 4 } else { 2 }
}

/// Bytes of an offset.
fn offset_bytes(long: bool) -> u64
    ensures value { result ≡ offset_width long }
    ensures bound { result ≤ 8 }
{
    if long { 8 } else { 4 }
}

/// The box of the types of items.
fn iinf_size(wide: bool, counts: Counts) -> u64
    requires { AreFew counts }
    ensures value { result ≡ box_len (4 + id_width wide + short_infes wide counts) }
    ensures bound { result ≤ 2 ^ 36 }
{
    let ids = id_bytes(wide);
    boxed(4 + ids + (counts.items * (18 + ids) + counts.strings))
}

/// The box of references, which is absent where there are none.
fn iref_size(wide: bool, counts: Counts) -> u64
    requires { AreFew counts }
    ensures value { result ≡ (if counts.links == 0 then 0 else box_len (4 + short_links wide counts)) }
    ensures bound { result ≤ 2 ^ 36 }
{
    let ids = id_bytes(wide);
    boxed_if_any(
        counts.links,
        4 + (counts.links * (10 + ids) + counts.targets * ids),
    )
}

/// The box that says which item has which of so many distinct properties.
fn ipma_size(wide: bool, kinds: usize, counts: Counts) -> u64
    requires { AreFew counts }
    ensures value { result ≡ ipma_stated wide kinds counts }
    ensures bound { result ≤ 2 ^ 36 }
{
    let ids = id_bytes(wide);
    let number = if kinds > 127 { 2 } else { 1 };
    boxed(8 + counts.holders * (1 + ids) + counts.picks * number)
}

/// The box of groups, which is absent where there are none.
fn grpl_size(counts: Counts) -> u64
    requires { AreFew counts }
    ensures value { result ≡ (if counts.groups == 0 then 0 else box_len (short_groups counts)) }
    ensures bound { result ≤ 2 ^ 36 }
{
    boxed_if_any(
        counts.groups,
        counts.groups * 20 + counts.entities * 4 + counts.tails,
    )
}

/// The box that says where the bytes of items stand.
fn iloc_size(wide: bool, long: bool, counts: Counts) -> u64
    requires { AreFew counts }
    ensures value { result ≡ iloc_stated wide (offset_width long) counts }
    ensures bound { result ≤ 2 ^ 36 }
{
    let ids = id_bytes(wide);
    let offsets = offset_bytes(long);
    boxed(6 + ids + counts.located * (6 + ids + (offsets + offsets)))
}

/// The boxes of a store with these counts and so many distinct properties, whose boxes take so many
/// bytes: with offsets of eight bytes where `long` and of four otherwise.
fn sizes_by(long: bool, wide: bool, kinds: usize, props: u64, counts: Counts) -> Sizes
    requires few { AreFew counts }
    requires props { props ≤ limits.META }
    ensures value { result ≡ stated_sizes long wide kinds props counts }
    ensures bound { result.meta + result.mdat ≤ 2 ^ 41 }
{
    let iinf = iinf_size(wide, counts);
    let iref = iref_size(wide, counts);
    let ipco = boxed(props);
    let ipma = ipma_size(wide, kinds, counts);
    let iprp = boxed(ipco + ipma);
    let grpl = grpl_size(counts);
    let idat = boxed_if_any(counts.idat, counts.idat);
    let iloc = iloc_size(wide, long, counts);
    Sizes {
        meta: boxed(49 + id_bytes(wide) + iinf + iref + iprp + grpl + idat + iloc),
        iinf,
        iref,
        iprp,
        ipco,
        ipma,
        grpl,
        idat,
        iloc,
        mdat: boxed(counts.mdat),
    }
}

/// The boxes of a store, with offsets of eight bytes where `long` and of four otherwise.
pub(crate) fn sizes_with(store: &Store<'_>, long: bool) -> Sizes
    ensures value { result ≡ sizes_of long store.now }
    ensures bound { result.meta + result.mdat ≤ 2 ^ 41 }
{
    let counts = store.counts();
    let wide = counts.wide > 0;
    sizes_by(long, wide, store.kinds(), store.kind_bytes(), counts)
}

/// The whole file with these boxes.
pub(crate) fn file_size(store: &Store<'_>, sizes: &Sizes) -> u64
    requires { sizes.now.meta + sizes.now.mdat ≤ 2 ^ 41 }
    ensures { result ≡ box_len (8 + length store.now.brands.compatible) + sizes.now.meta + sizes.now.mdat }
{
    boxed(8 + store.brands().compatible.len() as u64) + sizes.meta + sizes.mdat
}
