//! What stands in `meta` (ISO/IEC 14496-12, MetaBox).

use hf_base::{Loc, RefBox};
use hf_box::BoxView;
use hf_info::Info;
use hf_links::Group;
use hf_prop::Iprp;

/// The boxes of `meta` that are read.
#[derive(Clone, Copy)]
pub struct MetaParts<'a> {
    /// The handler.
    pub hdlr: BoxView<'a>,
    /// The id of the primary item.
    pub pitm: BoxView<'a>,
    /// The entries on items.
    pub iinf: BoxView<'a>,
    /// Where the bytes of items lie.
    pub iloc: Option<BoxView<'a>>,
    /// References between items.
    pub iref: Option<BoxView<'a>>,
    /// Properties of items.
    pub iprp: Option<BoxView<'a>>,
    /// Groups of items.
    pub grpl: Option<BoxView<'a>>,
    /// Bytes of items.
    pub idat: Option<BoxView<'a>>,
}

/// What stands in these boxes; a missing one has no entries.
#[derive(Drop)]
pub struct MetaTables<'a> {
    /// The entries on items, by rising id.
    pub infos: Vec<Info<'a>>,
    /// The ids of the items, rising.
    pub ids: Vec<u32>,
    /// Where the bytes of items lie.
    pub locs: Vec<Loc>,
    /// References, in file order.
    pub links: Vec<RefBox>,
    /// Properties, and which items have them.
    pub iprp: Iprp<'a>,
    /// Groups, in file order.
    pub groups: Vec<Group<'a>>,
}
