//! An item, and lists of what it has.

ghost use Rattle.std.specs.Prelude.{◌≡◌};

use hf_base::{FourCc, Ids, NoMemory, Series, TryClone};
use hf_links::Group;
use hf_pieces::Pieces;
use hf_prop::Held;
use hf_table::Holder;

/// The references of one type that an item has (SingleItemTypeReferenceBox of ISO/IEC 14496-12).
#[derive(Drop)]
pub struct RefList {
    /// Their type.
    pub kind: FourCc,
    /// The ids of the items that they lead to, in order.
    pub to: Ids,
}

impl TryClone for RefList {
    fn try_clone(&self) -> Result<RefList, NoMemory> {
        Ok(RefList {
            kind: self.kind,
            to: self.to.try_clone()?,
        })
    }
}

/// The references of an item: one list a type, by rising type.
pub type Refs = Series<RefList>;

/// The properties of an item, in the order of their associations.
pub type Props<'a> = Series<Held<'a>>;

/// An item of a file (ISO/IEC 14496-12, ItemInfoEntry): what its entry says, its bytes, its properties
/// and its references.
#[derive(Drop)]
pub struct Item<'a> {
    /// The id, which no other item has; at least 1.
    pub id: u32,
    /// The type.
    pub kind: FourCc,
    /// Whether the item is not to be shown (ISO/IEC 23008-12).
    pub hidden: bool,
    /// The name.
    pub name: &'a [u8],
    /// The content type of a `mime`; empty for every other type.
    pub content: &'a [u8],
    /// The content encoding of a `mime`; empty for every other type.
    pub encoding: &'a [u8],
    /// The URI that is the type of a `uri `; empty for every other type.
    pub uri: &'a [u8],
    /// The bytes, which may be none.
    pub body: Pieces<'a>,
    /// The properties.
    pub props: Props<'a>,
    /// The references.
    pub refs: Refs,
}

impl<'a> TryClone for Item<'a> {
    fn try_clone(&self) -> Result<Item<'a>, NoMemory> {
        Ok(Item {
            id: self.id,
            kind: self.kind,
            hidden: self.hidden,
            name: self.name,
            content: self.content,
            encoding: self.encoding,
            uri: self.uri,
            body: self.body.try_clone()?,
            props: self.props.try_clone()?,
            refs: self.refs.try_clone()?,
        })
    }
}

impl<'a> Holder<'a> for Item<'a> {
    ghost use Rattle.hf_table.specs.Held.{props_in};

    ghost id_of = { λ i. i.id };

    ghost props_of = { λ i. props_in i.props };

    fn id(&self) -> u32 {
        self.id
    }

    fn props(&self) -> &[Held<'a>] {
        self.props.as_slice()
    }
}

/// Items, by rising id.
pub type ItemList<'a> = Series<Item<'a>>;

/// Groups, by rising id.
pub type GroupList<'a> = Series<Group<'a>>;
