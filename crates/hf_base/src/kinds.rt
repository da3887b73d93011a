//! The types of boxes, handlers, brands and items of ISO/IEC 14496-12 and ISO/IEC 23008-12 that are looked for.

use crate::four::FourCc;

/// The box of the brands: `FileTypeBox` of ISO/IEC 14496-12.
pub const FTYP: FourCc = FourCc(*b"ftyp");

/// The box of a movie: `MovieBox` of ISO/IEC 14496-12.
pub const MOOV: FourCc = FourCc(*b"moov");

/// A part of a movie: `MovieFragmentBox` of ISO/IEC 14496-12.
pub const MOOF: FourCc = FourCc(*b"moof");

/// The box of the items: `MetaBox` of ISO/IEC 14496-12.
pub const META: FourCc = FourCc(*b"meta");

/// The box that says what `meta` is of: `HandlerBox` of ISO/IEC 14496-12.
pub const HDLR: FourCc = FourCc(*b"hdlr");

/// The box of the primary item's id: `PrimaryItemBox` of ISO/IEC 14496-12.
pub const PITM: FourCc = FourCc(*b"pitm");

/// The box of the entries on items: `ItemInfoBox` of ISO/IEC 14496-12.
pub const IINF: FourCc = FourCc(*b"iinf");

/// An entry on an item: `ItemInfoEntry` of ISO/IEC 14496-12.
pub const INFE: FourCc = FourCc(*b"infe");

/// Where the bytes of items lie: `ItemLocationBox` of ISO/IEC 14496-12.
pub const ILOC: FourCc = FourCc(*b"iloc");

/// References between items: `ItemReferenceBox` of ISO/IEC 14496-12.
pub const IREF: FourCc = FourCc(*b"iref");

/// Properties of items: `ItemPropertiesBox` of ISO/IEC 14496-12.
pub const IPRP: FourCc = FourCc(*b"iprp");

/// The properties in `iprp`: `ItemPropertyContainerBox` of ISO/IEC 23008-12.
pub const IPCO: FourCc = FourCc(*b"ipco");

/// Which item has which of them: `ItemPropertyAssociationBox` of ISO/IEC 23008-12.
pub const IPMA: FourCc = FourCc(*b"ipma");

/// Groups of items: `GroupsListBox` of ISO/IEC 14496-12.
pub const GRPL: FourCc = FourCc(*b"grpl");

/// Bytes of items: `ItemDataBox` of ISO/IEC 14496-12.
pub const IDAT: FourCc = FourCc(*b"idat");

/// Bytes of items behind `meta`: `MediaDataBox` of ISO/IEC 14496-12.
pub const MDAT: FourCc = FourCc(*b"mdat");

/// Protection of items: `ItemProtectionBox` of ISO/IEC 14496-12.
pub const IPRO: FourCc = FourCc(*b"ipro");

/// A text: `XMLBox` of ISO/IEC 14496-12.
pub const XML: FourCc = FourCc(*b"xml ");

/// A text in bytes: `BinaryXMLBox` of ISO/IEC 14496-12.
pub const BXML: FourCc = FourCc(*b"bxml");

/// The handler type of pictures (ISO/IEC 23008-12).
pub const PICT: FourCc = FourCc(*b"pict");

/// The brand of image files: ISO/IEC 23008-12.
pub const MIF1: FourCc = FourCc(*b"mif1");

/// The brand of image files coded as HEVC: ISO/IEC 23008-12.
pub const HEIC: FourCc = FourCc(*b"heic");

/// The type of an image coded as HEVC: ISO/IEC 23008-12.
pub const HVC1: FourCc = FourCc(*b"hvc1");

/// The type of metadata of a camera: ISO/IEC 23008-12.
pub const EXIF: FourCc = FourCc(*b"Exif");

/// The type of an item with a content type: ISO/IEC 14496-12.
pub const MIME: FourCc = FourCc(*b"mime");

/// The type of an item whose type is a URI: ISO/IEC 14496-12.
pub const URI: FourCc = FourCc(*b"uri ");

/// The type of an image made of tiles: ISO/IEC 23008-12.
pub const GRID: FourCc = FourCc(*b"grid");

/// The type of an image made of others that lie over each other: ISO/IEC 23008-12.
pub const IOVL: FourCc = FourCc(*b"iovl");

/// The type of an image that is another one, changed by its properties: ISO/IEC 23008-12.
pub const IDEN: FourCc = FourCc(*b"iden");

/// The property of a picture's size: `ImageSpatialExtentsProperty` of ISO/IEC 23008-12.
pub const ISPE: FourCc = FourCc(*b"ispe");

/// The property that turns a picture: `ImageRotation` of ISO/IEC 23008-12.
pub const IROT: FourCc = FourCc(*b"irot");

/// The property that mirrors a picture: `ImageMirror` of ISO/IEC 23008-12.
pub const IMIR: FourCc = FourCc(*b"imir");

/// The property that cuts a window out of a picture: `CleanApertureBox` of ISO/IEC 14496-12.
pub const CLAP: FourCc = FourCc(*b"clap");

/// The property of a coded image's decoder configuration: `HEVCConfigurationBox` of ISO/IEC 14496-15.
pub const HVCC: FourCc = FourCc(*b"hvcC");

/// The property of a description by the user: `UserDescriptionProperty` of ISO/IEC 23008-12.
pub const UDES: FourCc = FourCc(*b"udes");

/// The property of the time at which an item was made: `CreationTimeProperty` of ISO/IEC 23008-12.
pub const CRTT: FourCc = FourCc(*b"crtt");

/// The property of the time at which an item was last changed: `ModificationTimeProperty` of ISO/IEC 23008-12.
pub const MDFT: FourCc = FourCc(*b"mdft");

/// The references of a derived image to what it is made of: ISO/IEC 23008-12.
pub const DIMG: FourCc = FourCc(*b"dimg");

/// The references of a picture to the one that it is predicted from: ISO/IEC 23008-12.
pub const TBAS: FourCc = FourCc(*b"tbas");

/// The references of a picture to one whose colours it is multiplied with: ISO/IEC 23008-12.
pub const PREM: FourCc = FourCc(*b"prem");

/// The references of a thumbnail to its picture: ISO/IEC 23008-12.
pub const THMB: FourCc = FourCc(*b"thmb");

/// The references of an auxiliary picture to its picture: ISO/IEC 23008-12.
pub const AUXL: FourCc = FourCc(*b"auxl");

/// The references of metadata to what it describes: ISO/IEC 14496-12.
pub const CDSC: FourCc = FourCc(*b"cdsc");
