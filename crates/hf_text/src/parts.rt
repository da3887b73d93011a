//! What is printed of a refusal, and of a reason against an edit.

ghost use Rattle.std.specs.Prelude.{◌≡◌, ◌++◌, Some, None};
ghost use Rattle.hf_text.specs.Lines.{number_field, type_field, reason_text, refusal_text};
ghost use Rattle.hf_text.specs.Parts.{parts_text};

use hf_base::{FourCc, ReadRefusal};
use hf_store::Reason;

/// A name, and its fields in order.
#[derive(Clone, Copy)]
pub struct Parts {
    pub name: &'static str,
    pub kind: Option<FourCc>,
    pub number: Option<u64>,
}

impl Parts {
    fn bare(name: &'static str) -> Parts
        ensures { parts_text result ≡ name.now }
    {
        Parts {
            name,
            kind: None,
            number: None,
        }
    }

    fn of_number(name: &'static str, number: u64) -> Parts
        ensures { parts_text result ≡ name.now ++ number_field number }
    {
        Parts {
            name,
            kind: None,
            number: Some(number),
        }
    }

    fn of_item(name: &'static str, id: u32) -> Parts
        ensures { parts_text result ≡ name.now ++ number_field id }
    {
        Parts::of_number(name, u64::from(id))
    }

    fn of_type(name: &'static str, kind: FourCc) -> Parts
        ensures { parts_text result ≡ name.now ++ type_field kind }
    {
        Parts {
            name,
            kind: Some(kind),
            number: None,
        }
    }

    fn of_box(name: &'static str, kind: FourCc, at: u64) -> Parts
        ensures { parts_text result ≡ name.now ++ type_field kind ++ number_field at }
    {
        Parts {
            name,
            kind: Some(kind),
            number: Some(at),
        }
    }
}

/// The name of a refusal and its fields.
pub fn parts_of(why: &ReadRefusal) -> Parts
    ensures { parts_text result ≡ refusal_text why.now }
{
    match *why {
        ReadRefusal::Short { at } => Parts::of_number("Short", at),
        ReadRefusal::BadSize { at } => Parts::of_number("BadSize", at),
        ReadRefusal::OpenSize { at } => Parts::of_number("OpenSize", at),
        ReadRefusal::TooManyBoxes { at } => Parts::of_number("TooManyBoxes", at),
        ReadRefusal::NoFtyp => Parts::bare("NoFtyp"),
        ReadRefusal::NotMif1 => Parts::bare("NotMif1"),
        ReadRefusal::Movie { at } => Parts::of_number("Movie", at),
        ReadRefusal::NoMeta => Parts::bare("NoMeta"),
        ReadRefusal::Double { kind, at } => Parts::of_box("Double", kind, at),
        ReadRefusal::ProtectionBox { at } => Parts::of_number("ProtectionBox", at),
        ReadRefusal::Xml { at } => Parts::of_number("Xml", at),
        ReadRefusal::Missing { kind } => Parts::of_type("Missing", kind),
        ReadRefusal::BadRecord { kind, at } => Parts::of_box("BadRecord", kind, at),
        ReadRefusal::BadVersion { kind, at } => Parts::of_box("BadVersion", kind, at),
        ReadRefusal::NotPicture => Parts::bare("NotPicture"),
        ReadRefusal::ZeroId { at } => Parts::of_number("ZeroId", at),
        ReadRefusal::Protected { id } => Parts::of_item("Protected", id),
        ReadRefusal::DoubleItem { id } => Parts::of_item("DoubleItem", id),
        ReadRefusal::NoPrimary { id } => Parts::of_item("NoPrimary", id),
        ReadRefusal::BadWidth { at } => Parts::of_number("BadWidth", at),
        ReadRefusal::TooLarge { kind, at } => Parts::of_box("TooLarge", kind, at),
        ReadRefusal::DoubleLocation { id } => Parts::of_item("DoubleLocation", id),
        ReadRefusal::DanglingNeed { id } => Parts::of_item("DanglingNeed", id),
        ReadRefusal::DoubleAssoc { id } => Parts::of_item("DoubleAssoc", id),
        ReadRefusal::BadProperty { id } => Parts::of_item("BadProperty", id),
        ReadRefusal::DoubleGroup { id } => Parts::of_item("DoubleGroup", id),
        ReadRefusal::External { id } => Parts::of_item("External", id),
        ReadRefusal::BadMethod { id } => Parts::of_item("BadMethod", id),
        ReadRefusal::ZeroLength { id } => Parts::of_item("ZeroLength", id),
        ReadRefusal::NoIdat { id } => Parts::of_item("NoIdat", id),
        ReadRefusal::BadIndex { id } => Parts::of_item("BadIndex", id),
        ReadRefusal::LocCycle { id } => Parts::of_item("LocCycle", id),
        ReadRefusal::OutOfFile { id } => Parts::of_item("OutOfFile", id),
        ReadRefusal::OutOfIdat { id } => Parts::of_item("OutOfIdat", id),
        ReadRefusal::TooScattered { count } => Parts::of_number("TooScattered", count),
        ReadRefusal::OutOfItem { id } => Parts::of_item("OutOfItem", id),
        ReadRefusal::TooManyBytes { sum } => Parts::of_number("TooManyBytes", sum),
        ReadRefusal::BadDerived { id } => Parts::of_item("BadDerived", id),
        ReadRefusal::DeriveCycle { id } => Parts::of_item("DeriveCycle", id),
        ReadRefusal::TooManyItems { count } => Parts::of_number("TooManyItems", count),
        ReadRefusal::TooManyLinks { id } => Parts::of_item("TooManyLinks", id),
        ReadRefusal::MetaTooLong { size } => Parts::of_number("MetaTooLong", size),
    }
}

/// The name of a reason and its field.
pub fn parts_of_reason(why: &Reason) -> Parts
    ensures { parts_text result ≡ reason_text why.now }
{
    let name = match *why {
        Reason::NoItem => "NoItem",
        Reason::IsPrimary => "IsPrimary",
        Reason::Needed { by } => return Parts::of_item("Needed", by),
        Reason::NotImage => "NotImage",
        Reason::IsHidden => "IsHidden",
        Reason::IsMinor => "IsMinor",
        Reason::DonorDerived => "DonorDerived",
        Reason::NoSize => "NoSize",
        Reason::OutsidePicture => "OutsidePicture",
        Reason::BadTurn => "BadTurn",
        Reason::BadAxis => "BadAxis",
        Reason::NoProperty => "NoProperty",
        Reason::IsEssential => "IsEssential",
        Reason::PropsFull => "PropsFull",
        Reason::KindsFull => "KindsFull",
        Reason::ItemsFull => "ItemsFull",
        Reason::IdsFull => "IdsFull",
        Reason::BodyFull => "BodyFull",
        Reason::MetaFull => "MetaFull",
    };
    Parts::bare(name)
}
