//! Laws of the edits. Each is the contract of a function that does nothing.

ghost use Rattle.hf_edit.specs.Left.{AddedItemsCome, MetadataHasNoProps, NoItemComes, RestStays, StepsKeepValidity, UntouchedItemsStay};
ghost use Rattle.hf_edit.specs.PictureSize.{PictureSizeIsTold};

/// An edit against which there is no reason leaves a valid store valid, where the store that a
/// thumbnail is taken from is valid too.
pub fn steps_keep_validity()
    ensures { StepsKeepValidity }
{}

/// Every item but the one that is removed stays, with the same id, type, strings, mark, bytes and
/// properties in order, and with its references but those to a removed item. Of the item that they
/// name, `AddExif`, `AddXmp`, `Thumb` and `Primary` leave all, `Hide` and `Show` all but its mark,
/// and `Rotate`, `Mirror`, `Crop` and `Drop` all but its properties. `AddExif`, `AddXmp` and
/// `Thumb` add one item, and no other one comes.
pub fn untouched_items_stay()
    ensures stay { UntouchedItemsStay }
    ensures come { AddedItemsCome }
    ensures none_comes { NoItemComes }
{}

/// The brands stay, the primary item but with `Primary`, the order of the items, behind which an
/// added one stands, and the groups but for the id of a removed item. Metadata that comes has no
/// properties, so that `KindsFull` never speaks against it.
pub fn rest_stays()
    ensures rest { RestStays }
    ensures kinds { MetadataHasNoProps }
{}

/// The size of a picture is the window of the last `clap` (CleanApertureBox of ISO/IEC 14496-12), or
/// what the first `ispe` states (ImageSpatialExtentsProperty of ISO/IEC 23008-12) where there is no
/// `clap`, with its sides swapped where the `irot` (ImageRotation) behind that `clap`, or all of
/// them without one, have an odd number of odd turns. There is none without an `ispe`, where the
/// first `ispe`, an `irot` or a `clap` has no view, and where a side is 0 or above 2^31 - 1.
pub fn picture_size_is_told()
    ensures { PictureSizeIsTold }
{}
