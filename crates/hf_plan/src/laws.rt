//! Laws of the canonical file. Each is the contract of a function that does nothing.

ghost use Rattle.hf_plan.specs.Laws.{HasCanon, OneCanon, NarrowIsAsLong, NarrowIsShorter, OnePlan, PlanIsCanon, PlanTellsAll};
ghost use Rattle.hf_plan.specs.Places.{BytesStand};

/// Each valid store has one canonical file, and only one.
pub fn one_canonical_file()
    ensures there { HasCanon }
    ensures one { OneCanon }
{}

/// A layout with offsets of four bytes is shorter than the one with offsets of eight where some
/// item has bytes, and otherwise as long.
pub fn narrow_layout_is_shorter()
    ensures shorter { NarrowIsShorter }
    ensures as_long { NarrowIsAsLong }
{}

/// The bytes of each item stand at the offset that is written for it: in the file, or in the body
/// of `idat`.
pub fn bytes_stand_at_their_offsets()
    ensures { BytesStand }
{}

/// The plan of a store is that of its canonical file: it has the width of offsets, the length and
/// the lengths of boxes, and the bytes of each item stand where the plan says.
pub fn plan_is_of_the_canonical_file()
    ensures { PlanIsCanon }
{}

/// A plan tells the offset of each item, where each distinct property is first used, and the number
/// of each property of an item, which is the place of its box in `ipco`.
pub fn plan_tells_all()
    ensures { PlanTellsAll }
{}

/// A store has one plan, and no other.
pub fn one_plan()
    ensures { OnePlan }
{}
