//! What is counted over a store. Each is the contract of a function that does nothing.

ghost use Rattle.hf_store.specs.Offsets.{OffsetsAreCounted, NoneBeforeTheFirst, OneMoreBeforeTheNext, AllBeforeTheEnd, RestIsBehind};
ghost use Rattle.hf_store.specs.Sizes.{SizesAreCounted, BodiesAreCounted, InfesAreCounted, LinksAreCounted, PropsAreCounted, GroupsAreCounted, MetaIsCounted, LongMetaIsCounted, ValidSizesAreCounted, ValidBodiesAreCounted, CountsAreFew};
ghost use Rattle.hf_store.specs.Counts.{CountsAreOfTheLayout, ItemGoes, ItemComes, ItemChanges, GroupGoes, GroupComes, GroupChanges};

/// An item or a group that goes takes its counts with it, one that comes brings its own, and one
/// that stands for another one does both.
pub fn counts_follow_changes()
    ensures item_goes { ItemGoes }
    ensures item_comes { ItemComes }
    ensures item_changes { ItemChanges }
    ensures group_goes { GroupGoes }
    ensures group_comes { GroupComes }
    ensures group_changes { GroupChanges }
{}

/// The counts are lengths of what is laid.
pub fn counts_are_of_the_layout()
    ensures { CountsAreOfTheLayout }
{}

/// The lengths of boxes and of their bodies follow from the counts, the number of distinct properties, and the bytes
/// of the boxes inside others.
pub fn sizes_are_counted()
    ensures boxes { SizesAreCounted }
    ensures bodies { BodiesAreCounted }
{}

/// The bytes of the boxes inside others follow from the counts where their headers take eight
/// bytes.
pub fn short_sizes_are_counted()
    ensures infes { InfesAreCounted }
    ensures links { LinksAreCounted }
    ensures props { PropsAreCounted }
    ensures groups { GroupsAreCounted }
{}

/// `meta` is within its limit exactly where it is so by the counts, and then as long as they tell.
/// A longer one is as long as they tell with its entries and groups, each with its own header.
pub fn meta_is_counted()
    ensures within { MetaIsCounted }
    ensures long { LongMetaIsCounted }
{}

/// The lengths of the boxes of a valid store, and of their bodies, follow from the counts, the number of distinct
/// properties, and the bytes of their boxes.
pub fn valid_sizes_are_counted()
    ensures boxes { ValidSizesAreCounted }
    ensures bodies { ValidBodiesAreCounted }
{}

/// The offset that is written for each item follows from the counts of the items before it, which
/// a loop over the items adds up.
pub fn offsets_are_counted()
    ensures offsets { OffsetsAreCounted }
    ensures first { NoneBeforeTheFirst }
    ensures next { OneMoreBeforeTheNext }
    ensures end { AllBeforeTheEnd }
    ensures rest { RestIsBehind }
{}

/// The counts of a valid store are within the limits.
pub fn counts_are_few()
    ensures { CountsAreFew }
{}
