//! Plans of worked stores. Each is the contract of a function that does nothing.

ghost use Rattle.std.specs.Prelude.{◌≡◌, true};
ghost use Rattle.hf_worked.specs.WorkedStores.{every_feature, photograph};
ghost use Rattle.hf_plan.specs.Plan.{sizes_of, IsPlan};
ghost use Rattle.hf_plan.specs.WorkedPlans.{long_sizes_of_every_feature, plan_of_every_feature, plan_of_photograph};

/// The length of each box and the offset of each item: of a photograph with 48 tiles, and of every
/// feature at once, with offsets of four bytes and of eight.
pub fn boxes_are_counted()
    ensures photograph { IsPlan photograph plan_of_photograph }
    ensures every_feature { IsPlan every_feature plan_of_every_feature }
    ensures long { sizes_of true every_feature ≡ long_sizes_of_every_feature }
{}
