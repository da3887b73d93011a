//! Small files that are accepted, and the store of each.
//! The answers come from an independent model of the format. Each theorem is the contract of a function that does nothing.

ghost use Rattle.hf_samples.specs.AcceptedFirst.{first_files};
ghost use Rattle.hf_samples.specs.AcceptedSecond.{second_files};
ghost use Rattle.hf_samples.specs.AcceptedThird.{third_files};
ghost use Rattle.hf_samples.specs.AcceptedFourth.{fourth_files};
ghost use Rattle.hf_samples.specs.AcceptedFifth.{fifth_files};
ghost use Rattle.hf_samples.specs.Samples.{AreRead};

/// Each file is read as its store.
pub fn small_files_are_read()
    ensures first { AreRead first_files }
    ensures second { AreRead second_files }
    ensures third { AreRead third_files }
    ensures fourth { AreRead fourth_files }
    ensures fifth { AreRead fifth_files }
{}
