//! Laws of what items need, and of redaction. Each is the contract of a function that does nothing.

ghost use Rattle.hf_deps.specs.Kept.{KeptAreTold, KeptIsLeast};
ghost use Rattle.hf_deps.specs.Needs.{LeastNeederIsTold, NoNeederIsTold};
ghost use Rattle.hf_deps.specs.Redacted.{AdditionIsForgotten, RedactedOnce, RedactionKeepsValidity, RemovalIsForgotten};

/// The item that is told to need another one is the least of the other items that have a reference
/// of type `dimg`, `tbas` or `prem` to it, and none is told exactly where there is none.
pub fn least_needer_is_told()
    ensures some { LeastNeederIsTold }
    ensures none { NoNeederIsTold }
{}

/// The ids that are told are those of the items that are kept, and these are the least set that has
/// the primary item and each item that one of it keeps.
pub fn kept_is_least()
    ensures told { KeptAreTold }
    ensures least { KeptIsLeast }
{}

/// A redaction leaves a valid store valid.
pub fn redaction_keeps_validity()
    ensures { RedactionKeepsValidity }
{}

/// Redacting twice is redacting once.
pub fn redacted_once()
    ensures { RedactedOnce }
{}

/// Nothing is left of an item that is not kept: it makes no difference whether it was removed before,
/// and whether an item that keeps nothing was added.
pub fn redaction_forgets()
    ensures removed { RemovalIsForgotten }
    ensures added { AdditionIsForgotten }
{}
