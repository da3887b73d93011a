//! Laws of the item store. Each is the contract of a function that does nothing.

ghost use Rattle.hf_store.specs.Picks.{NumbersSelect, SelectsOnce};
ghost use Rattle.hf_store.specs.References.{BoxesAreWritten, ReferencesComeBack, ReferencesOnce};

/// The property numbers of a canonical file select the properties of each item, in order, and
/// nothing else.
pub fn property_numbers_select()
    ensures selects { NumbersSelect }
    ensures once { SelectsOnce }
{}

/// The reference boxes of a canonical file give each item of a valid store its references back,
/// and no others.
pub fn references_come_back()
    ensures written { BoxesAreWritten }
    ensures back { ReferencesComeBack }
    ensures once { ReferencesOnce }
{}
