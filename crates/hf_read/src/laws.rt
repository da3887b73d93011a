//! Laws of the definitions. Each is the contract of a function that does nothing.

ghost use Rattle.std.specs.Prelude.{◌≡◌, ◌↔◌, ◌<◌, ◌≤◌, ℕ, List, length, map, Some, None, Ok, Err, IsTrue};
ghost use Rattle.hf_base.specs.Counts.{size_of, inner_size};
ghost use Rattle.hf_base.specs.Entries.{has_id, are_distinct};
ghost use Rattle.hf_base.specs.Members.{IsIn, Rises};
ghost use Rattle.hf_base.specs.Number.{IsBytes};
ghost use Rattle.hf_base.specs.declared.fault.ReadRefusal.{ReadRefusal};
ghost use Rattle.hf_base.specs.declared.limits.TheConstants.{FILE};
ghost use Rattle.hf_base.specs.declared.loc.RefBox.{RefBox};
ghost use Rattle.hf_box.specs.Boxes.{BoxAt};
ghost use Rattle.hf_derived.specs.Cycle.{AreAmong, IsLeastCycle};
ghost use Rattle.hf_info.specs.Iinf.{info_ids};
ghost use Rattle.hf_info.specs.Infe.{Info};
ghost use Rattle.hf_links.specs.Grpl.{Group, group_ids};
ghost use Rattle.hf_prop.specs.declared.iprp.Iprp.{Iprp};
ghost use Rattle.hf_store.specs.Picks.{Selects};
ghost use Rattle.hf_store.specs.References.{KeepsRefs};
ghost use Rattle.hf_store.specs.Store.{Item, ItemStore};
ghost use Rattle.hf_read.specs.Denotes.{PicksAreProps, Denotes, DenotesWithin};
ghost use Rattle.hf_read.specs.Kept.{picks_of, kept_refs, kept_props, kept_groups, IsLeft};
ghost use Rattle.hf_read.specs.Reading.{idat_of, reading, fault_of};
ghost use Rattle.hf_read.specs.Tables.{infos_by_id, item_ids, items_in};
ghost use Rattle.hf_read.specs.TopLevel.{Parts, AreParts, parts_of};
ghost use Rattle.hf_read.specs.Walks.{first_walker};

/// Reading from left to right finds exactly the boxes of `meta` that are read.
pub fn parts_are_their_program()
    ensures { (children : List BoxAt) (parts : Parts) → AreParts children parts ↔ (parts_of children ≡ Ok parts) }
{}

/// Among ids that rise, the first from which a walk of as many steps as there are ids exists is the
/// least one from which a walk never ends; where there is none, each walk ends.
pub fn first_walker_is_the_least()
    ensures { (pairs : List (ℕ × ℕ)) (ids : List ℕ) → Rises ◌<◌ ids → AreAmong ids pairs → IsLeastCycle pairs (first_walker pairs ids) }
{}

/// Entries by rising keys are the same entries, and rise where no two have one key.
pub fn rising_entries_rise()
    ensures members { (xs : List Info) (x : Info) → IsIn x (infos_by_id xs) ↔ IsIn x xs }
    ensures rises { (xs : List Info) → IsTrue (are_distinct (info_ids xs)) → Rises ◌<◌ (item_ids xs) }
{}

/// A file denotes at most one store.
pub fn denotes_one_store()
    ensures { (F : List ℕ) (s t : ItemStore) → Denotes F s → Denotes F t → s ≡ t }
{}

/// What is read of a file of at most `FILE` bytes is the store that it denotes within the limits of
/// reading.
pub fn reading_denotes()
    ensures { (F : List ℕ) (s : ItemStore) → IsBytes F → length F ≤ FILE → DenotesWithin F s ↔ (reading F ≡ Ok s) }
{}

/// A file of at most `FILE` bytes has no fault exactly where it denotes a store within the limits of
/// reading, and has one exactly where reading ends with it.
pub fn fault_is_none_where_denoted()
    ensures none { (F : List ℕ) → IsBytes F → length F ≤ FILE → (fault_of F ≡ None) ↔ ((s : ItemStore) × DenotesWithin F s) }
    ensures some { (F : List ℕ) (fault : ReadRefusal) → (fault_of F ≡ Some fault) ↔ (reading F ≡ Err fault) }
{}

/// The reference lists that are computed for an item are those that a store keeps.
pub fn references_are_kept()
    ensures { (ids : List ℕ) (links : List RefBox) (from : ℕ) → KeepsRefs (λ to. has_id to ids) links from (kept_refs ids links from) }
{}

/// The groups of a store are what is left of those that stay, and rise by id where no two have one.
pub fn groups_are_kept()
    ensures members { (ids : List ℕ) (groups : List Group) (g : Group) → IsIn g (kept_groups ids groups) ↔ IsLeft ids groups g }
    ensures rises { (ids : List ℕ) (groups : List Group) → IsTrue (are_distinct (group_ids groups)) → Rises ◌<◌ (group_ids (kept_groups ids groups)) }
{}

/// The properties that are computed for an item are those that its associations select, where none
/// is past the last property.
pub fn properties_are_selected()
    ensures { (ids : List ℕ) (v : Iprp) (id : ℕ) → PicksAreProps ids v → IsIn id ids → Selects v.props (picks_of id v.assocs) (kept_props v id) }
{}

/// The items of a store that a file denotes have as many bytes as their places state.
pub fn items_are_as_long_as_stated()
    ensures { (F : List ℕ) (s : ItemStore) (d : Denotes F s) →
        map (λ (i : Item). length i.bytes) s.items ≡ map (size_of (length F) (inner_size (idat_of d.parts)) (items_in d.tables)) (items_in d.tables) }
{}
