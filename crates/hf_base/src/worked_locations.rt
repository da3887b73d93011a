//! Worked places of items, with their bytes or their fault. Each is the contract of a function that
//! does nothing. A number of method 0 is a place in the file, of method 1 in `idat`, and of method 2 in
//! another item.

ghost use Rattle.std.specs.Prelude.{◌≡◌, ◌+◌, ◌++◌, ℕ, List, [], ◌∷◌, map, replicate, length, Some, None, Ok, Err, true};
ghost use Rattle.hf_base.specs.BytesOf.{bytes_at};
ghost use Rattle.hf_base.specs.Chains.{LiesIn};
ghost use Rattle.hf_base.specs.Counts.{ends, leaves_of, size_of};
ghost use Rattle.hf_base.specs.Located.{located_item, located_items, sources_of, item_with, source_of};
ghost use Rattle.hf_base.specs.LocationFaults.{limited};
ghost use Rattle.hf_base.specs.WorkedLocations.{extent_of, extent, entry_from, entry, located_in, fault, bytes, bare_items, by_reference, chain_entries, chain_links, chain, parted_file, parted_entries, counted};
ghost use Rattle.hf_base.specs.declared.fault.ReadRefusal.TheVariants.{External, BadMethod, ZeroLength, NoIdat, BadIndex, LocCycle, OutOfFile, OutOfIdat, TooScattered, OutOfItem, TooManyBytes};
ghost use Rattle.hf_base.specs.declared.kinds.TheConstants.{DIMG, ILOC};
ghost use Rattle.hf_base.specs.declared.limits.TheConstants.{BODY, PIECES};

/// An item has the fields of its entry and what all its `iloc` references name, in file order, also
/// where that names no item. Other entries and references are passed over.
pub fn items_have_their_entries()
    ensures entry { located_item (entry 6 1 [] ∷ entry_from 7 2 3 4 (extent_of 5 8 9 ∷ []) ∷ []) [] 7
        ≡ record { id = 7; method = 2; dref = 3; base = 4; extents = extent_of 5 8 9 ∷ []; sources = [] } }
    ensures none { located_item (entry_from 8 2 3 4 (extent 0 1 ∷ []) ∷ []) [] 7
        ≡ record { id = 7; method = 0; dref = 0; base = 0; extents = []; sources = [] } }
    ensures sources { sources_of 7 (located_in 7 (2 ∷ 99 ∷ []) ∷ located_in 6 (5 ∷ []) ∷ located_in 8 (6 ∷ []) ∷ record { kind = DIMG; from = 7; to = 4 ∷ [] } ∷
        located_in 7 (1 ∷ 2 ∷ []) ∷ [])
        ≡ 2 ∷ 99 ∷ 1 ∷ 2 ∷ [] }
    ensures joined { located_item [] (located_in 7 (2 ∷ []) ∷ located_in 7 (3 ∷ []) ∷ []) 7
        ≡ record { id = 7; method = 0; dref = 0; base = 0; extents = []; sources = 2 ∷ 3 ∷ [] } }
    ensures order { map (λ r. r.id) (located_items (2 ∷ 5 ∷ 9 ∷ []) (entry 9 0 [] ∷ entry 2 0 [] ∷ []) []) ≡ 2 ∷ 5 ∷ 9 ∷ [] }
{}

/// An index counts from 1. At 0, past the end, or at an id that names no item, there is no source.
pub fn an_index_counts_from_1()
    ensures zero { source_of bare_items by_reference (extent_of 0 0 1) ≡ None }
    ensures one { source_of bare_items by_reference (extent_of 1 0 1) ≡ Some (located_item [] [] 3) }
    ensures no_item { source_of bare_items by_reference (extent_of 2 0 1) ≡ None }
    ensures last { source_of bare_items by_reference (extent_of 3 0 1) ≡ Some (located_item [] [] 2) }
    ensures lower { source_of bare_items by_reference (extent_of 4 0 1) ≡ None }
    ensures past { source_of bare_items by_reference (extent_of 5 0 1) ≡ None }
    ensures far { source_of bare_items by_reference (extent_of 18446744073709551615 0 1) ≡ None }
{}

/// Bytes of extents are joined in the order of the extents and not of their places, and start at base
/// plus offset. An item without an entry, or without an extent, has none.
pub fn extents_are_joined_in_order()
    ensures none { bytes (1 ∷ 2 ∷ []) None (1 ∷ 2 ∷ []) (entry 2 0 [] ∷ []) [] ≡ Some [] ∷ Some [] ∷ [] }
    ensures front { bytes (1 ∷ 2 ∷ 3 ∷ []) None (1 ∷ []) (entry 1 0 (extent 0 2 ∷ []) ∷ []) [] ≡ Some (1 ∷ 2 ∷ []) ∷ [] }
    ensures order { bytes (1 ∷ 2 ∷ 3 ∷ 4 ∷ []) None (1 ∷ []) (entry 1 0 (extent 2 2 ∷ extent 0 2 ∷ []) ∷ []) [] ≡ Some (3 ∷ 4 ∷ 1 ∷ 2 ∷ []) ∷ [] }
    ensures same { bytes (1 ∷ 2 ∷ []) None (1 ∷ []) (entry 1 0 (extent 1 1 ∷ extent 1 1 ∷ []) ∷ []) [] ≡ Some (2 ∷ 2 ∷ []) ∷ [] }
    ensures base { bytes (1 ∷ 2 ∷ 3 ∷ 4 ∷ 5 ∷ 6 ∷ []) None (1 ∷ []) (entry_from 1 0 0 1 (extent 2 3 ∷ extent 0 1 ∷ []) ∷ []) []
        ≡ Some (4 ∷ 5 ∷ 6 ∷ 2 ∷ []) ∷ [] }
    ensures past { bytes (1 ∷ 2 ∷ 3 ∷ 4 ∷ 5 ∷ []) None (1 ∷ []) (entry_from 1 0 0 1 (extent 0 1 ∷ extent 2 3 ∷ []) ∷ []) [] ≡ None ∷ [] }
    ensures past_first { bytes (1 ∷ 2 ∷ 3 ∷ 4 ∷ 5 ∷ []) None (1 ∷ []) (entry_from 1 0 0 1 (extent 2 3 ∷ extent 0 1 ∷ []) ∷ []) [] ≡ None ∷ [] }
    ensures idat { bytes (1 ∷ 2 ∷ []) (Some (7 ∷ 8 ∷ 9 ∷ [])) (1 ∷ []) (entry 1 1 (extent 1 2 ∷ []) ∷ []) [] ≡ Some (8 ∷ 9 ∷ []) ∷ [] }
    ensures no_idat { bytes (1 ∷ 2 ∷ []) None (1 ∷ []) (entry 1 1 (extent 0 1 ∷ []) ∷ []) [] ≡ None ∷ [] }
    ensures far { bytes (replicate 40 0 ++ 170 ∷ 187 ∷ 204 ∷ replicate 176 0) None (1 ∷ []) (entry 1 0 (extent 40 3 ∷ []) ∷ []) []
        ≡ Some (170 ∷ 187 ∷ 204 ∷ []) ∷ [] }
{}

/// A length of 0 takes the whole source: all of `idat`, also an empty one, or all of another item.
pub fn whole_sources_are_taken()
    ensures idat { bytes (1 ∷ 2 ∷ []) (Some (7 ∷ 8 ∷ 9 ∷ [])) (1 ∷ []) (entry 1 1 (extent 0 0 ∷ []) ∷ []) [] ≡ Some (7 ∷ 8 ∷ 9 ∷ []) ∷ [] }
    ensures empty { bytes (1 ∷ 2 ∷ []) (Some []) (1 ∷ []) (entry 1 1 (extent 0 0 ∷ []) ∷ []) [] ≡ Some [] ∷ [] }
    ensures item { bytes (1 ∷ 2 ∷ 3 ∷ []) None (1 ∷ 2 ∷ []) (entry 1 0 (extent 2 1 ∷ extent 0 2 ∷ []) ∷ entry 2 2 (extent 0 0 ∷ []) ∷ [])
        (located_in 2 (1 ∷ []) ∷ [])
        ≡ Some (3 ∷ 1 ∷ 2 ∷ []) ∷ Some (3 ∷ 1 ∷ 2 ∷ []) ∷ [] }
    ensures taken { fault (1 ∷ 2 ∷ 3 ∷ []) (Some []) (1 ∷ 2 ∷ 3 ∷ []) (entry 1 0 (extent 2 1 ∷ extent 0 2 ∷ []) ∷ entry 2 2 (extent 0 0 ∷ []) ∷
        entry 3 1 (extent 0 0 ∷ []) ∷ []) (located_in 2 (1 ∷ []) ∷ [])
        ≡ Ok tt }
{}

/// Item 2 has two extents, the first at the later place, and item 3 lies in item 2. The entries stand in
/// another order than the items, and item 4 has two extents in item 3, by its second reference.
pub fn items_lie_in_items()
    ensures bytes { bytes parted_file None (1 ∷ 2 ∷ 3 ∷ []) parted_entries (located_in 3 (2 ∷ []) ∷ [])
        ≡ Some (170 ∷ 187 ∷ 204 ∷ []) ∷ Some (16 ∷ 17 ∷ 18 ∷ 32 ∷ 33 ∷ 34 ∷ []) ∷ Some (18 ∷ 32 ∷ 33 ∷ 34 ∷ []) ∷ [] }
    ensures taken { fault parted_file None (1 ∷ 2 ∷ 3 ∷ []) parted_entries (located_in 3 (2 ∷ []) ∷ []) ≡ Ok tt }
    ensures twice { bytes (1 ∷ 2 ∷ 3 ∷ 4 ∷ []) None (2 ∷ 3 ∷ 4 ∷ []) (entry 2 0 (extent 1 3 ∷ []) ∷ entry 3 2 (extent 2 1 ∷ extent 0 2 ∷ []) ∷
        entry_from 4 2 0 1 (extent_of 2 0 2 ∷ extent_of 1 1 1 ∷ []) ∷ []) (located_in 3 (2 ∷ []) ∷ located_in 4 (2 ∷ []) ∷ located_in 4 (3 ∷ []) ∷ [])
        ≡ Some (2 ∷ 3 ∷ 4 ∷ []) ∷ Some (4 ∷ 2 ∷ 3 ∷ []) ∷ Some (2 ∷ 3 ∷ 4 ∷ []) ∷ [] }
    ensures past { bytes (1 ∷ 2 ∷ 3 ∷ []) None (1 ∷ 2 ∷ []) (entry 1 0 (extent 0 2 ∷ []) ∷ entry 2 2 (extent 1 2 ∷ []) ∷ []) (located_in 2 (1 ∷ []) ∷ [])
        ≡ Some (1 ∷ 2 ∷ []) ∷ None ∷ [] }
    ensures dangling { bytes (1 ∷ 2 ∷ 3 ∷ []) None (1 ∷ 2 ∷ []) (entry 1 0 (extent 0 2 ∷ []) ∷ entry 2 2 (extent_of 2 0 1 ∷ []) ∷ [])
        (located_in 2 (9 ∷ 1 ∷ []) ∷ [])
        ≡ Some (1 ∷ 2 ∷ []) ∷ Some (1 ∷ []) ∷ [] }
{}

/// Item 3 lies in item 2, which lies in item 1: it wants two levels beside its own.
pub fn levels_are_counted()
    ensures none { bytes_at 0 (5 ∷ []) None chain (located_item chain_entries chain_links 2) ≡ None }
    ensures file { bytes_at 0 (5 ∷ []) None chain (located_item chain_entries chain_links 1) ≡ Some (5 ∷ []) }
    ensures one { bytes_at 1 (5 ∷ []) None chain (located_item chain_entries chain_links 3) ≡ None }
    ensures two { bytes_at 2 (5 ∷ []) None chain (located_item chain_entries chain_links 3) ≡ Some (5 ∷ []) }
    ensures whole { bytes (5 ∷ []) None (1 ∷ 2 ∷ 3 ∷ []) chain_entries chain_links ≡ Some (5 ∷ []) ∷ Some (5 ∷ []) ∷ Some (5 ∷ []) ∷ [] }
{}

/// An item lies in the items that its extents of method 2 name.
pub fn an_item_lies_in_its_source()
    ensures { LiesIn chain (located_item chain_entries chain_links 3) (located_item chain_entries chain_links 2) }
{}

/// An extent in the file or in `idat` is one leaf, also of an empty `idat`, and one in another item has
/// the leaves of that item, also where it takes the whole of it. Lengths are those that are stated, and
/// of a whole source its own.
pub fn leaves_and_lengths_are_counted()
    ensures leaves { map (leaves_of counted) counted ≡ 2 ∷ 2 ∷ 3 ∷ 1 ∷ 0 ∷ [] }
    ensures sizes { map (size_of 100 7 counted) counted ≡ 3 ∷ 3 ∷ 5 ∷ 7 ∷ 0 ∷ [] }
    ensures empty { leaves_of (located_items (1 ∷ []) (entry 1 1 (extent 0 0 ∷ []) ∷ []) []) (located_item (entry 1 1 (extent 0 0 ∷ []) ∷ []) [] 1) ≡ 1 }
    ensures ends { let items = located_items (1 ∷ 2 ∷ 3 ∷ []) (entry 1 0 (extent 0 2 ∷ []) ∷ entry 2 1 (extent 0 2 ∷ []) ∷
        entry 3 2 (extent 0 0 ∷ []) ∷ []) (located_in 3 (1 ∷ []) ∷ []) in map (ends items) items
        ≡ true ∷ true ∷ true ∷ [] }
{}

/// A data reference that is not 0, also without an extent. Entries that name no item are passed over.
pub fn external_items_are_refused()
    ensures least { fault [] None (1 ∷ 2 ∷ 3 ∷ []) (entry_from 3 0 1 0 [] ∷ entry_from 2 0 65535 0 [] ∷ entry 1 0 [] ∷ []) [] ≡ Err (External 2) }
    ensures none { fault [] None (1 ∷ 2 ∷ []) (entry_from 3 0 1 0 [] ∷ entry_from 0 3 1 0 (extent 0 0 ∷ []) ∷ []) [] ≡ Ok tt }
{}

/// A construction method above 2, also without an extent.
pub fn unknown_methods_are_refused()
    ensures least { fault [] None (1 ∷ 2 ∷ 3 ∷ []) (entry 3 15 [] ∷ entry 2 3 [] ∷ entry 1 2 [] ∷ []) [] ≡ Err (BadMethod 2) }
    ensures none { fault [] None (1 ∷ 2 ∷ 3 ∷ []) (entry 3 0 [] ∷ entry 2 1 [] ∷ entry 1 2 [] ∷ []) [] ≡ Ok tt }
{}

/// A length of 0 stands for a whole source only in the one extent of an entry of method 1 or 2, where
/// base plus offset is 0.
pub fn other_zero_lengths_are_refused()
    ensures least { fault [] None (1 ∷ 2 ∷ 3 ∷ []) (entry 3 0 (extent 0 0 ∷ []) ∷ entry 2 0 (extent 0 0 ∷ []) ∷ entry 1 0 [] ∷ []) [] ≡ Err (ZeroLength 2) }
    ensures first_of_two { fault (5 ∷ []) (Some (5 ∷ [])) (1 ∷ []) (entry 1 1 (extent 0 0 ∷ extent 0 1 ∷ []) ∷ []) [] ≡ Err (ZeroLength 1) }
    ensures second_of_two { fault (5 ∷ []) (Some (5 ∷ [])) (1 ∷ []) (entry 1 1 (extent 0 1 ∷ extent 0 0 ∷ []) ∷ []) [] ≡ Err (ZeroLength 1) }
    ensures offset { fault (5 ∷ []) (Some (5 ∷ [])) (1 ∷ []) (entry 1 1 (extent 1 0 ∷ []) ∷ []) [] ≡ Err (ZeroLength 1) }
    ensures base { fault (5 ∷ []) (Some (5 ∷ [])) (1 ∷ []) (entry_from 1 1 0 1 (extent 0 0 ∷ []) ∷ []) [] ≡ Err (ZeroLength 1) }
    ensures in_item { fault (5 ∷ []) None (1 ∷ 2 ∷ []) (entry 1 0 (extent 0 1 ∷ []) ∷ entry 2 2 (extent 0 0 ∷ extent 0 1 ∷ []) ∷ [])
        (located_in 2 (1 ∷ []) ∷ [])
        ≡ Err (ZeroLength 2) }
    ensures whole_idat { fault (5 ∷ []) (Some (5 ∷ [])) (1 ∷ []) (entry 1 1 (extent 0 0 ∷ []) ∷ []) [] ≡ Ok tt }
    ensures whole_item { fault (5 ∷ []) None (1 ∷ 2 ∷ []) (entry 1 0 (extent 0 1 ∷ []) ∷ entry 2 2 (extent 0 0 ∷ []) ∷ []) (located_in 2 (1 ∷ []) ∷ [])
        ≡ Ok tt }
{}

/// An extent of method 1 where there is no `idat`.
pub fn a_missing_idat_is_refused()
    ensures least { fault [] None (1 ∷ 2 ∷ 3 ∷ []) (entry 3 1 (extent 0 1 ∷ []) ∷ entry 2 1 (extent 0 0 ∷ []) ∷ entry 1 1 [] ∷ []) [] ≡ Err (NoIdat 2) }
    ensures no_extent { fault [] None (1 ∷ []) (entry 1 1 [] ∷ []) [] ≡ Ok tt }
    ensures empty { fault [] (Some []) (1 ∷ []) (entry 1 1 (extent 0 0 ∷ []) ∷ []) [] ≡ Ok tt }
    ensures others { fault (5 ∷ []) None (1 ∷ 2 ∷ []) (entry 1 0 (extent 0 1 ∷ []) ∷ entry 2 2 (extent 0 1 ∷ []) ∷ []) (located_in 2 (1 ∷ []) ∷ []) ≡ Ok tt }
{}

/// An index of method 2 that is 0, past the references, or at an id that names no item. Other methods
/// have no index.
pub fn bad_indexes_are_refused()
    ensures least { fault (5 ∷ []) None (1 ∷ 2 ∷ 3 ∷ []) (entry 3 2 (extent_of 0 0 1 ∷ []) ∷ entry 2 2 (extent_of 1 0 1 ∷ []) ∷
        entry 1 0 (extent 0 1 ∷ []) ∷ []) []
        ≡ Err (BadIndex 2) }
    ensures zero { fault (5 ∷ []) None (1 ∷ 2 ∷ []) (entry 1 0 (extent 0 1 ∷ []) ∷ entry 2 2 (extent_of 1 0 1 ∷ extent_of 0 0 1 ∷ []) ∷ [])
        (located_in 2 (1 ∷ []) ∷ [])
        ≡ Err (BadIndex 2) }
    ensures past { fault (5 ∷ []) None (1 ∷ 2 ∷ []) (entry 1 0 (extent 0 1 ∷ []) ∷ entry 2 2 (extent_of 1 0 1 ∷ extent_of 2 0 1 ∷ []) ∷ [])
        (located_in 2 (1 ∷ []) ∷ [])
        ≡ Err (BadIndex 2) }
    ensures no_item { fault (5 ∷ []) None (1 ∷ 2 ∷ []) (entry 1 0 (extent 0 1 ∷ []) ∷ entry 2 2 (extent_of 2 0 1 ∷ []) ∷ []) (located_in 2 (1 ∷ 9 ∷ []) ∷ [])
        ≡ Err (BadIndex 2) }
    ensures last { fault (5 ∷ []) None (1 ∷ 2 ∷ []) (entry 1 0 (extent 0 1 ∷ []) ∷ entry 2 2 (extent_of 2 0 1 ∷ []) ∷ []) (located_in 2 (9 ∷ 1 ∷ []) ∷ [])
        ≡ Ok tt }
    ensures others { fault (5 ∷ []) (Some (5 ∷ [])) (1 ∷ 2 ∷ []) (entry 1 0 (extent_of 0 0 1 ∷ []) ∷ entry 2 1 (extent_of 9 0 1 ∷ []) ∷ []) [] ≡ Ok tt }
    ensures no_extent { fault [] None (1 ∷ []) (entry 1 2 [] ∷ []) [] ≡ Ok tt }
{}

/// Items that lie in each other, or in such items, or in themselves.
pub fn items_located_in_each_other_are_refused()
    ensures two { fault [] None (4 ∷ 5 ∷ []) (entry 5 2 (extent 0 1 ∷ []) ∷ entry 4 2 (extent 0 1 ∷ []) ∷ []) (located_in 4 (5 ∷ []) ∷
        located_in 5 (4 ∷ []) ∷ [])
        ≡ Err (LocCycle 4) }
    ensures tail { fault [] None (3 ∷ 4 ∷ 5 ∷ []) (entry 5 2 (extent 0 1 ∷ []) ∷ entry 4 2 (extent 0 1 ∷ []) ∷ entry 3 2 (extent 0 1 ∷ []) ∷ [])
        (located_in 4 (5 ∷ []) ∷ located_in 5 (4 ∷ []) ∷ located_in 3 (4 ∷ []) ∷ [])
        ≡ Err (LocCycle 3) }
    ensures itself { fault (5 ∷ []) None (1 ∷ 2 ∷ []) (entry 1 0 (extent 0 1 ∷ []) ∷ entry 2 2 (extent 0 1 ∷ extent_of 2 0 1 ∷ []) ∷ [])
        (located_in 2 (1 ∷ 2 ∷ []) ∷ [])
        ≡ Err (LocCycle 2) }
    ensures no_bytes { bytes [] None (4 ∷ 5 ∷ []) (entry 5 2 (extent 0 1 ∷ []) ∷ entry 4 2 (extent 0 1 ∷ []) ∷ []) (located_in 4 (5 ∷ []) ∷
        located_in 5 (4 ∷ []) ∷ [])
        ≡ None ∷ None ∷ [] }
    ensures unused { fault (5 ∷ []) None (4 ∷ 5 ∷ []) (entry 5 2 (extent 0 1 ∷ []) ∷ entry 4 0 (extent 0 1 ∷ []) ∷ []) (located_in 4 (5 ∷ []) ∷
        located_in 5 (4 ∷ []) ∷ [])
        ≡ Ok tt }
    ensures chain { fault (5 ∷ []) None (3 ∷ 4 ∷ 5 ∷ []) (entry 3 2 (extent 0 1 ∷ []) ∷ entry 4 2 (extent 0 1 ∷ []) ∷ entry 5 0 (extent 0 1 ∷ []) ∷ [])
        (located_in 3 (4 ∷ []) ∷ located_in 4 (5 ∷ []) ∷ [])
        ≡ Ok tt }
{}

/// An extent that passes the end of the file. Base, offset and length are added and never wrap.
pub fn extents_past_the_file_are_refused()
    ensures least { fault (1 ∷ 2 ∷ 3 ∷ []) None (1 ∷ 2 ∷ 3 ∷ []) (entry 3 0 (extent 3 1 ∷ []) ∷ entry 2 0 (extent 0 1 ∷ extent 0 4 ∷ []) ∷
        entry 1 0 (extent 0 3 ∷ []) ∷ []) []
        ≡ Err (OutOfFile 2) }
    ensures base { fault (1 ∷ 2 ∷ 3 ∷ []) None (1 ∷ []) (entry_from 1 0 0 1 (extent 1 2 ∷ []) ∷ []) [] ≡ Err (OutOfFile 1) }
    ensures within { fault (1 ∷ 2 ∷ 3 ∷ []) None (1 ∷ []) (entry_from 1 0 0 1 (extent 1 1 ∷ []) ∷ []) [] ≡ Ok tt }
    ensures longer_items { fault (1 ∷ 2 ∷ []) None (1 ∷ 2 ∷ []) (entry 1 0 (extent 0 2 ∷ extent 0 2 ∷ []) ∷ entry 2 2 (extent 0 4 ∷ []) ∷ [])
        (located_in 2 (1 ∷ []) ∷ [])
        ≡ Ok tt }
    ensures of_193_bytes { fault (replicate 193 0) None (1 ∷ []) (entry 1 0 (extent 190 4 ∷ []) ∷ []) [] ≡ Err (OutOfFile 1) }
    ensures of_193_bytes_within { fault (replicate 193 0) None (1 ∷ []) (entry 1 0 (extent 190 3 ∷ []) ∷ []) [] ≡ Ok tt }
    ensures greatest { fault (1 ∷ 2 ∷ 3 ∷ []) None (1 ∷ [])
        (entry_from 1 0 0 18446744073709551615 (extent 18446744073709551615 18446744073709551615 ∷ []) ∷ []) []
        ≡ Err (OutOfFile 1) }
    ensures wrapping { fault (1 ∷ 2 ∷ 3 ∷ []) None (1 ∷ []) (entry_from 1 0 0 18446744073709551615 (extent 1 1 ∷ []) ∷ []) [] ≡ Err (OutOfFile 1) }
{}

/// An extent that passes the end of `idat`.
pub fn extents_past_idat_are_refused()
    ensures least { fault (1 ∷ 2 ∷ 3 ∷ 4 ∷ []) (Some (7 ∷ 8 ∷ 9 ∷ [])) (1 ∷ 2 ∷ 3 ∷ []) (entry 3 1 (extent 3 1 ∷ []) ∷
        entry 2 1 (extent 0 1 ∷ extent 0 4 ∷ []) ∷ entry 1 1 (extent 0 3 ∷ []) ∷ []) []
        ≡ Err (OutOfIdat 2) }
    ensures base { fault (1 ∷ 2 ∷ 3 ∷ 4 ∷ []) (Some (7 ∷ 8 ∷ 9 ∷ [])) (1 ∷ []) (entry_from 1 1 0 1 (extent 1 2 ∷ []) ∷ []) [] ≡ Err (OutOfIdat 1) }
    ensures within { fault (1 ∷ 2 ∷ []) (Some (7 ∷ 8 ∷ 9 ∷ [])) (1 ∷ []) (entry_from 1 1 0 1 (extent 1 1 ∷ []) ∷ []) [] ≡ Ok tt }
    ensures file { fault (1 ∷ 2 ∷ 3 ∷ 4 ∷ []) (Some (7 ∷ 8 ∷ 9 ∷ [])) (1 ∷ []) (entry 1 0 (extent 0 4 ∷ []) ∷ []) [] ≡ Ok tt }
{}

/// An extent that passes the end of the item that it lies in. A whole source counts with its length.
pub fn extents_past_their_item_are_refused()
    ensures least { fault (1 ∷ 2 ∷ 3 ∷ 4 ∷ []) None (1 ∷ 2 ∷ 3 ∷ 4 ∷ []) (entry 4 2 (extent 3 1 ∷ []) ∷ entry 3 2 (extent 0 1 ∷ extent 0 4 ∷ []) ∷
        entry 2 2 (extent 0 3 ∷ []) ∷ entry 1 0 (extent 0 2 ∷ extent 0 1 ∷ []) ∷ []) (located_in 2 (1 ∷ []) ∷ located_in 3 (1 ∷ []) ∷ located_in 4
        (1 ∷ []) ∷ [])
        ≡ Err (OutOfItem 3) }
    ensures base { fault (1 ∷ 2 ∷ 3 ∷ 4 ∷ []) None (1 ∷ 2 ∷ []) (entry 1 0 (extent 0 3 ∷ []) ∷ entry_from 2 2 0 1 (extent 1 2 ∷ []) ∷ [])
        (located_in 2 (1 ∷ []) ∷ [])
        ≡ Err (OutOfItem 2) }
    ensures within { fault (1 ∷ 2 ∷ 3 ∷ 4 ∷ []) None (1 ∷ 2 ∷ []) (entry 1 0 (extent 0 3 ∷ []) ∷ entry_from 2 2 0 1 (extent 1 1 ∷ []) ∷ [])
        (located_in 2 (1 ∷ []) ∷ [])
        ≡ Ok tt }
    ensures whole { fault (1 ∷ 2 ∷ 3 ∷ 4 ∷ []) None (1 ∷ 2 ∷ 3 ∷ []) (entry 1 0 (extent 0 3 ∷ []) ∷ entry 2 2 (extent 0 0 ∷ []) ∷
        entry 3 2 (extent 0 4 ∷ []) ∷ []) (located_in 2 (1 ∷ []) ∷ located_in 3 (2 ∷ []) ∷ [])
        ≡ Err (OutOfItem 3) }
    ensures whole_within { fault (1 ∷ 2 ∷ 3 ∷ 4 ∷ []) None (1 ∷ 2 ∷ 3 ∷ []) (entry 1 0 (extent 0 3 ∷ []) ∷ entry 2 2 (extent 0 0 ∷ []) ∷
        entry 3 2 (extent 0 3 ∷ []) ∷ []) (located_in 2 (1 ∷ []) ∷ located_in 3 (2 ∷ []) ∷ [])
        ≡ Ok tt }
    ensures empty { fault [] None (1 ∷ 2 ∷ []) (entry 2 2 (extent 0 1 ∷ []) ∷ []) (located_in 2 (1 ∷ []) ∷ []) ≡ Err (OutOfItem 2) }
{}

/// The limits on leaves and bytes, at both sides, and where the number that is told stops.
pub fn limits_are_told()
    ensures leaves { limited PIECES (λ count. TooScattered count) PIECES ≡ Ok tt }
    ensures a_leaf_more { limited PIECES (λ count. TooScattered count) (PIECES + 1) ≡ Err (TooScattered 1048577) }
    ensures bytes { limited BODY (λ total. TooManyBytes total) BODY ≡ Ok tt }
    ensures a_byte_more { limited BODY (λ total. TooManyBytes total) (BODY + 1) ≡ Err (TooManyBytes (BODY + 1)) }
    ensures greatest { limited BODY (λ total. TooManyBytes total) 18446744073709551615 ≡ Err (TooManyBytes 18446744073709551615) }
    ensures stops { limited BODY (λ total. TooManyBytes total) 18446744073709551616 ≡ Err (TooManyBytes 18446744073709551615) }
{}

/// The bytes of all items together, in a file of as many bytes as they may be.
pub fn too_many_bytes_are_refused()
    ensures all { (F : List ℕ) → length F ≡ BODY → fault F None (1 ∷ []) (entry 1 0 (extent 0 BODY ∷ []) ∷ []) [] ≡ Ok tt }
    ensures one_more { (F : List ℕ) → length F ≡ BODY → fault F None (1 ∷ 2 ∷ []) (entry 1 0 (extent 0 BODY ∷ []) ∷ entry 2 0 (extent 0 1 ∷ []) ∷ []) []
        ≡ Err (TooManyBytes (BODY + 1)) }
    ensures twice { (F : List ℕ) → length F ≡ BODY → fault F None (1 ∷ 2 ∷ []) (entry 1 0 (extent 0 BODY ∷ []) ∷ entry 2 2 (extent 0 0 ∷ []) ∷ [])
        (located_in 2 (1 ∷ []) ∷ [])
        ≡ Err (TooManyBytes (BODY + BODY)) }
    ensures past_an_item { (F : List ℕ) → length F ≡ BODY → fault F None (1 ∷ 2 ∷ 3 ∷ []) (entry 1 0 (extent 0 BODY ∷ []) ∷
        entry 2 0 (extent 0 BODY ∷ []) ∷ entry 3 2 (extent 1 BODY ∷ []) ∷ []) (located_in 3 (1 ∷ []) ∷ [])
        ≡ Err (OutOfItem 3) }
{}

/// Of two items the lesser one has a fault that is told later, and so that of the other is told.
pub fn faults_are_told_in_order()
    ensures external { fault [] None (1 ∷ 2 ∷ []) (entry 1 3 [] ∷ entry_from 2 0 1 0 [] ∷ []) [] ≡ Err (External 2) }
    ensures bad_method { fault [] None (1 ∷ 2 ∷ []) (entry 1 0 (extent 0 0 ∷ []) ∷ entry 2 3 [] ∷ []) [] ≡ Err (BadMethod 2) }
    ensures zero_length { fault [] None (1 ∷ 2 ∷ []) (entry 1 1 (extent 0 1 ∷ []) ∷ entry 2 0 (extent 0 0 ∷ []) ∷ []) [] ≡ Err (ZeroLength 2) }
    ensures no_idat { fault [] None (1 ∷ 2 ∷ []) (entry 1 2 (extent 0 1 ∷ []) ∷ entry 2 1 (extent 0 1 ∷ []) ∷ []) [] ≡ Err (NoIdat 2) }
    ensures bad_index { fault [] None (1 ∷ 2 ∷ []) (entry 1 2 (extent 0 1 ∷ []) ∷ entry 2 2 (extent 0 1 ∷ []) ∷ []) (located_in 1 (1 ∷ []) ∷ [])
        ≡ Err (BadIndex 2) }
    ensures loc_cycle { fault [] None (1 ∷ 2 ∷ []) (entry 1 0 (extent 0 1 ∷ []) ∷ entry 2 2 (extent 0 1 ∷ []) ∷ []) (located_in 2 (2 ∷ []) ∷ [])
        ≡ Err (LocCycle 2) }
    ensures out_of_file { fault [] (Some []) (1 ∷ 2 ∷ []) (entry 1 1 (extent 0 1 ∷ []) ∷ entry 2 0 (extent 0 1 ∷ []) ∷ []) [] ≡ Err (OutOfFile 2) }
{}
