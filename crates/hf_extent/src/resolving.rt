//! The bytes of items, or the one fault of their places.

ghost use Rattle.std.specs.Option.{option_copied};
ghost use Rattle.std.specs.Prelude.{◌≡◌, ◌<◌, ℕ, List, Ok, Err, MatchResult, length};
ghost use Rattle.hf_base.specs.Located.{located_items};
ghost use Rattle.hf_base.specs.LocationFaults.{bad_index_fault, loc_cycle_fault, locations_fault};
ghost use Rattle.hf_base.specs.Members.{Rises};
ghost use Rattle.hf_base.specs.Reading.{Gives, MatchOpen};
ghost use Rattle.hf_extent.specs.Bodies.{AreBytesOf};
ghost use Rattle.hf_extent.specs.Known.{linked_fault, extents_fault};
ghost use Rattle.hf_extent.specs.Places.{AreAt, HaveDistinctIds, links_from};
ghost use Rattle.hf_extent.specs.Seen.{items_seen};
ghost use Rattle.hf_order.specs.Order.{IsOrder};

use crate::bodies::bodies;
use crate::chains::{loc_cycle, order};
use crate::checks;
use crate::items::{Located, items};
use crate::leaves::check_leaves;
use crate::sizes::check_sizes;
use crate::sources::bad_index;
use hf_base::{Loc, OpenFault, ReadRefusal, RefBox};
use hf_pieces::Pieces;
use std::alloc::Global;

/// Refuses the first fault that an entry shows by itself.
#[tactic(auto, unfolding(hf_base::specs::LocationFaults::locations_fault))]
fn check_entries(idat: Option<&[u8]>, items: &[Located<'_>]) -> Result<(), ReadRefusal>
    ensures { (F : List ℕ) → MatchResult result
        (λ _. locations_fault F (option_copied idat.entry) (items_seen items.now) ≡ linked_fault F (option_copied idat.entry) (items_seen items.now))
        (λ why. locations_fault F (option_copied idat.entry) (items_seen items.now) ≡ Err why) }
{
    checks::external(items)?;
    checks::bad_method(items)?;
    checks::zero_length(items)?;
    checks::no_idat(idat, items)
}

/// Refuses an extent that passes the end of its source, and items that take too many pieces or bytes.
fn check_extents(
    alloc: Global,
    file: &[u8],
    idat: Option<&[u8]>,
    ids: &[u32],
    items: &[Located<'_>],
    order: &[usize],
) -> Result<(), OpenFault>
    requires rising { Rises ◌<◌ ids.now }
    requires known { AreAt ids.now (items_seen items.now) }
    requires ordered { IsOrder (length ids.now) (links_from ids.now 0 (items_seen items.now)) order.now }
    requires named { bad_index_fault (items_seen items.now) ≡ Ok tt }
    requires ending { loc_cycle_fault (items_seen items.now) ≡ Ok tt }
    ensures { Gives (λ x. x) result (extents_fault file.now (option_copied idat.entry) (items_seen items.now)) }
{
    checks::out_of_file(file, items)?;
    checks::out_of_idat(idat, items)?;
    check_leaves(alloc, ids, items, order)?;
    check_sizes(alloc, file, idat, ids, items, order)
}

/// The bytes of each of these items, in an order of them, or the first fault of their extents and
/// totals, where none comes before these.
fn resolve_ordered<'a>(
    alloc: Global,
    file: &'a [u8],
    idat: Option<&'a [u8]>,
    ids: &[u32],
    items: &[Located<'_>],
    order: &[usize],
) -> Result<Vec<Pieces<'a>>, OpenFault>
    requires rising { Rises ◌<◌ ids.now }
    requires known { AreAt ids.now (items_seen items.now) }
    requires ordered { IsOrder (length ids.now) (links_from ids.now 0 (items_seen items.now)) order.now }
    requires named { bad_index_fault (items_seen items.now) ≡ Ok tt }
    requires ending { loc_cycle_fault (items_seen items.now) ≡ Ok tt }
    requires faults { locations_fault file.now (option_copied idat) (items_seen items.now) ≡ extents_fault file.now (option_copied idat) (items_seen items.now) }
    ensures { MatchOpen result
        (λ bodies. (locations_fault file.now (option_copied idat.entry) (items_seen items.now) ≡ Ok tt) × AreBytesOf file.now (option_copied idat.entry) (items_seen items.now) bodies.items)
        (λ why. locations_fault file.now (option_copied idat.entry) (items_seen items.now) ≡ Err why) }
{
    check_extents(alloc, file, idat, ids, items, order)?;
    Ok(bodies(alloc, file, idat, ids, items, order)?)
}

/// The bytes of each of these items, or the first fault of their places.
fn resolve_items<'a>(
    alloc: Global,
    file: &'a [u8],
    idat: Option<&'a [u8]>,
    ids: &[u32],
    items: &[Located<'_>],
) -> Result<Vec<Pieces<'a>>, OpenFault>
    requires rising { Rises ◌<◌ ids.now }
    requires known { AreAt ids.now (items_seen items.now) }
    ensures { MatchOpen result
        (λ bodies. (locations_fault file.now (option_copied idat.entry) (items_seen items.now) ≡ Ok tt) × AreBytesOf file.now (option_copied idat.entry) (items_seen items.now) bodies.items)
        (λ why. locations_fault file.now (option_copied idat.entry) (items_seen items.now) ≡ Err why) }
{
    check_entries(idat, items)?;
    bad_index(ids, items)?;
    let order = order(alloc, ids, items)?;
    loc_cycle(ids, items, &order)?;
    resolve_ordered(alloc, file, idat, ids, items, &order.nodes)
}

/// The bytes of each of these items, in the order of the ids, as slices of the file and of `idat`: none
/// is copied. Otherwise the first fault of the places of the items, with the least id that has it; the
/// faults are tried in the order `External`, `BadMethod`, `ZeroLength`, `NoIdat`, `BadIndex`, `LocCycle`,
/// `OutOfFile`, `OutOfIdat`, `TooScattered`, `OutOfItem`, `TooManyBytes`. An item without an entry, or
/// whose entry has no extent, has no bytes; entries and references of other ids are passed over.
/// `NoMemory` comes where memory was refused.
///
/// The time grows as n log n in items, entries, references and extents, and is linear in the slices that
/// are made, which are counted before any is made.
pub fn resolve<'a>(
    alloc: Global,
    file: &'a [u8],
    idat: Option<&'a [u8]>,
    ids: &[u32],
    locs: &[Loc],
    links: &[RefBox],
) -> Result<Vec<Pieces<'a>>, OpenFault>
    requires rising { Rises ◌<◌ ids.now }
    requires distinct { HaveDistinctIds locs.now }
    ensures { let items = located_items ids.now locs.now links.now in MatchOpen result
        (λ bodies. (locations_fault file.now (option_copied idat.entry) items ≡ Ok tt) × AreBytesOf file.now (option_copied idat.entry) items bodies.items)
        (λ why. locations_fault file.now (option_copied idat.entry) items ≡ Err why) }
{
    let items = items(alloc, ids, locs, links)?;
    resolve_items(alloc, file, idat, ids, &items)
}
