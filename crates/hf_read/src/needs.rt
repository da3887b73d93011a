//! What items name must be there: the primary item, the items that they need, and their properties.

ghost use Rattle.std.specs.Prelude.{◌≡◌, ◌<◌, ◌&&◌, not, find, nat_lt};
ghost use Rattle.std.specs.List.{list_any};
ghost use Rattle.hf_base.specs.Entries.{has_id};
ghost use Rattle.hf_base.specs.Members.{Rises};
ghost use Rattle.hf_base.specs.Reading.{Reads};
ghost use Rattle.hf_links.specs.Kinds.{is_need};
ghost use Rattle.hf_read.specs.Faults.{is_dangling, is_past, no_primary_fault, dangling_need_fault, bad_property_fault};
ghost use Rattle.hf_read.specs.Kept.{picks_of};

use crate::search::is_item;
use hf_base::{ReadRefusal, RefBox};
use hf_links::is_need_kind;
use hf_prop::{Assoc, Iprp, Pick};

/// Refuses a primary item that is none of these.
#[tactic(auto, unfolding(crate::specs::Faults::no_primary_fault))]
pub(crate) fn check_primary(ids: &[u32], primary: u32) -> Result<(), ReadRefusal>
    requires { Rises ◌<◌ ids.now }
    ensures { Reads (λ x. x) result (no_primary_fault ids.now primary) }
{
    if !is_item(ids, primary) {
        return Err(ReadRefusal::NoPrimary { id: primary });
    }
    Ok(())
}

/// Whether one of these ids is none of the items'.
fn any_absent(ids: &[u32], to: &[u32]) -> bool
    requires { Rises ◌<◌ ids.now }
    ensures { result ≡ list_any (λ id. not (has_id id ids.now)) to.now }
{
    to.iter().any(|id| !is_item(ids, *id))
}

/// Whether an item needs one by these references that is not there.
fn lacks_item(ids: &[u32], link: &RefBox) -> bool
    requires { Rises ◌<◌ ids.now }
    ensures { result ≡ (has_id link.now.from ids.now && (is_need link.now.kind && list_any (λ to. not (has_id to ids.now)) link.now.to)) }
{
    is_item(ids, link.from) && is_need_kind(link.kind) && any_absent(ids, link.to.as_slice())
}

/// The least id of an item that needs one that is not there.
fn first_dangling(ids: &[u32], links: &[RefBox]) -> Option<u32>
    requires { Rises ◌<◌ ids.now }
    ensures { result ≡ find (λ id. list_any (is_dangling ids.now id) links.now) ids.now }
{
    let mut least: Option<u32> = None;
    for link in links {
        if lacks_item(ids, link) {
            least = Some(least.unwrap_or(link.from).min(link.from));
        }
    }
    least
}

/// Refuses items that need one that is not there. The least id of such an item is told.
#[tactic(auto, unfolding(crate::specs::Faults::dangling_need_fault))]
pub(crate) fn check_needs(ids: &[u32], links: &[RefBox]) -> Result<(), ReadRefusal>
    requires { Rises ◌<◌ ids.now }
    ensures { Reads (λ x. x) result (dangling_need_fault ids.now links.now) }
{
    match first_dangling(ids, links) {
        Some(id) => Err(ReadRefusal::DanglingNeed { id }),
        None => Ok(()),
    }
}

/// Whether one of these associations is past the last of so many properties.
fn any_past(props: usize, picks: &[Pick]) -> bool
    ensures { result ≡ list_any (λ pick. nat_lt props pick.index) picks.now }
{
    picks.iter().any(|pick| pick.index as usize > props)
}

/// Whether an item has an association by this entry that is past the last of so many properties.
fn lacks_property(ids: &[u32], props: usize, assoc: &Assoc) -> bool
    requires { Rises ◌<◌ ids.now }
    ensures { result ≡ (has_id assoc.now.item ids.now && list_any (λ pick. nat_lt props pick.index) assoc.now.picks) }
{
    is_item(ids, assoc.item) && any_past(props, assoc.picks.as_slice())
}

/// The least id of an item with an association past the last property.
fn first_past(ids: &[u32], iprp: &Iprp<'_>) -> Option<u32>
    requires { Rises ◌<◌ ids.now }
    ensures { result ≡ find (λ id. list_any (is_past iprp.now.props) (picks_of id iprp.now.assocs)) ids.now }
{
    let props = iprp.props.len();
    let assocs = iprp.assocs.as_slice();
    let mut least: Option<u32> = None;
    for assoc in assocs {
        if lacks_property(ids, props, assoc) {
            least = Some(least.unwrap_or(assoc.item).min(assoc.item));
        }
    }
    least
}

/// Refuses items with an association past the last property. The least id of such an item is told.
#[tactic(auto, unfolding(crate::specs::Faults::bad_property_fault))]
pub(crate) fn check_picks(ids: &[u32], iprp: &Iprp<'_>) -> Result<(), ReadRefusal>
    requires { Rises ◌<◌ ids.now }
    ensures { Reads (λ x. x) result (bad_property_fault ids.now iprp.now) }
{
    match first_past(ids, iprp) {
        Some(id) => Err(ReadRefusal::BadProperty { id }),
        None => Ok(()),
    }
}
