//! The faults of an item that its own entry shows.

ghost use Rattle.std.specs.List.{list_any};
ghost use Rattle.std.specs.Option.{option_copied};
ghost use Rattle.std.specs.Prelude.{◌≡◌};
ghost use Rattle.hf_base.specs.Counts.{inner_size as inner_size_of};
ghost use Rattle.hf_base.specs.LocationFaults.{external_fault, bad_method_fault, zero_length_fault, no_idat_fault, lacks_idat as lacks_idat_of, out_of_file_fault, out_of_idat_fault, end_of as end_is, passes as passes_of, is_whole as is_whole_of, has_zero_length as has_zero_length_of, is_out_of_file as is_out_of_file_of, is_out_of_idat as is_out_of_idat_of};
ghost use Rattle.hf_base.specs.Reading.{Reads};
ghost use Rattle.hf_extent.specs.Seen.{item_seen, items_seen};

use crate::items::Located;
use hf_base::{Extent, ReadRefusal};

/// Refuses the first item whose bytes lie in another file.
#[tactic(auto, unfolding(hf_base::specs::LocationFaults::external_fault))]
pub fn external(items: &[Located<'_>]) -> Result<(), ReadRefusal>
    ensures { Reads (λ x. x) result (external_fault (items_seen items.now)) }
{
    for item in items {
        if item.dref != 0 {
            return Err(ReadRefusal::External { id: item.id });
        }
    }
    Ok(())
}

/// Refuses the first item with an unknown construction method.
#[tactic(auto, unfolding(hf_base::specs::LocationFaults::bad_method_fault))]
pub fn bad_method(items: &[Located<'_>]) -> Result<(), ReadRefusal>
    ensures { Reads (λ x. x) result (bad_method_fault (items_seen items.now)) }
{
    for item in items {
        if item.method > 2 {
            return Err(ReadRefusal::BadMethod { id: item.id });
        }
    }
    Ok(())
}

/// The place behind the last byte of an extent.
pub fn end_of(item: &Located<'_>, extent: &Extent) -> u128
    ensures { result ≡ end_is (item_seen item.now) extent.now }
{
    u128::from(item.base) + u128::from(extent.offset) + u128::from(extent.length)
}

/// Whether an extent passes the end of a source of so many bytes.
pub fn passes(len: u128, item: &Located<'_>, extent: &Extent) -> bool
    ensures { result ≡ passes_of len (item_seen item.now) extent.now }
{
    end_of(item, extent) > len
}

/// Whether the entry takes a whole source.
fn is_whole(item: &Located<'_>, extent: &Extent) -> bool
    ensures { result ≡ is_whole_of (item_seen item.now) extent.now }
{
    (item.method == 1 || item.method == 2)
        && item.extents.len() == 1
        && item.base == 0
        && extent.offset == 0
}

/// Whether an extent has length 0 and does not take the whole source.
fn has_zero_length(item: &Located<'_>) -> bool
    ensures { result ≡ has_zero_length_of (item_seen item.now) }
{
    for extent in item.extents {
        if extent.length == 0 && !is_whole(item, extent) {
            return true;
        }
    }
    false
}

/// Whether an extent passes the end of a source of so many bytes.
fn any_passes(len: u64, item: &Located<'_>) -> bool
    ensures { result ≡ list_any (passes_of len (item_seen item.now)) (item_seen item.now).extents }
{
    for extent in item.extents {
        if passes(u128::from(len), item, extent) {
            return true;
        }
    }
    false
}

/// Whether an extent of method 0 passes the end of a file of so many bytes.
fn is_out_of_file(len: u64, item: &Located<'_>) -> bool
    ensures { result ≡ is_out_of_file_of len (item_seen item.now) }
{
    item.method == 0 && any_passes(len, item)
}

/// Whether an extent of method 1 passes the end of an `idat` of so many bytes.
fn is_out_of_idat(inner: u64, item: &Located<'_>) -> bool
    ensures { result ≡ is_out_of_idat_of inner (item_seen item.now) }
{
    item.method == 1 && any_passes(inner, item)
}

/// Refuses the first item with an extent of length 0 that does not take a whole source.
#[tactic(auto, unfolding(hf_base::specs::LocationFaults::zero_length_fault))]
pub fn zero_length(items: &[Located<'_>]) -> Result<(), ReadRefusal>
    ensures { Reads (λ x. x) result (zero_length_fault (items_seen items.now)) }
{
    for item in items {
        if has_zero_length(item) {
            return Err(ReadRefusal::ZeroLength { id: item.id });
        }
    }
    Ok(())
}

/// Whether it lies in an `idat` that is not there.
fn lacks_idat(idat: Option<&[u8]>, item: &Located<'_>) -> bool
    ensures { result ≡ lacks_idat_of (option_copied idat.entry) (item_seen item.now) }
{
    item.method == 1 && !item.extents.is_empty() && idat.is_none()
}

/// Refuses the first item that lies in an `idat` that is not there.
#[tactic(auto, unfolding(hf_base::specs::LocationFaults::no_idat_fault))]
pub fn no_idat(idat: Option<&[u8]>, items: &[Located<'_>]) -> Result<(), ReadRefusal>
    ensures { Reads (λ x. x) result (no_idat_fault (option_copied idat.entry) (items_seen items.now)) }
{
    for item in items {
        if lacks_idat(idat, item) {
            return Err(ReadRefusal::NoIdat { id: item.id });
        }
    }
    Ok(())
}

/// Refuses the first item with an extent that passes the end of the file.
#[tactic(auto, unfolding(hf_base::specs::LocationFaults::out_of_file_fault))]
pub fn out_of_file(file: &[u8], items: &[Located<'_>]) -> Result<(), ReadRefusal>
    ensures { Reads (λ x. x) result (out_of_file_fault file.now (items_seen items.now)) }
{
    for item in items {
        if is_out_of_file(file.len() as u64, item) {
            return Err(ReadRefusal::OutOfFile { id: item.id });
        }
    }
    Ok(())
}

/// How many bytes an `idat` has, if there is one.
pub fn inner_size(idat: Option<&[u8]>) -> u64
    ensures { result ≡ inner_size_of (option_copied idat.entry) }
{
    match idat {
        Some(inner) => inner.len() as u64,
        None => 0,
    }
}

/// Refuses the first item with an extent that passes the end of `idat`.
#[tactic(auto, unfolding(hf_base::specs::LocationFaults::out_of_idat_fault))]
pub fn out_of_idat(idat: Option<&[u8]>, items: &[Located<'_>]) -> Result<(), ReadRefusal>
    ensures { Reads (λ x. x) result (out_of_idat_fault (option_copied idat.entry) (items_seen items.now)) }
{
    let inner = inner_size(idat);
    for item in items {
        if is_out_of_idat(inner, item) {
            return Err(ReadRefusal::OutOfIdat { id: item.id });
        }
    }
    Ok(())
}
