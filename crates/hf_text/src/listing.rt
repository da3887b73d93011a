//! The listing of a store, said by the page.

ghost use Rattle.std.specs.Prelude.{◌≡◌, ◌<◌, ◌≤◌, ◌++◌, [], length, take, if◌then◌else◌, codes};
ghost use Rattle.std.specs.List.{flat_map};
ghost use Rattle.hf_head.specs.Ftyp.{brands_of};
ghost use Rattle.hf_links.specs.Grpl.{group_of};
ghost use Rattle.hf_store.specs.Seen.{item_of};
ghost use Rattle.hf_desk.specs.Calls.{Says};
ghost use Rattle.hf_desk.specs.Pages.{BySay, Gives};
ghost use Rattle.hf_text.specs.Lines.{number_field, type_field};
ghost use Rattle.hf_text.specs.Texts.{byte_text};
ghost use Rattle.hf_text.specs.Listing.{brand_fields, brands_text, entry_text, essential_field, group_text, id_fields, item_text, listing_text, primary_text, prop_text, ref_text, shown_field, string_field};

use crate::text::{byte_text as text_of_byte, plain_count, push_number, push_type};
use arrayvec::ArrayString;
use hf_base::{FourCc, Ids, four_at};
use hf_desk::{Desk, Page, Say, WriteFault};
use hf_head::Brands;
use hf_links::Group;
use hf_prop::Held;
use hf_store::{Item, Props, RefList, Refs, Store};

/// No words of fixed form have more bytes.
const WORDS: usize = 80;

/// Gives a text.
fn give_text<const N: usize, D: Desk>(
    text: &ArrayString<N>,
    page: &mut Page<Say>,
    desk: &mut D,
) -> Result<(), WriteFault>
    ensures { Gives BySay (D.outside desk.old) page.old text.now.bytes result (D.outside desk.new) page.new }
{
    page.give(text.as_str().as_bytes(), desk)
}

/// Gives a space and a number.
fn give_number<D: Desk>(n: u64, page: &mut Page<Say>, desk: &mut D) -> Result<(), WriteFault>
    ensures { Gives BySay (D.outside desk.old) page.old (number_field n) result (D.outside desk.new) page.new }
{
    let mut text: ArrayString<WORDS> = ArrayString::new();
    push_number(&mut text, n);
    give_text(&text, page, desk)
}

/// Gives a space and a type.
fn give_kind<D: Desk>(kind: FourCc, page: &mut Page<Say>, desk: &mut D) -> Result<(), WriteFault>
    ensures { Gives BySay (D.outside desk.old) page.old (type_field kind) result (D.outside desk.new) page.new }
{
    let mut text: ArrayString<WORDS> = ArrayString::new();
    push_type(&mut text, kind);
    give_text(&text, page, desk)
}

/// Gives the brands that take four bytes each.
fn give_kinds<D: Desk>(kinds: &[u8], page: &mut Page<Say>, desk: &mut D) -> Result<(), WriteFault>
    ensures { Gives BySay (D.outside desk.old) page.old (brand_fields kinds.now) result (D.outside desk.new) page.new }
{
    let mut rest = kinds;
    while rest.len() >= 4 {
        give_kind(four_at(rest, 0), page, desk)?;
        rest = &rest[4..];
    }
    Ok(())
}

/// Gives ids, each after a space.
fn give_ids<D: Desk>(ids: &Ids, page: &mut Page<Say>, desk: &mut D) -> Result<(), WriteFault>
    ensures { Gives BySay (D.outside desk.old) page.old (id_fields ids.now) result (D.outside desk.new) page.new }
{
    for i in 0..ids.len() {
        give_number(u64::from(ids.get(i)), page, desk)?;
    }
    Ok(())
}

/// Gives bytes as they print: plain ones as they lie, in runs.
fn give_bytes<D: Desk>(bytes: &[u8], page: &mut Page<Say>, desk: &mut D) -> Result<(), WriteFault>
    ensures { Gives BySay (D.outside desk.old) page.old (flat_map byte_text bytes.now) result (D.outside desk.new) page.new }
{
    let mut rest = bytes;
    while !rest.is_empty() {
        let count = plain_count(rest);
        if count > 0 {
            page.give(&rest[..count], desk)?;
            rest = &rest[count..];
        } else {
            give_text(&text_of_byte(rest[0]), page, desk)?;
            rest = &rest[1..];
        }
    }
    Ok(())
}

/// Gives a space and a string.
fn give_string<D: Desk>(bytes: &[u8], page: &mut Page<Say>, desk: &mut D) -> Result<(), WriteFault>
    ensures { Gives BySay (D.outside desk.old) page.old (string_field bytes.now) result (D.outside desk.new) page.new }
{
    if bytes.is_empty() {
        return page.give(b" -", desk);
    }
    if bytes == b"-".as_slice() {
        return page.give(b" \\x2d", desk);
    }
    page.give(b" ", desk)?;
    give_bytes(bytes, page, desk)
}

/// The words in front of the compatible brands.
fn words_of_brands(major: FourCc, minor: u32) -> ArrayString<WORDS>
    ensures { result.bytes ≡ codes "brands" ++ type_field major ++ number_field minor }
{
    let mut text = ArrayString::new();
    text.push_str("brands");
    push_type(&mut text, major);
    push_number(&mut text, u64::from(minor));
    text
}

/// Gives the line of the brands.
fn give_brands<D: Desk>(
    brands: &Brands<'_>,
    page: &mut Page<Say>,
    desk: &mut D,
) -> Result<(), WriteFault>
    ensures { Gives BySay (D.outside desk.old) page.old (brands_text (brands_of brands.now)) result (D.outside desk.new) page.new }
{
    let words = words_of_brands(brands.major, brands.minor);
    give_text(&words, page, desk)?;
    give_kinds(brands.compatible, page, desk)?;
    page.give(b"\n", desk)
}

/// The line of the primary item.
#[tactic(auto, unfolding(crate::specs::Listing::primary_text))]
fn line_of_primary(id: u32) -> ArrayString<WORDS>
    ensures { result.bytes ≡ primary_text id }
{
    let mut text = ArrayString::new();
    text.push_str("primary");
    push_number(&mut text, u64::from(id));
    text.push('\n');
    text
}

/// Whether an item is shown, in six or seven bytes.
fn shown(hidden: bool) -> &'static str
    ensures text { result.now ≡ shown_field hidden }
    ensures short { length result.now ≤ 7 }
{
    if hidden { " hidden" } else { " shown" }
}

/// The words in front of an item's strings.
fn words_of_item(id: u32, kind: FourCc, len: u64, hidden: bool) -> ArrayString<WORDS>
    ensures { result.bytes ≡ codes "item" ++ number_field id ++ type_field kind ++ number_field len ++ shown_field hidden }
{
    let mut text = ArrayString::new();
    text.push_str("item");
    push_number(&mut text, u64::from(id));
    push_type(&mut text, kind);
    push_number(&mut text, len);
    text.push_str(shown(hidden));
    text
}

/// Gives the line of an item.
fn give_entry<D: Desk>(
    item: &Item<'_>,
    page: &mut Page<Say>,
    desk: &mut D,
) -> Result<(), WriteFault>
    ensures { Gives BySay (D.outside desk.old) page.old (entry_text (item_of item.now)) result (D.outside desk.new) page.new }
{
    let words = words_of_item(item.id, item.kind, item.body.len(), item.hidden);
    give_text(&words, page, desk)?;
    give_string(item.name, page, desk)?;
    give_string(item.content, page, desk)?;
    give_string(item.encoding, page, desk)?;
    give_string(item.uri, page, desk)?;
    page.give(b"\n", desk)
}

/// The essential mark, in nine or ten bytes.
fn mark(essential: bool) -> &'static str
    ensures text { result.now ≡ essential_field essential }
    ensures short { length result.now ≤ 10 }
{
    if essential { " essential" } else { " optional" }
}

/// The line of a property.
#[tactic(auto, unfolding(crate::specs::Listing::prop_text))]
fn line_of_prop(held: &Held<'_>) -> ArrayString<WORDS>
    ensures { result.bytes ≡ prop_text held.now }
{
    let mut text = ArrayString::new();
    text.push_str("  prop");
    push_type(&mut text, held.prop.kind);
    push_number(&mut text, held.prop.body.as_slice().len() as u64);
    text.push_str(mark(held.essential));
    text.push('\n');
    text
}

/// Gives the lines of properties.
fn give_props<D: Desk>(
    props: &Props<'_>,
    page: &mut Page<Say>,
    desk: &mut D,
) -> Result<(), WriteFault>
    ensures { Gives BySay (D.outside desk.old) page.old (flat_map prop_text props.now) result (D.outside desk.new) page.new }
{
    for i in 0..props.len() {
        give_text(&line_of_prop(props.get(i)), page, desk)?;
    }
    Ok(())
}

/// The words in front of the ids of a reference list.
fn words_of_refs(kind: FourCc) -> ArrayString<WORDS>
    ensures { result.bytes ≡ codes "  ref" ++ type_field kind }
{
    let mut text = ArrayString::new();
    text.push_str("  ref");
    push_type(&mut text, kind);
    text
}

/// Gives the line of a reference list.
fn give_ref<D: Desk>(list: &RefList, page: &mut Page<Say>, desk: &mut D) -> Result<(), WriteFault>
    ensures { Gives BySay (D.outside desk.old) page.old (ref_text list.now) result (D.outside desk.new) page.new }
{
    let words = words_of_refs(list.kind);
    give_text(&words, page, desk)?;
    give_ids(&list.to, page, desk)?;
    page.give(b"\n", desk)
}

/// Gives the lines of reference lists.
fn give_refs<D: Desk>(refs: &Refs, page: &mut Page<Say>, desk: &mut D) -> Result<(), WriteFault>
    ensures { Gives BySay (D.outside desk.old) page.old (flat_map ref_text refs.now) result (D.outside desk.new) page.new }
{
    for i in 0..refs.len() {
        give_ref(refs.get(i), page, desk)?;
    }
    Ok(())
}

/// Gives the lines of an item's properties, and behind them those of its references.
fn give_lists<D: Desk>(
    item: &Item<'_>,
    page: &mut Page<Say>,
    desk: &mut D,
) -> Result<(), WriteFault>
    ensures { Gives BySay (D.outside desk.old) page.old (flat_map prop_text item.now.props ++ flat_map ref_text item.now.refs) result (D.outside desk.new) page.new }
{
    give_props(&item.props, page, desk)?;
    give_refs(&item.refs, page, desk)
}

/// Gives the lines of an item, its properties and its references.
fn give_item<D: Desk>(item: &Item<'_>, page: &mut Page<Say>, desk: &mut D) -> Result<(), WriteFault>
    ensures { Gives BySay (D.outside desk.old) page.old (item_text (item_of item.now)) result (D.outside desk.new) page.new }
{
    give_entry(item, page, desk)?;
    give_lists(item, page, desk)
}

/// Gives the lines of all items.
fn give_items<D: Desk>(
    store: &Store<'_>,
    page: &mut Page<Say>,
    desk: &mut D,
) -> Result<(), WriteFault>
    ensures { Gives BySay (D.outside desk.old) page.old (flat_map item_text store.now.items) result (D.outside desk.new) page.new }
{
    for i in 0..store.len() {
        give_item(store.at(i), page, desk)?;
    }
    Ok(())
}

/// The words in front of the entities of a group.
fn words_of_group(id: u32, kind: FourCc) -> ArrayString<WORDS>
    ensures { result.bytes ≡ codes "group" ++ number_field id ++ type_field kind }
{
    let mut text = ArrayString::new();
    text.push_str("group");
    push_number(&mut text, u64::from(id));
    push_type(&mut text, kind);
    text
}

/// Gives the line of a group.
fn give_group<D: Desk>(
    group: &Group<'_>,
    page: &mut Page<Say>,
    desk: &mut D,
) -> Result<(), WriteFault>
    ensures { Gives BySay (D.outside desk.old) page.old (group_text (group_of group.now)) result (D.outside desk.new) page.new }
{
    let words = words_of_group(group.id, group.kind);
    give_text(&words, page, desk)?;
    give_ids(&group.entities, page, desk)?;
    page.give(b"\n", desk)
}

/// Gives the lines of all groups.
fn give_groups<D: Desk>(
    store: &Store<'_>,
    page: &mut Page<Say>,
    desk: &mut D,
) -> Result<(), WriteFault>
    ensures { Gives BySay (D.outside desk.old) page.old (flat_map group_text store.now.groups) result (D.outside desk.new) page.new }
{
    for i in 0..store.group_count() {
        give_group(store.group_at(i), page, desk)?;
    }
    Ok(())
}

/// Gives all lines.
fn give_listing<D: Desk>(
    store: &Store<'_>,
    page: &mut Page<Say>,
    desk: &mut D,
) -> Result<(), WriteFault>
    ensures { Gives BySay (D.outside desk.old) page.old (listing_text store.now) result (D.outside desk.new) page.new }
{
    give_brands(&store.brands(), page, desk)?;
    give_text(&line_of_primary(store.primary()), page, desk)?;
    give_items(store, page, desk)?;
    give_groups(store, page, desk)
}

/// Says what a store holds: its brands, its primary item, its items with their properties and
/// references, and its groups. It takes no memory.
pub fn say_list<D: Desk>(store: &Store<'_>, desk: &mut D) -> Result<(), WriteFault>
    ensures { Says (D.outside desk.old) (listing_text store.now) result (D.outside desk.new) }
{
    let mut page = Page::new();
    give_listing(store, &mut page, desk)?;
    page.end(desk)
}
