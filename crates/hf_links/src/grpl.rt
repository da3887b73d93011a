//! `grpl`: GroupsListBox of ISO/IEC 14496-12.

ghost use Rattle.std.specs.Prelude.{◌≡◌, ◌<◌, ◌≤◌, ◌+◌, ◌*◌, ◌^◌, ◌++◌, ◌==◌, ◌||◌, ℕ, List, [], true, length, Err, IfOk, MatchResult};
ghost use Rattle.std.specs.List.{flat_map};
ghost use Rattle.hf_base.specs.Entries.{has_id};
ghost use Rattle.hf_base.specs.Number.{num};
ghost use Rattle.hf_base.specs.Reading.{Gives, MatchOpen};
ghost use Rattle.hf_base.specs.declared.kinds.TheConstants.{GRPL};
ghost use Rattle.hf_base.specs.declared.limits.TheConstants.{META, ROWS};
ghost use Rattle.hf_box.specs.Boxes.{BoxAt, box_of, end_of};
ghost use Rattle.hf_box.specs.Head.{box, box_len};
ghost use Rattle.hf_box.specs.Tables.{boxes_from};
ghost use Rattle.hf_desk.specs.Outside.{Outside};
ghost use Rattle.hf_desk.specs.Calls.{Puts};
ghost use Rattle.hf_desk.specs.Pages.{ByPut, Gives as GivesTo};
ghost use Rattle.hf_links.specs.Grpl.{Group as Stated, IsGrplWithin, group_body, group_of, groups_of, group_at, group_behind, new_group_at, with_group, grpl_at};

use crate::ids::{front_ids, give_ids};
use hf_base::kinds::GRPL;
use hf_base::limits::ROWS;
use hf_base::{
    FourCc, Ids, NoMemory, OpenFault, ReadRefusal, SeenIds, TryClone, be_put, front_version,
    front32,
};
use hf_box::{BoxView, InnerBoxes};
use hf_desk::{Desk, Page, Put, WriteFault};
use std::alloc::Global;

/// A group of items (EntityToGroupBox of ISO/IEC 14496-12).
#[derive(Drop)]
pub struct Group<'a> {
    /// The type of the group.
    pub kind: FourCc,
    /// The version of its box.
    pub version: u8,
    /// The flags of its box, below 2^24.
    pub flags: u32,
    /// The id of the group.
    pub id: u32,
    /// The ids of the items, or groups, that belong to it.
    pub entities: Ids,
    /// The bytes after them, which depend on the type.
    pub tail: &'a [u8],
}

impl<'a> TryClone for Group<'a> {
    fn try_clone(&self) -> Result<Group<'a>, NoMemory> {
        Ok(Group {
            kind: self.kind,
            version: self.version,
            flags: self.flags,
            id: self.id,
            entities: self.entities.try_clone()?,
            tail: self.tail,
        })
    }
}

/// What stands in front of the entities of a group.
#[derive(Drop)]
struct GroupFront {
    version: u8,
    flags: u32,
    id: u32,
    count: u32,
}

/// What stands in front of the entities in an inner box behind so many rows, and the bytes after it.
#[tactic(auto, unfolding(crate::specs::Grpl::group_at))]
fn group_front<'a>(rows: usize, view: &BoxView<'a>) -> Result<(GroupFront, &'a [u8]), ReadRefusal>
    requires { rows ≤ ROWS }
    ensures exact { MatchResult result (λ x. group_at rows (box_of view.now) ≡ group_behind (box_of view.now) x.0.version x.0.flags x.0.id x.0.count x.1.now) (λ fault. group_at rows (box_of view.now) ≡ Err fault) }
    ensures within { IfOk result (λ x. rows + 1 + x.0.count ≤ ROWS) }
{
    let at = view.at;
    let short = ReadRefusal::BadRecord { kind: GRPL, at };
    let (version, flags, rest) = front_version(view.body, short)?;
    let (id, rest) = front32(rest, short)?;
    let (count, rest) = front32(rest, short)?;
    if rows + 1 + count as usize > ROWS {
        return Err(ReadRefusal::TooLarge { kind: GRPL, at });
    }
    let front = GroupFront {
        version,
        flags,
        id,
        count,
    };
    Ok((front, rest))
}

/// The group of an inner box (EntityToGroupBox), behind so many rows.
fn group_in<'a>(alloc: Global, rows: usize, view: &BoxView<'a>) -> Result<Group<'a>, OpenFault>
    requires { rows ≤ ROWS }
    ensures exact { Gives group_of result (group_at rows (box_of view.now)) }
    ensures within { IfOk result (λ g. rows + 1 + length g.entities ≤ ROWS) }
{
    let (front, rest) = group_front(rows, view)?;
    let short = ReadRefusal::BadRecord {
        kind: GRPL,
        at: view.at,
    };
    let (entities, tail) = front_ids(alloc, 4, front.count, rest, short)?;
    Ok(Group {
        kind: view.kind,
        version: front.version,
        flags: front.flags,
        id: front.id,
        entities,
        tail,
    })
}

/// The group of an inner box behind so many rows, whose id is met for the first time.
#[tactic(auto, unfolding(crate::specs::Grpl::new_group_at))]
fn new_group<'a>(
    alloc: Global,
    rows: usize,
    seen: &mut SeenIds,
    view: &BoxView<'a>,
) -> Result<Group<'a>, OpenFault>
    requires { rows ≤ ROWS }
    ensures exact { Gives group_of result (new_group_at rows seen.old (box_of view.now)) }
    ensures within { IfOk result (λ g. rows + 1 + length g.entities ≤ ROWS) }
    ensures met { IfOk result (λ g. (other : ℕ) → has_id other seen.new ≡ (g.id == other) || has_id other seen.old) }
{
    let group = group_in(alloc, rows, view)?;
    let id = group.id;
    if seen.meet(id)? {
        return Ok(group);
    }
    Err(OpenFault::Unfit(ReadRefusal::DoubleGroup { id }))
}

/// The groups of all these boxes.
fn groups_in<'a>(alloc: Global, mut boxes: InnerBoxes<'a>) -> Result<Vec<Group<'a>>, OpenFault>
    ensures { Gives (λ groups. groups_of groups.items) result (boxes_from with_group [] boxes.entry) }
{
    let mut groups = Vec::with_capacity(alloc, boxes.len())?;
    let mut seen = SeenIds::new(alloc);
    let mut rows = 0;
    while let Some(view) = boxes.next() {
        let group = new_group(alloc, rows, &mut seen, &view)?;
        rows += 1 + group.entities.len();
        groups.push(group)?;
    }
    Ok(groups)
}

/// The groups of a box.
#[tactic(auto, unfolding(crate::specs::Grpl::grpl_at))]
fn groups_of_box<'a>(alloc: Global, view: &BoxView<'a>) -> Result<Vec<Group<'a>>, OpenFault>
    requires { end_of (box_of view.now) < 2 ^ 64 }
    ensures { Gives (λ groups. groups_of groups.items) result (grpl_at (box_of view.now)) }
{
    let boxes = InnerBoxes::of(view.body, view.at + u64::from(view.head))?;
    groups_in(alloc, boxes)
}

/// The same, of a body of bytes.
fn grpl_in<'a>(
    alloc: Global,
    kind: FourCc,
    at: u64,
    head: u8,
    body: &'a [u8],
) -> Result<Vec<Group<'a>>, OpenFault>
    requires { at + head + length body.now < 2 ^ 64 }
    ensures found { let b : BoxAt = record { kind = kind; at = at; head = head; body = body.now } in IfOk result (λ groups. IsGrplWithin b (groups_of groups.items)) }
    ensures only { let b : BoxAt = record { kind = kind; at = at; head = head; body = body.now } in (groups : List Stated) → IsGrplWithin b groups → MatchOpen result (λ read. groups_of read.items ≡ groups) (λ fault. ⊥) }
    ensures exact { let b : BoxAt = record { kind = kind; at = at; head = head; body = body.now } in Gives (λ groups. groups_of groups.items) result (grpl_at b) }
{
    let view = BoxView {
        kind,
        at,
        head,
        body,
    };
    groups_of_box(alloc, &view)
}

/// Reads the groups of a `grpl`, one for each inner box, in file order.
///
/// The faults of `read_boxes` for the inner boxes come first, and then, for each of them and with its
/// place, BadRecord where it is too short for its fields, TooLarge where groups and entities pass
/// `ROWS`, which is this project's own limit, and DoubleGroup where an earlier group has its id.
pub fn read_grpl<'a>(alloc: Global, view: &BoxView<'a>) -> Result<Vec<Group<'a>>, OpenFault>
    requires kind { view.now.kind ≡ GRPL }
    requires place { end_of (box_of view.now) < 2 ^ 64 }
    // What is read stands there.
    ensures found { IfOk result (λ groups. IsGrplWithin (box_of view.now) (groups_of groups.items)) }
    // What stands there is read.
    ensures only { (groups : List Stated) → IsGrplWithin (box_of view.now) groups → MatchOpen result (λ read. groups_of read.items ≡ groups) (λ fault. ⊥) }
    // Which refusal it is.
    ensures exact { Gives (λ groups. groups_of groups.items) result (grpl_at (box_of view.now)) }
{
    grpl_in(alloc, view.kind, view.at, view.head, view.body)
}

/// The header of a group, and the fields in front of its entities.
fn front_of(group: &Group<'_>) -> [u8; 20]
    requires flags { group.now.flags < 256 ^ 3 }
    requires size { 20 + 4 * length group.now.entities + length group.now.tail.now ≤ META }
    ensures { result ++ flat_map (λ id. num id 4) group.now.entities ++ group.now.tail.now ≡ box group.now.kind (group_body (group_of group.now)) }
{
    let count = group.entities.len() as u64;
    let mut bytes = [0u8; 20];
    be_put(&mut bytes, 0, 4, 20 + 4 * count + group.tail.len() as u64);
    // The flags take the last three of these four bytes, and the version the first one.
    be_put(&mut bytes, 8, 4, group.flags as u64);
    be_put(&mut bytes, 8, 1, group.version as u64);
    be_put(&mut bytes, 12, 4, group.id as u64);
    be_put(&mut bytes, 16, 4, count);
    bytes[4..8].copy_from_slice(&group.kind.0);
    bytes
}

/// Gives a whole group (EntityToGroupBox) to a page, with its version, its flags and its tail.
/// `WriteFault` comes only where the desk failed; then some front of what the page held and of the box
/// was put.
pub fn give_group<D: Desk>(
    group: &Group<'_>,
    page: &mut Page<Put>,
    desk: &mut D,
) -> Result<(), WriteFault>
    requires creating { (D.outside desk.old).creating ≡ true }
    requires flags { group.now.flags < 256 ^ 3 }
    requires size { box_len (length (group_body (group_of group.now))) ≤ META }
    ensures { GivesTo ByPut (D.outside desk.old) page.old (box group.now.kind (group_body (group_of group.now))) result (D.outside desk.new) page.new }
{
    page.give(&front_of(group), desk)?;
    give_ids(group.entities.as_slice(), true, page, desk)?;
    page.give(group.tail, desk)
}

/// Puts a whole group (EntityToGroupBox), as `give_group` gives it to a page. `WriteFault` comes only
/// where the desk failed; then some front of the box was put.
pub fn put_group<D: Desk>(group: &Group<'_>, desk: &mut D) -> Result<(), WriteFault>
    requires creating { (D.outside desk.old).creating ≡ true }
    requires flags { group.now.flags < 256 ^ 3 }
    requires size { box_len (length (group_body (group_of group.now))) ≤ META }
    ensures { Puts (D.outside desk.old) (box group.now.kind (group_body (group_of group.now))) result (D.outside desk.new) }
{
    let mut page = Page::new();
    give_group(group, &mut page, desk)?;
    page.end(desk)
}
