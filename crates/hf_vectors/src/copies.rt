//! Lists that are copied, one of each kind.

ghost use Rattle.std.specs.Prelude.{◌≡◌, length, IfOk};

use hf_base::{Extent, FourCc, Ids, NoMemory, Series, TryClone};
use hf_links::Group;
use hf_prop::{Assoc, Pick, Picks, mirror, turn};
use std::alloc::Global;
use std::test::Fail;

/// A copy of the list of two elements.
fn copy_of<T: TryClone + Drop>(alloc: Global, first: T, second: T) -> Result<Series<T>, NoMemory>
    ensures { IfOk result (λ copy. length copy ≡ 2) }
{
    let mut list = Series::new(alloc);
    list.push(first)?;
    list.push(second)?;
    list.try_clone()
}

fn extent(length: u64) -> Extent {
    Extent {
        index: 1,
        offset: u64::MAX,
        length,
    }
}

fn extents_are_copied(alloc: Global) -> Result<bool, NoMemory> {
    let copy = copy_of(alloc, extent(7), extent(u64::MAX))?;
    Ok(copy.as_slice() == [extent(7), extent(u64::MAX)].as_slice())
}

fn props_are_copied(alloc: Global) -> Result<bool, NoMemory> {
    let copy = copy_of(alloc, turn(3), mirror(0))?;
    Ok(copy.get(0).copy() == turn(3) && copy.get(1).copy() == mirror(0))
}

/// The associations of an item with properties 1 and 2.
fn assoc(alloc: Global, item: u32) -> Result<Assoc, NoMemory> {
    let mut picks = Picks::new(alloc);
    picks.push(FIRST)?;
    picks.push(SECOND)?;
    Ok(Assoc { item, picks })
}

const FIRST: Pick = Pick {
    essential: true,
    index: 1,
};

const SECOND: Pick = Pick {
    essential: false,
    index: 2,
};

fn assocs_are_copied(alloc: Global) -> Result<bool, NoMemory> {
    let copy = copy_of(alloc, assoc(alloc, 1)?, assoc(alloc, 70_000)?)?;
    let last = copy.get(1);
    Ok(last.item == 70_000 && last.picks.as_slice() == [FIRST, SECOND].as_slice())
}

/// A group of a kind that is not known, with a tail.
fn group<'a>(alloc: Global, id: u32) -> Result<Group<'a>, NoMemory> {
    let mut entities = Ids::new(alloc);
    entities.push(7)?;
    entities.push(u32::MAX)?;
    Ok(Group {
        kind: FourCc(*b"ster"),
        version: 255,
        flags: 0x01_02_03,
        id,
        entities,
        tail: b"\xca\xfe",
    })
}

/// Whether this is that group with id 0.
fn is_group(group: &Group) -> bool {
    group.kind == FourCc(*b"ster")
        && (group.version, group.flags, group.id) == (255, 0x01_02_03, 0)
        && group.entities.as_slice() == [7, u32::MAX].as_slice()
        && group.tail == b"\xca\xfe".as_slice()
}

fn groups_are_copied(alloc: Global) -> Result<bool, NoMemory> {
    let copy = copy_of(alloc, group(alloc, 9)?, group(alloc, 0)?)?;
    Ok(is_group(copy.get(1)))
}

#[test]
fn lists_are_copied(rt: HostRuntime) -> Result<(), Fail> {
    let alloc = rt.alloc();
    assert!(rt; extents_are_copied(alloc)? && props_are_copied(alloc)?);
    assert!(rt; assocs_are_copied(alloc)? && groups_are_copied(alloc)?);
    Ok(())
}
