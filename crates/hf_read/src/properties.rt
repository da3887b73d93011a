//! The properties that items have.

ghost use Rattle.std.specs.Prelude.{◌≡◌, ◌<◌, ◌++◌, ◌∷◌, [], List, length, map, IfOk, OnOk};
ghost use Rattle.std.specs.List.{flat_map};
ghost use Rattle.hf_base.specs.Members.{Rises};
ghost use Rattle.hf_prop.specs.declared.assoc.Assoc.{Assoc as Entry};
ghost use Rattle.hf_read.specs.Kept.{held_at, kept_props as kept_props_stated};

use crate::search::position;
use hf_base::NoMemory;
use hf_prop::{Assoc, Held, Iprp, Pick, PropList};
use hf_store::Props;
use std::alloc::Global;

/// The property that an association selects, behind others.
fn add_pick<'a>(held: &mut Props<'a>, props: &PropList<'a>, pick: &Pick) -> Result<(), NoMemory>
    ensures { OnOk result (held.new ≡ held.old ++ held_at props.now pick.now) }
{
    let number = usize::from(pick.index);
    if number == 0 || number > props.len() {
        return Ok(());
    }
    held.push(Held {
        essential: pick.essential,
        prop: props.get(number - 1).copy(),
    })
}

/// The properties that associations select, behind others.
fn add_picks<'a>(held: &mut Props<'a>, props: &PropList<'a>, picks: &[Pick]) -> Result<(), NoMemory>
    ensures { OnOk result (held.new ≡ held.old ++ flat_map (held_at props.now) picks.now) }
{
    for pick in picks {
        add_pick(held, props, pick)?;
    }
    Ok(())
}

/// The properties of one entry more.
fn add_assoc<'a>(
    lists: &mut [Props<'a>],
    ids: &[u32],
    props: &PropList<'a>,
    assoc: &Assoc,
) -> Result<(), NoMemory>
    requires rising { Rises ◌<◌ ids.now }
    requires known { length lists.old ≡ length ids.now }
    ensures { (assocs : List Entry) → lists.old ≡ map (kept_props_stated (record { props = props.now; assocs = assocs })) ids.now
        → OnOk result (lists.new ≡ map (kept_props_stated (record { props = props.now; assocs = assocs ++ assoc.now ∷ [] })) ids.now) }
{
    match position(ids, assoc.item) {
        Some(at) => add_picks(&mut lists[at], props, assoc.picks.as_slice()),
        None => Ok(()),
    }
}

/// A list for each id, all empty.
fn empty_lists<'a>(alloc: Global, ids: &[u32]) -> Result<Vec<Props<'a>>, NoMemory>
    ensures { IfOk result (λ lists. lists.items ≡ map (λ id. []) ids.now) }
{
    let mut lists = Vec::with_capacity(alloc, ids.len())?;
    for _ in ids {
        lists.push(Props::new(alloc))?;
    }
    Ok(lists)
}

/// The properties of each of these items. Entries of other ids are passed over. The properties are
/// copied without their bytes. `NoMemory` comes where memory was refused.
pub fn kept_props<'a>(
    alloc: Global,
    ids: &[u32],
    iprp: &Iprp<'a>,
) -> Result<Vec<Props<'a>>, NoMemory>
    requires { Rises ◌<◌ ids.now }
    ensures { IfOk result (λ lists. lists.items ≡ map (kept_props_stated iprp.now) ids.now) }
{
    let mut lists = empty_lists(alloc, ids)?;
    for assoc in iprp.assocs.as_slice() {
        add_assoc(&mut lists, ids, &iprp.props, assoc)?;
    }
    Ok(lists)
}
