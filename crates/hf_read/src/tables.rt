//! The tables of `meta`.

ghost use Rattle.std.specs.Prelude.{◌≡◌, ◌<◌, List, option_map, IfOk, IfSome, IsTrue, Ok, Err};
ghost use Rattle.hf_base.specs.Entries.{are_distinct};
ghost use Rattle.hf_base.specs.Members.{Rises};
ghost use Rattle.hf_base.specs.Reading.{Gives, MatchOpen};
ghost use Rattle.hf_base.specs.declared.kinds.TheConstants as kinds;
ghost use Rattle.hf_box.specs.Boxes.{box_of};
ghost use Rattle.hf_extent.specs.Places.{HaveDistinctIds};
ghost use Rattle.hf_info.specs.Iinf.{iinf_at, info_ids};
ghost use Rattle.hf_info.specs.Infe.{Info as Stated, infos_of};
ghost use Rattle.hf_links.specs.Grpl.{group_ids, groups_of};
ghost use Rattle.hf_prop.specs.Ipma.{assoc_ids};
ghost use Rattle.hf_read.specs.Reading.{links_for, props_for, tables_at, tables_of};
ghost use Rattle.hf_read.specs.Seen.{AreReadable, AreTablesOf, HaveKinds, IsBoxOf, parts_seen};
ghost use Rattle.hf_read.specs.Tables.{Tables, groups_in, infos_by_id, iprp_in, item_ids, links_in, locs_in};

use crate::meta::{MetaParts, MetaTables};
use crate::needs::{check_needs, check_picks, check_primary};
use hf_base::{Loc, NoMemory, OpenFault, RefBox};
use hf_box::BoxView;
use hf_info::{Info, read_iinf};
use hf_links::{Group, read_grpl, read_iref};
use hf_loc::read_iloc;
use hf_prop::{AssocList, Iprp, PropList, read_iprp};
use std::alloc::Global;

/// The entries by rising id.
fn by_id<'a>(infos: Vec<Info<'a>>) -> Result<Vec<Info<'a>>, NoMemory>
    requires { IsTrue (are_distinct (info_ids (infos_of infos.items))) }
    ensures { IfOk result (λ sorted. infos_of sorted.items ≡ infos_by_id (infos_of infos.entry.items)) }
{
    let mut sorted = infos;
    sorted.sort_by_key(|info| info.id)?;
    Ok(sorted)
}

/// The entries of an `iinf` by rising id.
fn infos_in<'a>(alloc: Global, iinf: &BoxView<'a>) -> Result<Vec<Info<'a>>, OpenFault>
    requires { IsBoxOf kinds.IINF iinf.now }
    ensures { MatchOpen result
        (λ sorted. (infos : List Stated) × (iinf_at (box_of iinf.now) ≡ Ok infos) × (infos_of sorted.items ≡ infos_by_id infos) × Rises ◌<◌ (item_ids infos))
        (λ why. iinf_at (box_of iinf.now) ≡ Err why) }
{
    let infos = read_iinf(alloc, iinf)?;
    Ok(by_id(infos)?)
}

/// The ids of the entries.
fn ids_of(alloc: Global, infos: &[Info<'_>]) -> Result<Vec<u32>, NoMemory>
    ensures { IfOk result (λ ids. ids.items ≡ info_ids (infos_of infos.now)) }
{
    let mut ids = Vec::with_capacity(alloc, infos.len())?;
    for info in infos {
        ids.push(info.id)?;
    }
    Ok(ids)
}

/// The entries of an `iloc`; where there is none, there are none.
fn iloc_of(alloc: Global, iloc: Option<BoxView<'_>>) -> Result<Vec<Loc>, OpenFault>
    requires { IfSome iloc (IsBoxOf kinds.ILOC) }
    ensures exact { Gives (λ locs. locs.items) result (locs_in (option_map box_of iloc.entry)) }
    ensures distinct { IfOk result (λ locs. HaveDistinctIds locs.items) }
{
    match iloc {
        Some(view) => read_iloc(alloc, &view),
        None => Ok(Vec::new(alloc)),
    }
}

/// The references of an `iref`; where there is none, there are none.
fn iref_of(alloc: Global, iref: Option<BoxView<'_>>) -> Result<Vec<RefBox>, OpenFault>
    requires { IfSome iref (IsBoxOf kinds.IREF) }
    ensures { Gives (λ links. links.items) result (links_in (option_map box_of iref.entry)) }
{
    match iref {
        Some(view) => read_iref(alloc, &view),
        None => Ok(Vec::new(alloc)),
    }
}

/// The references of an `iref`. It refuses what `read_iref` refuses, and then an item that needs one
/// that is none of these.
#[tactic(auto, unfolding(crate::specs::Reading::links_for))]
fn needs_of(alloc: Global, ids: &[u32], iref: Option<BoxView<'_>>) -> Result<Vec<RefBox>, OpenFault>
    requires kind { IfSome iref (IsBoxOf kinds.IREF) }
    requires rise { Rises ◌<◌ ids.now }
    ensures { Gives (λ links. links.items) result (links_for ids.now (option_map box_of iref.entry)) }
{
    let links = iref_of(alloc, iref)?;
    check_needs(ids, &links)?;
    Ok(links)
}

/// The properties and associations of an `iprp`; where there is none, there are none.
fn iprp_of<'a>(alloc: Global, iprp: Option<BoxView<'a>>) -> Result<Iprp<'a>, OpenFault>
    requires { IfSome iprp (IsBoxOf kinds.IPRP) }
    ensures exact { Gives (λ v. v) result (iprp_in (option_map box_of iprp.entry)) }
    ensures distinct { IfOk result (λ v. IsTrue (are_distinct (assoc_ids v.assocs))) }
{
    match iprp {
        Some(view) => read_iprp(alloc, &view),
        None => Ok(Iprp {
            props: PropList::new(alloc),
            assocs: AssocList::new(alloc),
        }),
    }
}

/// The properties and associations of an `iprp`. It refuses what `read_iprp` refuses, and then an item
/// with an association past the last property.
#[tactic(auto, unfolding(crate::specs::Reading::props_for))]
fn picks_of<'a>(
    alloc: Global,
    ids: &[u32],
    iprp: Option<BoxView<'a>>,
) -> Result<Iprp<'a>, OpenFault>
    requires kind { IfSome iprp (IsBoxOf kinds.IPRP) }
    requires rise { Rises ◌<◌ ids.now }
    ensures exact { Gives (λ v. v) result (props_for ids.now (option_map box_of iprp.entry)) }
    ensures distinct { IfOk result (λ v. IsTrue (are_distinct (assoc_ids v.assocs))) }
{
    let v = iprp_of(alloc, iprp)?;
    check_picks(ids, &v)?;
    Ok(v)
}

/// The groups of a `grpl`; where there is none, there are none.
fn grpl_of<'a>(alloc: Global, grpl: Option<BoxView<'a>>) -> Result<Vec<Group<'a>>, OpenFault>
    requires { IfSome grpl (IsBoxOf kinds.GRPL) }
    ensures exact { Gives (λ groups. groups_of groups.items) result (groups_in (option_map box_of grpl.entry)) }
    ensures distinct { IfOk result (λ groups. IsTrue (are_distinct (group_ids (groups_of groups.items)))) }
{
    match grpl {
        Some(view) => read_grpl(alloc, &view),
        None => Ok(Vec::new(alloc)),
    }
}

/// The tables with these entries on items, by rising id, and their ids.
#[tactic(auto, unfolding(crate::specs::Reading::tables_of))]
fn tables_with<'a>(
    alloc: Global,
    infos: Vec<Info<'a>>,
    ids: Vec<u32>,
    parts: &MetaParts<'a>,
) -> Result<MetaTables<'a>, OpenFault>
    requires kinds { HaveKinds parts.now }
    requires rise { Rises ◌<◌ ids.items }
    ensures exact { (entries : List Stated) → infos_of infos.entry.items ≡ infos_by_id entries → ids.items ≡ item_ids entries → MatchOpen result
        (λ m. (t : Tables) × (tables_of entries ids.items (parts_seen parts.now) ≡ Ok t) × AreTablesOf m t)
        (λ why. tables_of entries ids.items (parts_seen parts.now) ≡ Err why) }
    ensures readable { IfOk result (λ m. AreReadable m) }
{
    let locs = iloc_of(alloc, parts.iloc)?;
    let links = needs_of(alloc, &ids, parts.iref)?;
    let iprp = picks_of(alloc, &ids, parts.iprp)?;
    let groups = grpl_of(alloc, parts.grpl)?;
    Ok(MetaTables {
        infos,
        ids,
        locs,
        links,
        iprp,
        groups,
    })
}

/// Reads the tables of `meta`, where the primary item has this id.
///
/// It refuses, in this order: what `read_iinf` refuses; NoPrimary where no item has the id; what
/// `read_iloc` and `read_iref` refuse; DanglingNeed for the least id of an item with a reference of
/// type `dimg`, `tbas` or `prem` that names no item; what `read_iprp` refuses; BadProperty for the least
/// id of an item with an association past the last property; what `read_grpl` refuses. `NoMemory` comes
/// where memory was refused.
#[tactic(auto, unfolding(crate::specs::Reading::tables_at))]
pub fn read_tables<'a>(
    alloc: Global,
    primary: u32,
    parts: &MetaParts<'a>,
) -> Result<MetaTables<'a>, OpenFault>
    requires { HaveKinds parts.now }
    // The tables, or the first fault.
    ensures exact { MatchOpen result (λ m. (t : Tables) × (tables_at primary (parts_seen parts.now) ≡ Ok t) × AreTablesOf m t) (λ why. tables_at primary (parts_seen parts.now) ≡ Err why) }
    // What the next steps need of them.
    ensures readable { IfOk result (λ m. AreReadable m) }
{
    let infos = infos_in(alloc, &parts.iinf)?;
    let ids = ids_of(alloc, &infos)?;
    check_primary(&ids, primary)?;
    tables_with(alloc, infos, ids, parts)
}
