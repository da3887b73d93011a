//! `iprp` and its `ipco`: ItemPropertiesBox and ItemPropertyContainerBox of ISO/IEC 23008-12.

ghost use Rattle.std.specs.Prelude.{◌≡◌, ◌<◌, ◌≤◌, ◌+◌, ◌^◌, ℕ, [], length, map, IfOk, IfSome};
ghost use Rattle.hf_base.specs.Reading.{Reads, Gives, MatchOpen};
ghost use Rattle.hf_base.specs.declared.kinds.TheConstants.{IPCO, IPMA, IPRP};
ghost use Rattle.hf_base.specs.declared.limits.TheConstants.{ROWS};
ghost use Rattle.hf_box.specs.Boxes.{BoxAt, box_of, end_of};
ghost use Rattle.hf_box.specs.Tables.{of_kind, boxes_from};
ghost use Rattle.hf_prop.specs.declared.iprp.Iprp.{Iprp as Stated};
ghost use Rattle.hf_prop.specs.Iprp.{prop_of, IsIprpWithin, at_most_one, props_at, iprp_within, iprp_at};
ghost use Rattle.hf_prop.specs.Ipma.{with_ipma};
ghost use Rattle.hf_prop.specs.Tables.{ipco_in};

use crate::assoc::AssocList;
use crate::body::Body;
use crate::ipma::{Table, read_ipma, room_for_entries};
use crate::prop::{Prop, PropList};
use hf_base::kinds::{IPCO, IPMA};
use hf_base::{FourCc, NoMemory, OpenFault, ReadRefusal};
use hf_box::{BoxView, InnerBoxes};
use std::alloc::Global;

/// The properties of a file, and which items have them.
#[derive(Drop)]
pub struct Iprp<'a> {
    /// The properties of `ipco`, in order; their numbers count from 1.
    pub props: PropList<'a>,
    /// The entries of all `ipma` boxes, in file order.
    pub assocs: AssocList,
}

/// The one `ipco` of these boxes, where there is one. Double comes, with the place of the second one,
/// where there are more.
#[tactic(auto, unfolding(crate::specs::Iprp::at_most_one))]
fn find_ipco<'a>(boxes: &InnerBoxes<'a>) -> Result<Option<BoxView<'a>>, ReadRefusal>
    ensures exact { Reads ipco_in result (at_most_one (of_kind IPCO boxes.now)) }
    ensures place { IfOk result (λ ipco. IfSome ipco (λ b. end_of (box_of b) < 2 ^ 64)) }
{
    let mut left = boxes.copy();
    let ipco = left.next_of(IPCO);
    if let Some(second) = left.next_of(IPCO) {
        return Err(ReadRefusal::Double {
            kind: IPCO,
            at: second.at,
        });
    }
    Ok(ipco)
}

/// A property for each box.
fn props_in<'a>(alloc: Global, mut boxes: InnerBoxes<'a>) -> Result<PropList<'a>, NoMemory>
    ensures { IfOk result (λ props. props ≡ map prop_of boxes.entry) }
{
    let mut props = PropList::with_capacity(alloc, boxes.len())?;
    while let Some(view) = boxes.next() {
        props.push(Prop {
            kind: view.kind,
            body: Body::lent(view.body),
        })?;
    }
    Ok(props)
}

/// The properties of an `ipco`; where there is none, there are none.
#[tactic(auto, unfolding(crate::specs::Iprp::props_at))]
fn read_ipco<'a>(alloc: Global, ipco: Option<BoxView<'a>>) -> Result<PropList<'a>, OpenFault>
    requires { IfSome ipco (λ view. end_of (box_of view) < 2 ^ 64) }
    ensures { Gives (λ props. props) result (props_at (ipco_in ipco.entry)) }
{
    let Some(view) = ipco else {
        return Ok(PropList::new(alloc));
    };
    let boxes = InnerBoxes::of(view.body, view.at + u64::from(view.head))?;
    Ok(props_in(alloc, boxes)?)
}

/// The entries of all `ipma` among these boxes.
fn read_assocs(alloc: Global, mut boxes: InnerBoxes<'_>) -> Result<AssocList, OpenFault>
    ensures { Gives (λ assocs. assocs) result (boxes_from (with_ipma ROWS) [] (of_kind IPMA boxes.entry)) }
{
    let mut table = Table::with_capacity(alloc, room_for_entries(&boxes))?;
    while let Some(view) = boxes.next_of(IPMA) {
        table = read_ipma(alloc, table, &view)?;
    }
    Ok(table.assocs)
}

/// The properties and entries of a box.
#[tactic(auto, unfolding(crate::specs::Iprp::iprp_within))]
fn iprp_of<'a>(alloc: Global, view: &BoxView<'a>) -> Result<Iprp<'a>, OpenFault>
    requires { end_of (box_of view.now) < 2 ^ 64 }
    ensures { Gives (λ v. v) result (iprp_at (box_of view.now)) }
{
    let boxes = InnerBoxes::of(view.body, view.at + u64::from(view.head))?;
    let ipco = find_ipco(&boxes)?;
    let props = read_ipco(alloc, ipco)?;
    let assocs = read_assocs(alloc, boxes)?;
    Ok(Iprp { props, assocs })
}

/// The same, of a body of bytes.
fn iprp_in<'a>(
    alloc: Global,
    kind: FourCc,
    at: u64,
    head: u8,
    body: &'a [u8],
) -> Result<Iprp<'a>, OpenFault>
    requires { at + head + length body.now < 2 ^ 64 }
    ensures found { let b : BoxAt = record { kind = kind; at = at; head = head; body = body.now } in IfOk result (λ v. IsIprpWithin b v) }
    ensures only { let b : BoxAt = record { kind = kind; at = at; head = head; body = body.now } in (v : Stated) → IsIprpWithin b v → MatchOpen result (λ read. read ≡ v) (λ fault. ⊥) }
    ensures exact { let b : BoxAt = record { kind = kind; at = at; head = head; body = body.now } in Gives (λ v. v) result (iprp_at b) }
{
    let view = BoxView {
        kind,
        at,
        head,
        body,
    };
    iprp_of(alloc, &view)
}

/// Reads the properties of an `iprp`, and the entries of all its `ipma` boxes, in file order.
///
/// The faults of `read_boxes` for the inner boxes come first, then Double for a second `ipco`, then the
/// faults of `read_boxes` for the boxes of `ipco`. After them come, for each `ipma` in file order and with
/// its place, BadRecord where it is too short for its fields, BadVersion where its version is above 1,
/// TooLarge where entries and associations of all `ipma` pass `ROWS`, which is this project's own limit,
/// and DoubleAssoc where an earlier entry, of this `ipma` or of one before it, has the same id.
pub fn read_iprp<'a>(alloc: Global, view: &BoxView<'a>) -> Result<Iprp<'a>, OpenFault>
    requires kind { view.now.kind ≡ IPRP }
    requires place { end_of (box_of view.now) < 2 ^ 64 }
    // What is read stands there.
    ensures found { IfOk result (λ v. IsIprpWithin (box_of view.now) v) }
    // What stands there is read.
    ensures only { (v : Stated) → IsIprpWithin (box_of view.now) v → MatchOpen result (λ read. read ≡ v) (λ fault. ⊥) }
    // Which refusal it is.
    ensures exact { Gives (λ v. v) result (iprp_at (box_of view.now)) }
{
    iprp_in(alloc, view.kind, view.at, view.head, view.body)
}
