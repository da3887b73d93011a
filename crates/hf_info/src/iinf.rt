//! `iinf`: ItemInfoBox of ISO/IEC 14496-12.

ghost use Rattle.std.specs.Prelude.{◌≡◌, ◌+◌, ◌^◌, ◌<◌, ◌≤◌, ℕ, List, [], length, IfOk, OnOk};
ghost use Rattle.std.specs.List.{AllByRecursion};
ghost use Rattle.hf_base.specs.Reading.{Gives, MatchOpen};
ghost use Rattle.hf_base.specs.declared.kinds.TheConstants.{IINF as iinf, INFE as infe};
ghost use Rattle.hf_base.specs.declared.limits.TheConstants.{BOXES};
ghost use Rattle.hf_box.specs.Boxes.{BoxAt, box_of, end_of};
ghost use Rattle.hf_box.specs.Tables.{of_kind, boxes_from};
ghost use Rattle.hf_info.specs.Infe.{Info as Stated, IsGoodInfo, infos_of};
ghost use Rattle.hf_info.specs.Iinf.{AreSeen, IsIinfWithin, with_infe, iinf_at};

use crate::infe::{Info, infe_in};
use hf_base::kinds::{IINF, INFE};
use hf_base::{OpenFault, ReadRefusal, SeenIds, front_id, front_version, id_width};
use hf_box::{BoxView, InnerBoxes};
use std::alloc::Global;

/// Reads the entry in a box behind earlier ones, whose ids are those that were seen.
#[tactic(auto, unfolding(crate::specs::Iinf::with_infe))]
fn push_infe<'a>(
    infos: &mut Vec<Info<'a>>,
    seen: &mut SeenIds,
    b: &BoxView<'a>,
) -> Result<(), OpenFault>
    requires { AreSeen seen.old (infos_of infos.old.items) }
    ensures seen { OnOk result (AreSeen seen.new (infos_of infos.new.items)) }
    ensures exact { Gives (λ _. infos_of infos.new.items) result (with_infe (infos_of infos.old.items) (box_of b.now)) }
{
    let info = infe_in(b.body, b.at)?;
    if !seen.meet(info.id)? {
        return Err(OpenFault::Unfit(ReadRefusal::DoubleItem { id: info.id }));
    }
    infos.push(info)?;
    Ok(())
}

/// The entries in the `infe` of these boxes, of which there are so many.
fn infos_in<'a>(
    alloc: Global,
    mut boxes: InnerBoxes<'a>,
    many: usize,
) -> Result<Vec<Info<'a>>, OpenFault>
    ensures { Gives (λ v. infos_of v.items) result (boxes_from with_infe [] (of_kind infe boxes.entry)) }
{
    let mut seen = SeenIds::new(alloc);
    let mut infos = Vec::with_capacity(alloc, many)?;
    while let Some(b) = boxes.next_of(INFE) {
        push_infe(&mut infos, &mut seen, &b)?;
    }
    Ok(infos)
}

/// The entries in a body, with the place of its box and the length of its header.
#[tactic(auto, unfolding(crate::specs::Iinf::iinf_at))]
fn entries_in<'a>(
    alloc: Global,
    body: &'a [u8],
    at: u64,
    head: u8,
) -> Result<Vec<Info<'a>>, OpenFault>
    requires { at + head + length body.now < 2 ^ 64 }
    ensures { Gives (λ v. infos_of v.items) result (iinf_at (record { kind = iinf; at = at; head = head; body = body.now })) }
{
    let short = ReadRefusal::BadRecord { kind: IINF, at };
    let (version, _flags, rest) = front_version(body, short)?;
    let width = id_width(0, version, ReadRefusal::BadVersion { kind: IINF, at })?;
    let (count, rest) = front_id(width, rest, short)?;
    let origin = at + u64::from(head) + 4 + u64::from(width);
    let boxes = InnerBoxes::of(rest, origin)?;
    let many = boxes.count_of(INFE);
    if many as u64 != u64::from(count) {
        return Err(OpenFault::Unfit(short));
    }
    infos_in(alloc, boxes, many)
}

/// The same, of bytes.
fn iinf_in<'a>(alloc: Global, body: &'a [u8], at: u64, head: u8) -> Result<Vec<Info<'a>>, OpenFault>
    requires { at + head + length body.now < 2 ^ 64 }
    ensures found { IfOk result (λ v. IsIinfWithin (record { kind = iinf; at = at; head = head; body = body.now }) (infos_of v.items)) }
    ensures only { (infos : List Stated) → IsIinfWithin (record { kind = iinf; at = at; head = head; body = body.now }) infos → MatchOpen result (λ v. infos_of v.items ≡ infos) (λ fault. ⊥) }
    ensures exact { Gives (λ v. infos_of v.items) result (iinf_at (record { kind = iinf; at = at; head = head; body = body.now })) }
{
    entries_in(alloc, body, at, head)
}

/// Reads the entries of an `iinf`, in the order of the file.
///
/// It refuses, in this order: BadRecord where the body is below four bytes; BadVersion where the
/// version is above 1; BadRecord where the count is cut off; what `read_boxes` refuses of the boxes
/// behind it; BadRecord where the count is not the number of its `infe` boxes. Then of each `infe`,
/// in their order: BadRecord where its body is below four bytes; BadVersion where its version is not 2
/// or 3; BadRecord where a field before its name is cut off; ZeroId for id 0; Protected for a
/// protection index other than 0; DoubleItem for the id of an earlier one.
pub fn read_iinf<'a>(alloc: Global, view: &BoxView<'a>) -> Result<Vec<Info<'a>>, OpenFault>
    requires kind { view.now.kind ≡ iinf }
    requires place { end_of (box_of view.now) < 2 ^ 64 }
    // What is read stands there.
    ensures found { IfOk result (λ v. IsIinfWithin (box_of view.now) (infos_of v.items)) }
    // What stands there is read, unless memory runs out.
    ensures only { (infos : List Stated) → IsIinfWithin (box_of view.now) infos → MatchOpen result (λ v. infos_of v.items ≡ infos) (λ fault. ⊥) }
    // Which refusal it is.
    ensures exact { Gives (λ v. infos_of v.items) result (iinf_at (box_of view.now)) }
    // No more than the limit of boxes.
    ensures within { IfOk result (λ v. length v.items ≤ BOXES) }
    // What each entry can say.
    ensures good { IfOk result (λ v. AllByRecursion IsGoodInfo (infos_of v.items)) }
{
    iinf_in(alloc, view.body, view.at, view.head)
}
