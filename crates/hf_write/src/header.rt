//! The header of a box.

ghost use Rattle.std.specs.Prelude.{◌≡◌, ◌≤◌, ◌^◌, ℕ, true};
ghost use Rattle.hf_box.specs.Head.{box_len, box_head};
ghost use Rattle.hf_box.specs.Written.{id_version};
ghost use Rattle.hf_desk.specs.Outside.{Outside};
ghost use Rattle.hf_desk.specs.Pages.{ByPut, Gives};

use hf_base::FourCc;
use hf_box::head_of;
use hf_desk::{Desk, Page, Put, WriteFault};

/// The version of a box with ids of this width.
pub(crate) fn version_of(wide: bool) -> u8
    ensures { result ≡ id_version wide }
{
    if wide { 1 } else { 0 }
}

/// The length of a box's body, from that of the whole box.
fn body_of(whole: u64) -> u64
    requires { 8 ≤ whole }
    ensures value { (body : ℕ) → box_len body ≡ whole → result ≡ body }
    ensures bound { result ≤ whole }
{
    if whole < 1 << 32 {
        whole - 8
    } else {
        whole - 16
    }
}

/// Gives the shortest header of a box with a body of so many bytes.
pub(crate) fn give_head<D: Desk>(
    kind: FourCc,
    body: u64,
    page: &mut Page<Put>,
    desk: &mut D,
) -> Result<(), WriteFault>
    requires creating { (D.outside desk.old).creating ≡ true }
    requires few { body ≤ 2 ^ 62 }
    ensures { Gives ByPut (D.outside desk.old) page.old (box_head kind body) result (D.outside desk.new) page.new }
{
    let head = head_of(kind, body);
    page.give(&head.bytes[..head.len as usize], desk)
}

/// Gives the shortest header of a box of so many bytes in all.
pub(crate) fn give_header<D: Desk>(
    kind: FourCc,
    whole: u64,
    page: &mut Page<Put>,
    desk: &mut D,
) -> Result<(), WriteFault>
    requires creating { (D.outside desk.old).creating ≡ true }
    requires whole { 8 ≤ whole }
    requires few { whole ≤ 2 ^ 62 }
    ensures gives { (body : ℕ) → box_len body ≡ whole → Gives ByPut (D.outside desk.old) page.old (box_head kind body) result (D.outside desk.new) page.new }
    ensures creating { (D.outside desk.new).creating ≡ true }
{
    give_head(kind, body_of(whole), page, desk)
}
