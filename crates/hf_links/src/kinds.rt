//! What types of references mean. None of these calls takes memory.

ghost use Rattle.std.specs.Prelude.{◌≡◌};
ghost use Rattle.hf_links.specs.Kinds.{is_minor, is_need};

use hf_base::FourCc;
use hf_base::kinds::{AUXL, DIMG, PREM, TBAS, THMB};

/// Whether an item cannot be shown without the items that it has references of this type to: `dimg`,
/// `tbas` and `prem` (this project's own rule).
pub fn is_need_kind(kind: FourCc) -> bool
    ensures { result ≡ is_need kind }
{
    kind == DIMG || kind == TBAS || kind == PREM
}

/// Whether references of this type are those of a thumbnail or of an auxiliary picture to its
/// picture: `thmb` and `auxl`.
pub fn is_minor_kind(kind: FourCc) -> bool
    ensures { result ≡ is_minor kind }
{
    kind == THMB || kind == AUXL
}
