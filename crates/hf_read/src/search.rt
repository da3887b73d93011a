//! Ids that rise are searched.

ghost use Rattle.std.specs.Prelude.{◌≡◌, ◌<◌, length, get_or, false, IfSome, IfNone};
ghost use Rattle.hf_base.specs.Entries.{has_id};
ghost use Rattle.hf_base.specs.Members.{Rises};

/// Whether an id is one of these.
pub(crate) fn is_item(ids: &[u32], id: u32) -> bool
    requires { Rises ◌<◌ ids.now }
    ensures { result ≡ has_id id ids.now }
{
    ids.binary_search(&id).is_ok()
}

/// The place of an id among these, counted from 0.
pub(crate) fn position(ids: &[u32], id: u32) -> Option<usize>
    requires { Rises ◌<◌ ids.now }
    ensures within { IfSome result (λ at. at < length ids.now) }
    ensures found { IfSome result (λ at. get_or ids.now at 0 ≡ id) }
    ensures missing { IfNone result (has_id id ids.now ≡ false) }
{
    match ids.binary_search(&id) {
        Ok(at) => Some(at),
        Err(_) => None,
    }
}
