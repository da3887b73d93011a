//! Laws of the definitions. Each is the contract of a function that does nothing.

ghost use Rattle.std.specs.Prelude.{◌≡◌, ◌↔◌, ◌<◌, ◌≤◌, ◌^◌, ℕ, Bool, List, length, IsTrue, Ok};
ghost use Rattle.std.specs.List.{AllByRecursion};
ghost use Rattle.hf_base.specs.Number.{IsBytes};
ghost use Rattle.hf_base.specs.Entries.{are_distinct};
ghost use Rattle.hf_base.specs.declared.kinds.TheConstants.{IINF};
ghost use Rattle.hf_base.specs.declared.limits.TheConstants.{BOXES};
ghost use Rattle.hf_box.specs.Boxes.{BoxAt};
ghost use Rattle.hf_box.specs.Written.{id_width};
ghost use Rattle.hf_info.specs.Infe.{Info, IsInfe, IsGoodInfo, IsWritable, infe_at, infe_body};
ghost use Rattle.hf_info.specs.Iinf.{info_ids, IsIinf, IsIinfWithin, iinf_at, iinf_body};

/// Reading from left to right finds exactly what an `infe` body says.
pub fn infe_is_its_program()
    ensures { (at : ℕ) (body : List ℕ) (info : Info) → IsBytes body → IsInfe body info ↔ (infe_at at body ≡ Ok info) }
{}

/// Reading from left to right finds exactly the entries of an `iinf`, within the limit of boxes.
pub fn iinf_is_its_program()
    ensures { (b : BoxAt) (infos : List Info) → IsBytes b.body → IsIinfWithin b infos ↔ (iinf_at b ≡ Ok infos) }
{}

/// An `infe` body says one thing at most.
pub fn entry_is_unique()
    ensures { (body : List ℕ) (some other : Info) → IsInfe body some → IsInfe body other → some ≡ other }
{}

/// An `iinf` has at most one list of entries.
pub fn entries_are_unique()
    ensures { (b : BoxAt) (some others : List Info) → IsIinf b some → IsIinf b others → some ≡ others }
{}

/// An entry has an id that is not 0, strings without a zero byte, and only the strings that its type
/// has; an `iinf` has such entries, and no two with one id.
pub fn entries_are_good()
    ensures entry { (body : List ℕ) (info : Info) → IsInfe body info → IsGoodInfo info }
    ensures entries { (b : BoxAt) (infos : List Info) → IsIinf b infos → AllByRecursion IsGoodInfo infos }
    ensures distinct { (b : BoxAt) (infos : List Info) → IsIinf b infos → IsTrue (are_distinct (info_ids infos)) }
{}

/// The bodies as they are written are bodies of their values, and so are read as these, with ids of
/// either width.
pub fn written_bodies_are_bodies()
    ensures infe { (wide : Bool) (info : Info) → IsGoodInfo info → info.id < 256 ^ id_width wide → IsInfe (infe_body wide info) info }
    ensures iinf { (wide : Bool) (at head : ℕ) (infos : List Info) → AllByRecursion (IsWritable wide) infos → IsTrue (are_distinct (info_ids infos)) →
        length infos < 256 ^ id_width wide → length infos ≤ BOXES →
        IsIinfWithin (record { kind = IINF; at = at; head = head; body = iinf_body wide infos }) infos }
{}
