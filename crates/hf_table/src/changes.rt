//! Changes by lists of properties. A property that a list has twice counts twice.

ghost use Rattle.std.specs.Prelude.{◌≡◌, [], OnOk, OnErr};
ghost use Rattle.std.specs.List.Sorted.{IsStrictlyIncreasing};
ghost use Rattle.hf_table.specs.Held.{props_in, of_kind, is_optional_of, optional_of, is_among, props_of_others};
ghost use Rattle.hf_table.specs.Uses.{Gains, Trades, Holds, HasRoom};

use crate::{Holder, Uses};
use hf_base::{FourCc, NoMemory};
use hf_prop::Held;

impl<'a> Uses<'a> {
    /// These properties lose one holder each.
    pub fn take_all(&mut self, props: &[Held<'a>])
        requires { Holds self.old (props_in props.now) }
        ensures { Gains self.new (props_in props.now) self.old }
    {
        for held in props {
            self.take(&held.prop);
        }
    }

    /// These properties get one holder more each. After `NoMemory` each has as many as before.
    pub fn add_all(&mut self, props: &[Held<'a>]) -> Result<(), NoMemory>
        requires { HasRoom self.old (props_in props.now) }
        ensures gains { OnOk result (Gains self.old (props_in props.now) self.new) }
        ensures same { OnErr result (Gains self.old [] self.new) }
    {
        for i in 0..props.len() {
            if let Err(fault) = self.add(props[i].prop.copy()) {
                self.take_all(&props[..i]);
                return Err(fault);
            }
        }
        Ok(())
    }

    /// The properties of an item give way to others. After `NoMemory` each has as many holders as
    /// before.
    pub fn replace(&mut self, less: &[Held<'a>], more: &[Held<'a>]) -> Result<(), NoMemory>
        requires held { Holds self.old (props_in less.now) }
        requires room { HasRoom self.old (props_in more.now) }
        ensures trades { OnOk result (Trades self.old (props_in less.now) (props_in more.now) self.new) }
        ensures same { OnErr result (Gains self.old [] self.new) }
    {
        self.add_all(more)?;
        self.take_all(less);
        Ok(())
    }

    /// Of these properties those of one type lose one holder each.
    pub fn take_kind(&mut self, props: &[Held<'a>], kind: FourCc)
        requires { Holds self.old (of_kind kind props.now) }
        ensures { Gains self.new (of_kind kind props.now) self.old }
    {
        for held in props {
            let is_of_kind = held.prop.kind == kind;
            if is_of_kind {
                self.take(&held.prop);
            }
        }
    }

    /// Of these properties those of one type that are not essential lose one holder each.
    pub fn take_optional(&mut self, props: &[Held<'a>], kind: FourCc)
        requires { Holds self.old (optional_of kind props.now) }
        ensures { Gains self.new (optional_of kind props.now) self.old }
    {
        for held in props {
            let is_optional = is_optional(held, kind);
            if is_optional {
                self.take(&held.prop);
            }
        }
    }

    /// The properties of the items whose ids are not listed lose one holder each.
    pub fn take_others<H: Holder<'a>>(&mut self, items: &[H], ids: &[u32])
        requires rises { IsStrictlyIncreasing ids.now }
        requires held { Holds self.old (props_of_others H.id_of H.props_of ids.now items.now) }
        ensures { Gains self.new (props_of_others H.id_of H.props_of ids.now items.now) self.old }
    {
        for item in items {
            let stays = is_listed(ids, item.id());
            if !stays {
                self.take_all(item.props());
            }
        }
    }
}

/// Whether a property is of a type, and not essential.
fn is_optional(held: &Held<'_>, kind: FourCc) -> bool
    ensures { result ≡ is_optional_of kind held.now }
{
    held.prop.kind == kind && !held.essential
}

/// Whether an id is one of these, which rise.
pub fn is_listed(ids: &[u32], id: u32) -> bool
    ensures { IsStrictlyIncreasing ids.now → result ≡ is_among ids.now id }
{
    ids.binary_search(&id).is_ok()
}
