//! What holds properties.

ghost use Rattle.std.specs.Prelude.{◌≡◌, ◌<◌, ℕ, List, length, slice_get, Some};
ghost use Rattle.hf_prop.specs.declared.prop.Prop.{Prop as StatedProp};
ghost use Rattle.hf_table.specs.Held.{props_in};

use hf_prop::Held;

/// What has an id and holds properties, as an item does.
pub trait Holder<'a> {
    /// The id.
    ghost id_of: { Self → ℕ };

    /// The properties, in order.
    ghost props_of: { Self → List StatedProp };

    /// The id.
    fn id(&self) -> u32
        ensures { result ≡ id_of self.now };

    /// The properties, in order.
    fn props(&self) -> &[Held<'a>]
        ensures { props_in result.now ≡ props_of self.now };
}

/// What has some lists of properties, as a store has one for each item.
pub trait PropLists<'a> {
    /// The lists, in order.
    ghost lists: { Self → List (List StatedProp) };

    /// How many lists there are.
    fn count(&self) -> usize
        ensures { result ≡ length (lists self.now) };

    /// The properties of a list, counted from 0.
    fn props_at(&self, i: usize) -> &[Held<'a>]
        requires { i < length (lists self.now) }
        ensures { slice_get (lists self.now) i ≡ Some (props_in result.now) };
}
