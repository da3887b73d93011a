//! Laws of orders. Each is the contract of a function that does nothing.

ghost use Rattle.std.specs.Prelude.{◌↔◌, ℕ, ◌<◌, List};
ghost use Rattle.hf_base.specs.Members.{IsIn};
ghost use Rattle.hf_order.specs.Order.{AreWithin, IsOrder, StartsEndless};

/// Each walk from a node of an order ends.
pub fn walks_from_an_order_end()
    ensures { (count : ℕ) (pairs : List (ℕ × ℕ)) (order : List ℕ) (a : ℕ) → IsOrder count pairs order → IsIn a order → ¬ StartsEndless pairs a }
{}

/// A walk that never ends starts at each node outside an order.
pub fn endless_walks_start_outside()
    ensures { (count : ℕ) (pairs : List (ℕ × ℕ)) (order : List ℕ) (a : ℕ) → AreWithin count pairs → IsOrder count pairs order → a < count → ¬ IsIn a order → StartsEndless pairs a }
{}

/// A node from which each walk ends is in every order.
pub fn an_order_has_each_node_whose_walks_end()
    ensures { (count : ℕ) (pairs : List (ℕ × ℕ)) (order : List ℕ) (a : ℕ) → AreWithin count pairs → IsOrder count pairs order → a < count → ¬ StartsEndless pairs a → IsIn a order }
{}

/// Two orders of the same nodes and pairs have the same members.
pub fn orders_have_the_same_nodes()
    ensures { (count : ℕ) (pairs : List (ℕ × ℕ)) (some other : List ℕ) → AreWithin count pairs → IsOrder count pairs some → IsOrder count pairs other → (a : ℕ) → IsIn a some ↔ IsIn a other }
{}
