//! Items that lie in each other, and the order in which the bytes of the others are found.

ghost use Rattle.std.specs.Prelude.{◌≡◌, ◌<◌, IfOk, length, nat_lt, slice_index, Ok};
ghost use Rattle.hf_base.specs.LocationFaults.{bad_index_fault, loc_cycle_fault};
ghost use Rattle.hf_base.specs.Members.{Rises};
ghost use Rattle.hf_base.specs.Reading.{Reads};
ghost use Rattle.hf_extent.specs.Places.{AreAt, links_from};
ghost use Rattle.hf_extent.specs.Seen.{items_seen};
ghost use Rattle.hf_order.specs.Order.{IsOrder, IsLeft};

use crate::items::Located;
use crate::sources::links;
use hf_base::{NoMemory, ReadRefusal};
use hf_order::{Order, order_of};
use std::alloc::Global;

/// An order of the items' places in which each item stands behind those that it takes its bytes from.
pub fn order(alloc: Global, ids: &[u32], items: &[Located<'_>]) -> Result<Order, NoMemory>
    requires rising { Rises ◌<◌ ids.now }
    requires known { AreAt ids.now (items_seen items.now) }
    ensures exact { IfOk result (λ order. IsOrder (length ids.now) (links_from ids.now 0 (items_seen items.now)) order.nodes.items) }
    ensures left { IfOk result (λ order. IsLeft (length ids.now) order.left.items order.nodes.items) }
{
    let pairs = links(alloc, ids, items)?;
    order_of(alloc, ids.len(), &pairs)
}

/// Whether the node is not in the order.
fn is_left_out(order: &Order, node: usize) -> bool
    requires { node < length order.now.left.items }
    ensures { result ≡ nat_lt 0 (slice_index order.now.left.items node) }
{
    order.left[node] > 0
}

/// Refuses the first item whose unfolding into sources does not end: it is not in the order.
#[tactic(auto, unfolding(hf_base::specs::LocationFaults::loc_cycle_fault))]
pub fn loc_cycle(ids: &[u32], items: &[Located<'_>], order: &Order) -> Result<(), ReadRefusal>
    requires known { AreAt ids.now (items_seen items.now) }
    requires named { bad_index_fault (items_seen items.now) ≡ Ok tt }
    requires ordered { IsOrder (length ids.now) (links_from ids.now 0 (items_seen items.now)) order.now.nodes.items }
    requires left { IsLeft (length ids.now) order.now.left.items order.now.nodes.items }
    ensures { Reads (λ x. x) result (loc_cycle_fault (items_seen items.now)) }
{
    for (i, item) in items.iter().enumerate() {
        if is_left_out(order, i) {
            return Err(ReadRefusal::LocCycle { id: item.id });
        }
    }
    Ok(())
}
