//! The steps by which nodes are put in order. `left` counts for each node the pairs whose need is
//! not done yet. The order has the nodes with nothing left, and the first of them are done: those
//! that need them were told.

ghost use Rattle.std.specs.Prelude.{◌≡◌, ◌==◌, ℕ, ◌+◌, ◌-◌, ◌<◌, [], ◌∷◌, ◌++◌, length, slice_index, slice_set, if◌then◌else◌, IfOk, OnOk};
ghost use Rattle.std.specs.List.Sorted.{IsNonDecreasingBy};
ghost use Rattle.hf_order.specs.Order.{AreWithin};
ghost use Rattle.hf_order.specs.Waiting.{waits, AreReady, IsUnderWay};

use crate::needs::users_of;
use hf_base::NoMemory;
use std::alloc::Global;

/// How many pairs each node has.
pub fn counted(
    alloc: Global,
    count: usize,
    pairs: &[(usize, usize)],
) -> Result<Vec<usize>, NoMemory>
    requires { AreWithin count pairs.now }
    ensures size { IfOk result (λ left. length left.items ≡ count) }
    ensures counts { IfOk result (λ left. (node : ℕ) → node < count → slice_index left.items node ≡ waits [] node pairs.now) }
{
    let mut left = vec![in alloc; 0; count]?;
    for pair in pairs {
        left[pair.0] += 1;
    }
    Ok(left)
}

/// The nodes with nothing left. There is room for all nodes from the start, so the order never
/// moves while it grows.
pub fn ready(alloc: Global, left: &[usize]) -> Result<Vec<usize>, NoMemory>
    ensures { IfOk result (λ nodes. AreReady (length left.now) left.now nodes.items) }
{
    let mut nodes = Vec::with_capacity(alloc, left.len())?;
    for (node, waits) in left.iter().enumerate() {
        if *waits == 0 {
            nodes.push(node)?;
        }
    }
    Ok(nodes)
}

/// One thing less that this node needs. It joins the order where nothing is left.
fn meet(node: usize, left: &mut [usize], order: &mut Vec<usize>) -> Result<(), NoMemory>
    requires within { node < length left.old }
    requires some { 0 < slice_index left.old node }
    ensures lessened { left.new ≡ slice_set left.old node (slice_index left.old node - 1) }
    ensures joined { OnOk result (order.new.items ≡ (if slice_index left.old node == 1 then order.old.items ++ node ∷ [] else order.old.items)) }
{
    left[node] -= 1;
    if left[node] == 0 {
        order.push(node)?;
    }
    Ok(())
}

/// One node of the order is done, and so less is left of those that need it.
pub fn finish(
    sorted: &[(usize, usize)],
    done: usize,
    left: &mut [usize],
    order: &mut Vec<usize>,
) -> Result<(), NoMemory>
    requires rises { IsNonDecreasingBy (λ pair. pair.1) sorted.now }
    requires within { AreWithin (length left.old) sorted.now }
    requires begun { done < length order.old.items }
    requires under_way { IsUnderWay sorted.now [] done left.old order.old.items }
    ensures { OnOk result (IsUnderWay sorted.now [] (done + 1) left.new order.new.items) }
{
    let users = users_of(sorted, order[done]);
    for pair in users {
        meet(pair.0, left, order)?;
    }
    Ok(())
}
