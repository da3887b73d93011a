//! The order of nodes that need each other.

ghost use Rattle.std.specs.Prelude.{IfOk};
ghost use Rattle.std.specs.List.Sorted.{IsNonDecreasingBy};
ghost use Rattle.hf_order.specs.Order.{AreWithin, IsOrder, IsLeft};

use crate::needs::by_need;
use crate::steps::{counted, finish, ready};
use hf_base::NoMemory;
use std::alloc::Global;

/// Nodes in order, and which nodes are among them.
#[derive(Drop)]
pub struct Order {
    /// The nodes that can come behind all that they need, in such an order.
    pub nodes: Vec<usize>,
    /// For each node a number that is 0 exactly where the node is among `nodes`; so one read tells
    /// whether it is, without a search.
    pub left: Vec<usize>,
}

/// The order for pairs that are sorted by what they need.
fn ordered(alloc: Global, count: usize, sorted: &[(usize, usize)]) -> Result<Order, NoMemory>
    requires rises { IsNonDecreasingBy (λ pair. pair.1) sorted.now }
    requires within { AreWithin count sorted.now }
    ensures exact { IfOk result (λ order. IsOrder count sorted.now order.nodes.items) }
    ensures left { IfOk result (λ order. IsLeft count order.left.items order.nodes.items) }
{
    let mut left = counted(alloc, count, sorted)?;
    let mut nodes = ready(alloc, &left)?;
    let mut done = 0;
    while done < nodes.len() {
        finish(sorted, done, &mut left, &mut nodes)?;
        done += 1;
    }
    Ok(Order { nodes, left })
}

/// The order of the nodes 0 to `count` - 1. A pair says that its first node needs its second one;
/// it may stand more than once. A node is left out exactly where a walk along the pairs that never
/// ends starts at it (`laws`). `NoMemory` comes where memory was refused.
///
/// n pairs take time that grows as n log n, and the memory of one copy of them beside two numbers a
/// node. There is no recursion, so a long chain takes no stack.
pub fn order_of(alloc: Global, count: usize, pairs: &[(usize, usize)]) -> Result<Order, NoMemory>
    requires { AreWithin count pairs.now }
    // Each node of the order comes behind all that it needs, and none is left out that could.
    ensures exact { IfOk result (λ order. IsOrder count pairs.now order.nodes.items) }
    // Which nodes are in it.
    ensures left { IfOk result (λ order. IsLeft count order.left.items order.nodes.items) }
{
    let sorted = by_need(alloc, pairs)?;
    ordered(alloc, count, &sorted)
}
