//! Pairs of a node and one that it needs, sorted by the one that is needed.

ghost use Rattle.std.specs.Prelude.{◌≡◌, ◌==◌, ◌-◌, ◌≤◌, length, take, drop, IfOk};
ghost use Rattle.std.specs.List.{filter};
ghost use Rattle.std.specs.List.Sorted.{IsPermutation, IsNonDecreasingBy};

use hf_base::NoMemory;
use std::alloc::Global;

/// The pairs, sorted by what they need, so that those who need one node stand together.
pub fn by_need(alloc: Global, pairs: &[(usize, usize)]) -> Result<Vec<(usize, usize)>, NoMemory>
    ensures moved { IfOk result (λ sorted. IsPermutation pairs.now sorted.items) }
    ensures rises { IfOk result (λ sorted. IsNonDecreasingBy (λ pair. pair.1) sorted.items) }
{
    let mut sorted = Vec::from_slice(alloc, pairs)?;
    sorted.sort_unstable_by_key(|pair| pair.1);
    Ok(sorted)
}

/// Where the pairs that need this node begin, and where they end.
fn span_of(sorted: &[(usize, usize)], node: usize) -> (usize, usize)
    requires { IsNonDecreasingBy (λ pair. pair.1) sorted.now }
    ensures rises { result.0 ≤ result.1 }
    ensures within { result.1 ≤ length sorted.now }
    ensures between { take (result.1 - result.0) (drop result.0 sorted.now) ≡ filter (λ pair. pair.1 == node) sorted.now }
{
    let start = sorted.partition_point(|pair| pair.1 < node);
    let end = sorted.partition_point(|pair| pair.1 <= node);
    (start, end)
}

/// The pairs that need this node.
pub fn users_of(sorted: &[(usize, usize)], node: usize) -> &[(usize, usize)]
    requires { IsNonDecreasingBy (λ pair. pair.1) sorted.now }
    ensures { result.now ≡ filter (λ pair. pair.1 == node) sorted.now }
{
    let (start, end) = span_of(sorted, node);
    &sorted[start..end]
}
