//! The nodes that lead to marked ones.
ghost use Rattle.std.specs.Prelude.{◌≡◌, ℕ, Bool, Some, IfOk, OnOk, length, slice_get, ◌<◌};
ghost use Rattle.std.specs.Bool.{Decides};
ghost use Rattle.std.specs.List.{All};
ghost use Rattle.marked_nodes.specs.Leading.{LeadsTo};
ghost use Rattle.marked_nodes.specs.Marking.{Marks};
ghost use Rattle.marked_nodes.specs.Sources.{IsWithin};

use crate::graph::{Edge, sources_of_each};
use std::alloc::{AllocError, Global};

// Marks each of some nodes. Those that were not marked wait from then on.
fn mark_all(
    leading: &mut Vec<bool>,
    waiting: &mut Vec<usize>,
    nodes: &[usize],
) -> Result<(), AllocError>
    requires { All (λ i. i < length leading.old.items) nodes.now }
    ensures { OnOk result (Marks nodes.now leading.old.items leading.new.items waiting.old.items waiting.new.items) }
{
    for node in nodes {
        if !leading[*node] {
            waiting.push(*node)?;
            leading[*node] = true;
        }
    }
    Ok(())
}

/// For each of so many nodes, whether a chain of edges leads from it to a marked one, itself included.
///
/// It takes time and memory in proportion to the nodes, the edges and the marks.
///
/// # Errors
///
/// Where memory was refused.
pub fn leading_to(
    alloc: Global,
    count: usize,
    edges: &[Edge],
    marked: &[usize],
) -> Result<Vec<bool>, AllocError>
    requires below { All (IsWithin count) edges.now }
    requires marked { All (λ i. i < count) marked.now }
    ensures length { IfOk result (λ v. length v.items ≡ count) }
    ensures each { IfOk result (λ v. (i : ℕ) (b : Bool) → slice_get v.items i ≡ Some b → Decides b (LeadsTo edges.now marked.now i)) }
{
    let sources = sources_of_each(alloc, count, edges)?;
    let mut leading = vec![in alloc; false; count]?;
    let mut waiting = Vec::new(alloc);
    mark_all(&mut leading, &mut waiting, marked)?;
    while let Some(node) = waiting.pop() {
        mark_all(&mut leading, &mut waiting, &sources[node])?;
    }
    Ok(leading)
}
