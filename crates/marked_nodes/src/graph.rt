//! Edges, and where the edges to each node come from.
ghost use Rattle.std.specs.Prelude.{◌≡◌, [], IfOk, length};
ghost use Rattle.std.specs.List.{All};
ghost use Rattle.marked_nodes.specs.Sources.{IsWithin, HoldsSources};

use std::alloc::{AllocError, Global};

/// An edge of a graph whose nodes are numbers.
#[derive(Clone, Copy, Debug, PartialEq, Eq)]
pub struct Edge {
    pub from: usize,
    pub to: usize,
}

// So many empty lists.
fn empty_lists(alloc: Global, count: usize) -> Result<Vec<Vec<usize>>, AllocError>
    ensures len { IfOk result (λ v. length v.items ≡ count) }
    ensures empty { IfOk result (λ v. All (λ w. w.items ≡ []) v.items) }
{
    let mut lists = Vec::with_capacity(alloc, count)?;
    for _ in 0..count {
        lists.push(Vec::new(alloc))?;
    }
    Ok(lists)
}

/// For each of so many nodes, the nodes that have an edge to it, in the order of the edges.
///
/// # Errors
///
/// Where memory was refused.
pub(crate) fn sources_of_each(
    alloc: Global,
    count: usize,
    edges: &[Edge],
) -> Result<Vec<Vec<usize>>, AllocError>
    requires { All (IsWithin count) edges.now }
    ensures len { IfOk result (λ v. length v.items ≡ count) }
    ensures each { IfOk result (λ v. HoldsSources edges.now v.items) }
{
    let mut sources = empty_lists(alloc, count)?;
    for edge in edges {
        sources[edge.to].push(edge.from)?;
    }
    Ok(sources)
}
