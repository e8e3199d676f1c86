//! The nodes of a keyword's subschemas.
ghost use Rattle.std.specs.Prelude.{◌≡◌, IfOk};
ghost use Rattle.keyword_compilers.specs.Numbers.{first_in, rest_in};

use std::alloc::{AllocError, Global};

/// The nodes of what a keyword leads to, in its order, and those of `then` and `else` beside `if`.
#[derive(Clone, Copy, Debug)]
pub struct Nodes<'n> {
    pub leads: &'n [usize],
    pub then_node: Option<usize>,
    pub else_node: Option<usize>,
}

// The next of some nodes, 0 where there is none.
pub(crate) fn first(nodes: &[usize]) -> usize
    ensures { result ≡ first_in nodes.now }
{
    match nodes {
        [first, ..] => *first,
        [] => 0,
    }
}

// Those behind it.
pub(crate) fn rest(nodes: &[usize]) -> &[usize]
    ensures { result.now ≡ rest_in nodes.now }
{
    match nodes {
        [_, rest @ ..] => rest,
        [] => nodes,
    }
}

pub(crate) fn copied(alloc: Global, nodes: &[usize]) -> Result<Vec<usize>, AllocError>
    ensures { IfOk result (λ v. v.items ≡ nodes.now) }
{
    Vec::from_slice(alloc, nodes)
}
