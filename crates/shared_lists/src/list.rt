//! The list and its calls.
ghost use Rattle.std.specs.Prelude.{◌≡◌, ◌==◌, [], ◌∷◌, length, IfOk, option_copied, slice_get};

use crate::iter::Iter;
use std::alloc::{AllocError, Global};
use std::marker::Model;
use std::rc::Rc;

#[derive(Drop)]
pub(crate) struct Node<T> {
    pub(crate) value: T,
    pub(crate) next: Option<Rc<Node<T>>>,
}

/// An immutable list. A contract sees it as the list of its values, the front first.
///
/// Lists that were made by [`List::push_front`] of one list, and copies of a list, share its nodes: they are counted
/// (`Rc`), and a node is freed with the last list that it is in. Freeing takes a stack frame for each node freed.
#[derive(Drop)]
pub struct List<T> {
    pub(crate) head: Option<Rc<Node<T>>>,
}

impl<T> Model for List<T> {
    ghost use Rattle.std.specs.Prelude.{List};

    ghost Value = { List T };

    ghost use Rattle.shared_lists.specs.Values.{values_of};

    ghost view = { λ a. values_of a.head };
}

impl<T> List<T> {
    /// The list of nothing. It allocates nothing.
    pub const fn new() -> Self
        ensures { result ≡ [] }
    {
        List { head: None }
    }

    /// Whether there is no value in the list.
    pub fn is_empty(&self) -> bool
        ensures { result ≡ (length self.now == 0) }
    {
        match &self.head {
            Some(_) => false,
            None => true,
        }
    }

    /// The value at the front, and none where the list is empty.
    pub fn first(&self) -> Option<&T>
        ensures { option_copied result ≡ slice_get self.now 0 }
    {
        match &self.head {
            Some(node) => Some(&node.value),
            None => None,
        }
    }

    /// The values in order, the front first.
    pub fn iter(&self) -> Iter<'_, T>
        ensures { result ≡ self.now }
    {
        Iter::behind(&self.head)
    }
}

impl<T: Drop> List<T> {
    /// The list with a value before its front, in constant time. It shares the nodes of this list, which stays as it is.
    ///
    /// It allocates one node. The error comes where memory is out or the front node's count of owners is full, and the
    /// value is then dropped.
    pub fn push_front(&self, alloc: Global, value: T) -> Result<List<T>, AllocError>
        ensures { IfOk result (λ list. list ≡ value ∷ self.now) }
    {
        let node = Node {
            value,
            next: self.head.clone()?,
        };
        Ok(List {
            head: Some(Rc::new(alloc, node)?),
        })
    }
}

/// A clone shares the nodes, in constant time. The error comes where the front node's count of owners is full, so never
/// for the list of nothing.
impl<T: Drop> Clone for List<T> {
    ghost is_clone = { λ list copy. copy ≡ list };

    ghost is_infallible = { λ list. list ≡ [] };

    fn clone(&self) -> Result<List<T>, AllocError> {
        match &self.head {
            Some(node) => Ok(List {
                head: Some(node.clone()?),
            }),
            None => Ok(List::new()),
        }
    }
}

/// The list of nothing.
impl<T> Default for List<T> {
    ghost is_default = { λ list. list ≡ [] };

    fn default() -> List<T> {
        List::new()
    }
}
