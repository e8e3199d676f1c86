//! The iterator over a list's values.
ghost use Rattle.std.specs.Prelude.{◌≡◌, ⊤};
ghost use Rattle.std.specs.Iterator.{YieldsFirstRef, item_count};

use crate::list::{List, Node};
use std::alloc::AllocError;
use std::fmt;
use std::iter::FusedIterator;
use std::marker::Model;
use std::rc::Rc;

/// The values of a list that are left, in order. A contract sees it as the list of them.
#[derive(Drop)]
pub struct Iter<'a, T> {
    next: Option<&'a Node<T>>,
}

impl<'a, T> Model for Iter<'a, T> {
    ghost use Rattle.std.specs.Prelude.{List};

    ghost Value = { List T };

    ghost use Rattle.shared_lists.specs.Values.{values_from};

    ghost view = { λ a. values_from a.next };
}

impl<'a, T> Iter<'a, T> {
    ghost use Rattle.shared_lists.specs.Values.{values_of};

    pub(crate) fn behind(link: &'a Option<Rc<Node<T>>>) -> Self
        ensures { result ≡ values_of link.now }
    {
        match link {
            Some(node) => Iter {
                next: Some(&**node),
            },
            None => Iter { next: None },
        }
    }
}

impl<'a, T> Iterator for Iter<'a, T> {
    type Item = &'a T;

    ghost next_gives = { YieldsFirstRef (λ rest. rest) };

    ghost remaining = { item_count (λ rest. rest) };

    fn next(&mut self) -> Option<&'a T> {
        let node = self.next?;
        self.next = match &node.next {
            Some(next) => Some(&**next),
            None => None,
        };
        Some(&node.value)
    }
}

impl<'a, T> FusedIterator for Iter<'a, T> {}

impl<'a, T> Clone for Iter<'a, T> {
    ghost is_clone = { λ rest copy. copy ≡ rest };

    ghost is_infallible = { λ _. ⊤ };

    fn clone(&self) -> Result<Iter<'a, T>, AllocError> {
        Ok(Iter { next: self.next })
    }
}

impl<'a, T: fmt::Debug> fmt::Debug for Iter<'a, T> {
    fn fmt<W: fmt::Write>(&self, f: &mut fmt::Formatter<W>) -> fmt::Result {
        let rest = Iter { next: self.next };
        f.debug_list().entries(rest).finish()
    }
}

impl<'a, T> IntoIterator for &'a List<T> {
    type Item = &'a T;

    type IntoIter = Iter<'a, T>;

    ghost into_iter_gives = { λ list rest. rest ≡ list.now };

    fn into_iter(self) -> Iter<'a, T> {
        self.iter()
    }
}
