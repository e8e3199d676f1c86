//! Equality, hash and `Debug` of lists, which are those of their values in order.
ghost use Rattle.std.specs.Cmp.Lexicographic.{pointwise, lists_equiv, lists_per};
ghost use Rattle.shared_lists.specs.Hashes.{marked, marked_alike};

use crate::list::List;
use std::fmt;
use std::hash::{Hash, Hasher};

/// Two lists are equal where they are as long and their values are equal, pair by pair. Shared nodes are compared too.
impl<T: PartialEq> PartialEq for List<T> {
    ghost eq = { pointwise T.eq };

    ghost laws = { lists_per T.laws };

    fn eq(&self, other: &List<T>) -> bool {
        let (mut left, mut right) = (self.iter(), other.iter());
        while let Some(mine) = left.next() {
            let Some(theirs) = right.next() else {
                return false;
            };
            if mine != theirs {
                return false;
            }
        }
        right.next().is_none()
    }
}

impl<T: Eq> Eq for List<T> {
    ghost laws = { lists_equiv T.Eq.laws };
}

impl<T: Hash> Hash for List<T> {
    ghost hash_input = { marked T.hash_input };

    ghost respects_eq = { marked_alike T.eq T.hash_input T.respects_eq };

    fn hash<H: Hasher>(&self, state: &mut H) {
        let mut rest = self.iter();
        while let Some(value) = rest.next() {
            state.write_u8(1);
            value.hash(state);
        }
        state.write_u8(0);
    }
}

impl<T: fmt::Debug> fmt::Debug for List<T> {
    fn fmt<W: fmt::Write>(&self, f: &mut fmt::Formatter<W>) -> fmt::Result {
        f.debug_list().entries(self.iter()).finish()
    }
}
