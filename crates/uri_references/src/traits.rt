//! URIs and URI references print, compare and hash as their text.

ghost use Rattle.std.specs.Prelude.{◌≡◌, Some, refl, bytes_eq};
ghost use Rattle.std.proofs.Common.{rules};
ghost use Rattle.std.specs.Ordering.{nat_cmp};
ghost use Rattle.std.specs.Hash as fed;
ghost use Rattle.std.specs.Cmp.{on_equiv, on_total, on_po, on_per, partial_equiv_from_equiv};
ghost use Rattle.std.specs.Cmp.Lexicographic.{slice_cmp, nat_list_eq_equiv, nat_list_cmp_total, texts_ties, texts_po};
ghost use Rattle.std.specs.Cmp.Rules.{hashing};
ghost use Rattle.uri_references.specs.Lent.{text_of};
ghost use Rattle.uri_references.specs.Owned.{owned_text};

use crate::borrowed::UriRef;
use crate::owned::Uri;
use std::alloc::AllocError;
use std::cmp::Ordering;
use std::fmt;
use std::hash::{Hash, Hasher};

impl Clone for Uri {
    ghost is_clone = { λ uri copy. copy ≡ uri };

    fn clone(&self) -> Result<Uri, AllocError> {
        self.copied()
    }
}

impl PartialEq for Uri {
    ghost eq = { λ a b. bytes_eq a b };

    ghost laws = { on_per owned_text (partial_equiv_from_equiv nat_list_eq_equiv) };

    fn eq(&self, other: &Uri) -> bool {
        self.as_str() == other.as_str()
    }
}

impl Eq for Uri {
    ghost laws = { on_equiv owned_text nat_list_eq_equiv };
}

impl PartialOrd for Uri {
    ghost partial_cmp = { λ a b. Some (slice_cmp nat_cmp a b) };

    ghost laws = { on_po owned_text texts_po };

    fn partial_cmp(&self, other: &Uri) -> Option<Ordering> {
        Some(self.cmp(other))
    }
}

impl Ord for Uri {
    ghost cmp = { λ a b. slice_cmp nat_cmp a b };

    ghost total = { on_total owned_text nat_list_cmp_total };

    ghost matches_partial_cmp = { λ a b. refl };

    ghost matches_eq = { λ a b. texts_ties a b };

    fn cmp(&self, other: &Uri) -> Ordering {
        self.as_str().cmp(other.as_str())
    }
}

impl Hash for Uri {
    ghost hash_input = { λ uri. fed.str uri };

    ghost respects_eq = { Prim.search (hashing, rules) };

    fn hash<H: Hasher>(&self, state: &mut H) {
        self.as_str().hash(state);
    }
}

impl fmt::Debug for Uri {
    fn fmt<W: fmt::Write>(&self, f: &mut fmt::Formatter<W>) -> fmt::Result {
        fmt::Debug::fmt(&self.as_str(), f)
    }
}

impl fmt::Display for Uri {
    ghost output = { λ uri. Some uri };

    fn fmt<W: fmt::Write>(&self, f: &mut fmt::Formatter<W>) -> fmt::Result {
        fmt::Display::fmt(&self.as_str(), f)
    }
}

impl PartialEq for UriRef<'_> {
    ghost eq = { λ a b. bytes_eq (text_of a) (text_of b) };

    ghost laws = { on_per text_of (partial_equiv_from_equiv nat_list_eq_equiv) };

    fn eq(&self, other: &UriRef<'_>) -> bool {
        self.as_str() == other.as_str()
    }
}

impl Eq for UriRef<'_> {
    ghost laws = { on_equiv text_of nat_list_eq_equiv };
}

impl PartialOrd for UriRef<'_> {
    ghost partial_cmp = { λ a b. Some (slice_cmp nat_cmp (text_of a) (text_of b)) };

    ghost laws = { on_po text_of texts_po };

    fn partial_cmp(&self, other: &UriRef<'_>) -> Option<Ordering> {
        Some(self.cmp(other))
    }
}

impl Ord for UriRef<'_> {
    ghost cmp = { λ a b. slice_cmp nat_cmp (text_of a) (text_of b) };

    ghost total = { on_total text_of nat_list_cmp_total };

    ghost matches_partial_cmp = { λ a b. refl };

    ghost matches_eq = { λ a b. texts_ties (text_of a) (text_of b) };

    fn cmp(&self, other: &UriRef<'_>) -> Ordering {
        self.as_str().cmp(other.as_str())
    }
}

impl Hash for UriRef<'_> {
    ghost hash_input = { λ reference. fed.str (text_of reference) };

    ghost respects_eq = { Prim.search (hashing, rules) };

    fn hash<H: Hasher>(&self, state: &mut H) {
        self.as_str().hash(state);
    }
}

impl fmt::Debug for UriRef<'_> {
    fn fmt<W: fmt::Write>(&self, f: &mut fmt::Formatter<W>) -> fmt::Result {
        fmt::Debug::fmt(&self.as_str(), f)
    }
}

impl fmt::Display for UriRef<'_> {
    ghost output = { λ reference. Some (text_of reference) };

    fn fmt<W: fmt::Write>(&self, f: &mut fmt::Formatter<W>) -> fmt::Result {
        fmt::Display::fmt(&self.as_str(), f)
    }
}
