//! Locations that own their text.

ghost use Rattle.std.specs.Prelude.{◌≡◌, [], Some, IfOk, refl, bytes_eq, reverse};
ghost use Rattle.std.proofs.Common.{rules};
ghost use Rattle.std.specs.Ordering.{nat_cmp};
ghost use Rattle.std.specs.Hash as fed;
ghost use Rattle.std.specs.Cmp.{on_equiv, on_total, on_po, on_per, partial_equiv_from_equiv};
ghost use Rattle.std.specs.Cmp.Lexicographic.{slice_cmp, nat_list_eq_equiv, nat_list_cmp_total, texts_ties, texts_po};
ghost use Rattle.std.specs.Cmp.Rules.{hashing};
ghost use Rattle.json_values.specs.Pointers.{pointer_text};
ghost use Rattle.location_texts.specs.Joined.{IsJoined};
ghost use Rattle.location_texts.specs.Locations.{location_of};

use crate::lazy_location::LazyLocation;
use json_pointers::JsonPointerSegment;
use schema_steps::Path;
use std::alloc::{AllocError, Global};
use std::cmp::Ordering;
use std::fmt;
use std::hash::{Hash, Hasher};
use std::marker::Model;

/// A path as a pointer's text: a `/` and the part for each step (RFC 6901, section 3). A contract sees the text.
#[derive(Drop)]
pub struct Location {
    text: String,
}

impl Model for Location {
    ghost use Rattle.std.specs.Prelude.{ℕ, List, string_bytes};

    ghost Value = { List ℕ };

    ghost view = { λ location. string_bytes location.text };
}

impl Location {
    /// The location of a whole document, which is the empty text. Nothing is allocated.
    pub fn new(alloc: Global) -> Location
        ensures { result ≡ [] }
    {
        Location {
            text: String::new(alloc),
        }
    }

    /// This location with one step more at its end, a name or an index. This one stays as it is.
    ///
    /// It copies the text. The error comes where memory is out.
    pub fn join<'a, S: Into<JsonPointerSegment<'a>>>(
        &self,
        segment: S,
    ) -> Result<Location, AllocError>
        ensures { IfOk result (IsJoined (S.Into.converts segment) self.now) }
    {
        let step = segment.into();
        let mut text = self.text.clone()?;
        text.push('/')?;
        step.write_to(&mut text)?;
        Ok(Location { text })
    }

    /// The location of a path.
    ///
    /// It costs what `Path::to_pointer` costs. The error comes where memory is out.
    pub fn from_path(alloc: Global, path: &Path) -> Result<Location, AllocError>
        ensures { IfOk result (λ location. location ≡ pointer_text (reverse path.now)) }
    {
        Ok(Location {
            text: path.to_pointer(alloc)?,
        })
    }

    /// The location of a path that is linked by borrows.
    ///
    /// It takes a stack frame and a push for each part. The error comes where memory is out.
    pub fn from_road(alloc: Global, road: &LazyLocation<'_, '_>) -> Result<Location, AllocError>
        ensures { IfOk result (λ location. location ≡ pointer_text (reverse (location_of road.now))) }
    {
        let path = road.to_path(alloc)?;
        Location::from_path(alloc, &path)
    }

    /// The text, lent in constant time.
    pub fn as_str(&self) -> &str
        ensures { result.now ≡ self.now }
    {
        self.text.as_str()
    }
}

/// A clone copies the text. The error comes where memory is out.
impl Clone for Location {
    ghost is_clone = { λ location copy. copy ≡ location };

    fn clone(&self) -> Result<Location, AllocError> {
        Ok(Location {
            text: self.text.clone()?,
        })
    }
}

impl PartialEq for Location {
    ghost use Rattle.location_texts.specs.LocationTexts.{text_of};

    ghost eq = { λ a b. bytes_eq a b };

    ghost laws = { on_per text_of (partial_equiv_from_equiv nat_list_eq_equiv) };

    fn eq(&self, other: &Location) -> bool {
        self.as_str() == other.as_str()
    }
}

impl Eq for Location {
    ghost use Rattle.location_texts.specs.LocationTexts.{text_of};

    ghost laws = { on_equiv text_of nat_list_eq_equiv };
}

impl PartialOrd for Location {
    ghost use Rattle.location_texts.specs.LocationTexts.{text_of};

    ghost partial_cmp = { λ a b. Some (slice_cmp nat_cmp a b) };

    ghost laws = { on_po text_of texts_po };

    fn partial_cmp(&self, other: &Location) -> Option<Ordering> {
        Some(self.cmp(other))
    }
}

impl Ord for Location {
    ghost use Rattle.location_texts.specs.LocationTexts.{text_of};

    ghost cmp = { λ a b. slice_cmp nat_cmp a b };

    ghost total = { on_total text_of nat_list_cmp_total };

    ghost matches_partial_cmp = { λ a b. refl };

    ghost matches_eq = { λ a b. texts_ties a b };

    fn cmp(&self, other: &Location) -> Ordering {
        self.as_str().cmp(other.as_str())
    }
}

impl Hash for Location {
    ghost hash_input = { λ location. fed.str location };

    ghost respects_eq = { Prim.search (hashing, rules) };

    fn hash<H: Hasher>(&self, state: &mut H) {
        self.as_str().hash(state);
    }
}

impl fmt::Debug for Location {
    fn fmt<W: fmt::Write>(&self, f: &mut fmt::Formatter<W>) -> fmt::Result {
        fmt::Debug::fmt(&self.as_str(), f)
    }
}

/// The text.
impl fmt::Display for Location {
    ghost output = { λ location. Some location };

    fn fmt<W: fmt::Write>(&self, f: &mut fmt::Formatter<W>) -> fmt::Result {
        fmt::Display::fmt(&self.as_str(), f)
    }
}
