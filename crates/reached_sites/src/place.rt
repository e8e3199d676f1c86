//! Places of documents.

ghost use Rattle.std.specs.Prelude.{◌≡◌, ◌∷◌, Some, IfOk};
ghost use Rattle.std.specs.Bool.{Decides};
ghost use Rattle.std.specs.Rc.{rc_str_bytes};
ghost use Rattle.json_values.specs.Parts.{name as name_part, index as index_part};
ghost use Rattle.document_index.specs.Seen.{name_of};
ghost use Rattle.referencing.specs.Resolved.{target_in};
ghost use Rattle.reached_sites.specs.Places.{place_in, shown};

use document_index::document::DocumentName;
use referencing::Resolved;
use schema_steps::{Path, Step};
use std::alloc::{AllocError, Global};
use std::fmt;
use std::rc::RcStr;

/// A place of a document: its name and a path in it. It is printed as the document's URI, `#` and the path as a pointer.
#[derive(Debug, Drop)]
pub struct SchemaPlace {
    pub document: DocumentName,
    pub path: Path,
}

impl SchemaPlace {
    /// The place that a reference leads to. It shares the document's URI and the path.
    ///
    /// # Errors
    ///
    /// Where a count of owners is full.
    pub fn of_target(target: &Resolved<'_>) -> Result<SchemaPlace, AllocError>
        ensures document { IfOk result (λ p. name_of p.document ≡ (target_in target.now).document) }
        ensures path { IfOk result (λ p. p.path ≡ (target_in target.now).path) }
    {
        Ok(SchemaPlace {
            document: target.document_name().clone()?,
            path: target.path().clone()?,
        })
    }

    /// The same place, which shares the URI and the path.
    ///
    /// # Errors
    ///
    /// Where a count of owners is full.
    pub fn shared(&self) -> Result<SchemaPlace, AllocError>
        ensures { IfOk result (λ p. place_in p ≡ place_in self.now) }
    {
        Ok(SchemaPlace {
            document: self.document.clone()?,
            path: self.path.clone()?,
        })
    }

    /// Whether both are the same place.
    pub fn is(&self, other: &SchemaPlace) -> bool
        ensures { Decides result (place_in self.now ≡ place_in other.now) }
    {
        self.path == other.path && self.document == other.document
    }

    /// The place of a member.
    ///
    /// # Errors
    ///
    /// Where memory was refused or a count of owners is full.
    pub fn member(&self, alloc: Global, name: &str) -> Result<SchemaPlace, AllocError>
        ensures document { IfOk result (λ p. name_of p.document ≡ name_of self.now.document) }
        ensures path { IfOk result (λ p. p.path ≡ name_part name.now ∷ self.now.path) }
    {
        self.named(alloc, RcStr::from_str(alloc, name)?)
    }

    /// The place of a member by its name, which is not copied.
    ///
    /// # Errors
    ///
    /// Where memory was refused or a count of owners is full.
    pub fn named(&self, alloc: Global, name: RcStr) -> Result<SchemaPlace, AllocError>
        ensures document { IfOk result (λ p. name_of p.document ≡ name_of self.now.document) }
        ensures path { IfOk result (λ p. p.path ≡ name_part (rc_str_bytes name) ∷ self.now.path) }
    {
        Ok(SchemaPlace {
            document: self.document.clone()?,
            path: self.path.push(alloc, Step::Name(name))?,
        })
    }

    /// The place of an item.
    ///
    /// # Errors
    ///
    /// Where memory was refused or a count of owners is full.
    pub fn item(&self, alloc: Global, index: usize) -> Result<SchemaPlace, AllocError>
        ensures document { IfOk result (λ p. name_of p.document ≡ name_of self.now.document) }
        ensures path { IfOk result (λ p. p.path ≡ index_part index ∷ self.now.path) }
    {
        Ok(SchemaPlace {
            document: self.document.clone()?,
            path: self.path.push_item(alloc, index)?,
        })
    }
}

impl fmt::Display for SchemaPlace {
    ghost output = { λ place. Some (shown (place_in place)) };

    fn fmt<W: fmt::Write>(&self, f: &mut fmt::Formatter<W>) -> fmt::Result {
        write!(f, "{}#{}", self.document.uri.as_str(), self.path)
    }
}
