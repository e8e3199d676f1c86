//! Where a walk over schemas comes by.

ghost use Rattle.std.specs.Prelude.{◌≡◌, ◌∷◌, [], true, IfOk};
ghost use Rattle.std.specs.Bool.{Decides};
ghost use Rattle.json_values.specs.Parts.{name as name_part, index as index_part};
ghost use Rattle.document_index.specs.Seen.{name_of};
ghost use Rattle.referencing.specs.Resolved.{target_in};
ghost use Rattle.schema_definitions.specs.Sites.{path_of_reference};
ghost use Rattle.schema_reports.specs.Readable.{reads_as_path};
ghost use Rattle.reading_laws.specs.Spelled.{by_name};
ghost use Rattle.reached_sites.specs.Visits.{AreOnePoint};

use crate::place::SchemaPlace;
use crate::schema_path::SchemaPath;
use referencing::Resolved;
use std::alloc::{AllocError, Global};
use std::rc::RcStr;

/// A place of a document with the schema path by which a walk comes there.
#[derive(Drop)]
pub struct Waypoint {
    pub place: SchemaPlace,
    pub schema_path: SchemaPath,
}

impl Waypoint {
    /// Where a walk begins.
    ///
    /// # Errors
    ///
    /// Where a count of owners is full.
    pub fn of_root(root: &Resolved<'_>) -> Result<Waypoint, AllocError>
        ensures document { IfOk result (λ p. name_of p.place.document ≡ (target_in root.now).document) }
        ensures path { IfOk result (λ p. p.place.path ≡ (target_in root.now).path) }
        ensures road { IfOk result (λ p. p.schema_path.steps ≡ []) }
    {
        Ok(Waypoint {
            place: SchemaPlace::of_target(root)?,
            schema_path: SchemaPath::root(),
        })
    }

    /// Where a reference leads.
    ///
    /// # Errors
    ///
    /// Where memory was refused or a count of owners is full.
    pub fn of_target(
        alloc: Global,
        text: &str,
        target: &Resolved<'_>,
    ) -> Result<Waypoint, AllocError>
        requires { reads_as_path text.now ≡ true }
        ensures document { IfOk result (λ p. name_of p.place.document ≡ (target_in target.now).document) }
        ensures path { IfOk result (λ p. p.place.path ≡ (target_in target.now).path) }
        ensures road { IfOk result (λ p. p.schema_path.steps ≡ path_of_reference text.now) }
    {
        Ok(Waypoint {
            place: SchemaPlace::of_target(target)?,
            schema_path: SchemaPath::of_reference(alloc, text)?,
        })
    }

    /// That of a member. Place and schema path share its name.
    ///
    /// # Errors
    ///
    /// Where memory was refused or a count of owners is full.
    pub fn member(&self, alloc: Global, name: &str) -> Result<Waypoint, AllocError>
        ensures document { IfOk result (λ p. name_of p.place.document ≡ name_of self.now.place.document) }
        ensures path { IfOk result (λ p. p.place.path ≡ name_part name.now ∷ self.now.place.path) }
        ensures road { IfOk result (λ p. p.schema_path.steps ≡ name_part name.now ∷ self.now.schema_path.steps) }
    {
        let name = RcStr::from_str(alloc, name)?;
        Ok(Waypoint {
            place: self.place.named(alloc, name.clone()?)?,
            schema_path: self.schema_path.named(alloc, name)?,
        })
    }

    /// That of an item.
    ///
    /// # Errors
    ///
    /// Where memory was refused or a count of owners is full.
    pub fn item(&self, alloc: Global, index: usize) -> Result<Waypoint, AllocError>
        ensures document { IfOk result (λ p. name_of p.place.document ≡ name_of self.now.place.document) }
        ensures path { IfOk result (λ p. p.place.path ≡ index_part index ∷ self.now.place.path) }
        ensures road { IfOk result (λ p. p.schema_path.steps ≡ by_name (index_part index) ∷ self.now.schema_path.steps) }
    {
        Ok(Waypoint {
            place: self.place.item(alloc, index)?,
            schema_path: self.schema_path.item(alloc, index)?,
        })
    }

    /// The same, which shares the place and the schema path.
    ///
    /// # Errors
    ///
    /// Where a count of owners is full.
    pub fn shared(&self) -> Result<Waypoint, AllocError>
        ensures { IfOk result (λ p. AreOnePoint p self.now) }
    {
        Ok(Waypoint {
            place: self.place.shared()?,
            schema_path: self.schema_path.shared()?,
        })
    }

    /// Whether both are the same place by the same schema path.
    pub fn is(&self, other: &Waypoint) -> bool
        ensures { Decides result (AreOnePoint self.now other.now) }
    {
        self.schema_path.is(&other.schema_path) && self.place.is(&other.place)
    }
}
