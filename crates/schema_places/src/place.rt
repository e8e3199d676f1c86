//! One schema place.

ghost use Rattle.std.specs.Prelude.{◌≡◌, true};
ghost use Rattle.serde_json.specs.View.{view};
ghost use Rattle.schema_places.specs.Plain.{IsPlain};

pub use crate::entering::{enter, is_schema, root};
use schema_dialects::Dialect;
use schema_steps::Path;
use serde_json::Value;
use std::alloc::AllocError;
use std::rc::Rc;
use uri_references::uri::Uri;

/// A place in a document where a schema stands.
#[derive(Drop)]
pub struct Place<'d> {
    /// The path from the document's root.
    pub path: Path,
    /// The schema itself.
    pub contents: &'d Value,
    /// The URI against which references in the schema are resolved.
    pub base: Rc<Uri>,
    /// The dialect by which the schema is read.
    pub dialect: Dialect,
    /// The meta-schema that the schema names, where it is none of the drafts' own and is not known. Such a schema has no identifier, and no places
    /// below it.
    pub awaits: Option<Uri>,
    /// Whether it was seen that no member of the schema begins with `$` or is named `id`. Such a schema has no identifier and no anchor, names
    /// no meta-schema and refers to nothing.
    pub is_plain: bool,
    pub ghost plain: { is_plain ≡ true → IsPlain (view contents.now) },
}

/// A clone shares the path and the base. The error comes where one of their counts of owners is full, or where there is no memory for
/// the text of what is awaited.
impl<'d> Clone for Place<'d> {
    ghost use Rattle.std.specs.Prelude.{◌≡◌};
    ghost use Rattle.schema_places.specs.Seen.{place_of};

    ghost is_clone = { λ place copy. place_of copy ≡ place_of place };

    fn clone(&self) -> Result<Place<'d>, AllocError> {
        Ok(Place {
            path: self.path.clone()?,
            contents: self.contents,
            base: self.base.clone()?,
            dialect: self.dialect,
            awaits: self.awaits.clone()?,
            is_plain: self.is_plain,
        })
    }
}
