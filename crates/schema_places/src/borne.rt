//! What a schema place bears, names and refers to. A plain one is passed over.

ghost use Rattle.std.specs.Prelude.{◌≡◌, IfOk, codes, option_map};
ghost use Rattle.serde_json.specs.View.{view};
ghost use Rattle.schema_definitions.specs.Bearers.{is_root};
ghost use Rattle.schema_definitions.specs.Words.{listed, text_at};
ghost use Rattle.schema_definitions.specs.Identifiers as identifiers;
ghost use Rattle.schema_definitions.specs.Places as places;
ghost use Rattle.schema_dialects.specs.Dialects.{dialect_of};

use crate::place::Place;
use schema_dialects::{bases, identifiers};
use std::alloc::{AllocError, Global};
use uri_references::uri::Uri;

impl<'d> Place<'d> {
    /// Whether a `$ref` hides what stands beside it.
    pub fn is_hidden(&self) -> bool
        ensures { result
            ≡ identifiers.is_hidden (dialect_of self.now.dialect) (view self.now.contents.now) }
    {
        !self.is_plain && identifiers::is_hidden(self.dialect, self.contents)
    }

    /// The text of the identifier's keyword, where it counts.
    pub fn identifier_text(&self) -> Option<&'d str>
        ensures { option_map (λ t. t.now) result
            ≡ identifiers.identifier_text (dialect_of self.now.dialect) (view self.now.contents.now) }
    {
        if self.is_plain {
            return None;
        }
        identifiers::identifier_text(self.dialect, self.contents)
    }

    /// The identifier, without its fragment: a reference that gives the base URI. A fragment alone is none.
    pub fn identifier(&self) -> Option<&'d str>
        ensures { option_map (λ t. t.now) result
            ≡ identifiers.identifier (dialect_of self.now.dialect) (view self.now.contents.now) }
    {
        if self.is_plain {
            return None;
        }
        identifiers::identifier(self.dialect, self.contents)
    }

    /// The anchor that the schema bears by `$anchor`, or by its identifier before 2019-09.
    pub fn anchor(&self) -> Option<&'d str>
        ensures { listed (option_map (λ t. t.now) result)
            ≡ identifiers.anchors_by self.now.dialect.draft (dialect_of self.now.dialect)
            (view self.now.contents.now) }
    {
        if self.is_plain {
            return None;
        }
        identifiers::anchor(self.dialect, self.contents)
    }

    /// The anchor that the schema bears by `$dynamicAnchor`.
    pub fn dynamic_anchor(&self) -> Option<&'d str>
        ensures { listed (option_map (λ t. t.now) result)
            ≡ identifiers.dynamic_anchors (dialect_of self.now.dialect) (view self.now.contents.now) }
    {
        if self.is_plain {
            return None;
        }
        identifiers::dynamic_anchor(self.dialect, self.contents)
    }

    /// The `$schema` that counts: a root's, or one beside an identifier (Core 8.1.1).
    pub fn schema_in_force(&self) -> Option<&'d str>
        ensures { option_map (λ t. t.now) result
            ≡ places.schema_in_force self.now.dialect.siblings (is_root self.now.path)
            (view self.now.contents.now) }
    {
        if self.is_plain {
            return None;
        }
        identifiers::schema_in_force(self.dialect.siblings, self.path.is_root(), self.contents)
    }

    /// The URI of the meta-schema that the schema names, where its `$schema` counts and names none of the drafts' own.
    ///
    /// It takes time in the length of that text, and one text.
    ///
    /// # Errors
    ///
    /// Where memory was refused.
    pub fn named_meta_schema(&self, alloc: Global) -> Result<Option<Uri>, AllocError>
        ensures { IfOk result (λ u.
            u ≡ places.named_meta_schema self.now.dialect.siblings (is_root self.now.path)
            (view self.now.contents.now)) }
    {
        if self.is_plain {
            return Ok(None);
        }
        bases::named_meta_schema(
            alloc,
            self.dialect.siblings,
            self.path.is_root(),
            self.contents,
        )
    }

    /// The text of the schema's `$ref`, by whatever dialect. One that is no text is as if absent.
    pub fn reference(&self) -> Option<&'d str>
        ensures { option_map (λ t. t.now) result ≡ text_at (codes "$ref") (view self.now.contents.now) }
    {
        if self.is_plain {
            return None;
        }
        identifiers::text_at(self.contents, "$ref")
    }
}
