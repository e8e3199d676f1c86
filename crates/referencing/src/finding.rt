//! Who bears a URI or an anchor.

ghost use Rattle.std.specs.Prelude.{◌≡◌, IfOk, option_map, option_and_then, is_some, false, codes};
ghost use Rattle.serde_json.specs.View.{view};
ghost use Rattle.serde_json.specs.Find.{get, as_bool};
ghost use Rattle.schema_definitions.specs.Words as words;
ghost use Rattle.schema_definitions.specs.Bearers as bearers;
ghost use Rattle.schema_definitions.specs.Scopes as scopes;
ghost use Rattle.document_index.specs.Seen.{document_of, standing_of};
ghost use Rattle.document_index.specs.Indexes.{bearer_of};
ghost use Rattle.referencing.specs.Kept.{kept_standing};
ghost use Rattle.referencing.specs.Seen.{documents_of};

use crate::registry::Registry;
use document_index::answers;
use document_index::document::Document;
use document_index::index::Bearer;
use document_index::standing::Standing;
use schema_places::place::Place;
use serde_json::Value;
use std::alloc::{AllocError, Global};

fn standing_at<'r>(
    document: &'r Document<'_>,
    bearer: &Bearer,
) -> Result<Option<Standing<'r>>, AllocError>
    ensures { IfOk result (λ s. option_map standing_of s
        ≡ kept_standing (document_of document.now) (bearer_of bearer.now)) }
{
    let Some(contents) = bearer.path.find_in(document.contents.value()) else {
        return Ok(None);
    };
    Ok(Some(Standing {
        document: bearer.document,
        name: document.name.clone()?,
        place: Place {
            path: bearer.path.clone()?,
            contents,
            base: bearer.base.clone()?,
            dialect: bearer.dialect,
            awaits: None,
            is_plain: false,
        },
    }))
}

fn says_recursive(contents: &Value) -> bool
    ensures { result ≡ words.or false (option_and_then as_bool (get (codes "$recursiveAnchor") (view contents.now))) }
{
    match contents.get("$recursiveAnchor") {
        Some(value) => value.as_bool() == Some(true),
        None => false,
    }
}

impl<'a> Registry<'a> {
    /// The allocator of what is made from the registry.
    pub fn allocator(&self) -> Global
        ensures { result ≡ self.now.alloc }
    {
        self.alloc
    }

    /// The last schema place that bears a URI.
    ///
    /// One search by the URI, and a look-up for each step of the place's path. It copies nothing.
    ///
    /// # Errors
    ///
    /// Where a count of owners is full.
    pub fn bearer(&self, uri: &str) -> Result<Option<Standing<'_>>, AllocError>
        ensures { IfOk result (λ s. option_map standing_of s ≡ bearers.bearer (documents_of self.now) uri.now) }
    {
        match answers::bearer(&self.documents, &self.index, uri) {
            Some((document, bearer)) => standing_at(document, bearer),
            None => Ok(None),
        }
    }

    /// The last schema place that bears an anchor under a base.
    ///
    /// Two searches, and a look-up for each step of the place's path. It copies nothing.
    ///
    /// # Errors
    ///
    /// Where a count of owners is full.
    pub fn anchored(&self, base: &str, name: &str) -> Result<Option<Standing<'_>>, AllocError>
        ensures { IfOk result (λ s. option_map standing_of s ≡ bearers.anchored (documents_of self.now) base.now name.now) }
    {
        match answers::anchored(&self.documents, &self.index, base, name) {
            Some((document, bearer)) => standing_at(document, bearer),
            None => Ok(None),
        }
    }

    /// The last schema place with a dynamic anchor under a base.
    ///
    /// Two searches, and a look-up for each step of the place's path. It copies nothing.
    ///
    /// # Errors
    ///
    /// Where a count of owners is full.
    pub fn dynamically_anchored(
        &self,
        base: &str,
        name: &str,
    ) -> Result<Option<Standing<'_>>, AllocError>
        ensures { IfOk result (λ s. option_map standing_of s
            ≡ bearers.dynamically_anchored (documents_of self.now) base.now name.now) }
    {
        match answers::dynamically_anchored(&self.documents, &self.index, base, name) {
            Some((document, bearer)) => standing_at(document, bearer),
            None => Ok(None),
        }
    }

    /// Whether a schema place under a base has a dynamic anchor of the name. Two searches.
    pub fn has_dynamic_anchor(&self, base: &str, name: &str) -> bool
        ensures { result ≡ is_some (bearers.dynamically_anchored (documents_of self.now) base.now name.now) }
    {
        self.index.dynamically_anchored(base, name).is_some()
    }

    // What the last schema place that bears a URI holds.
    pub(crate) fn contents_of(&self, uri: &str) -> Option<&Value>
        ensures { option_map (λ v. view v.now) result
            ≡ option_map (λ (s : bearers.Standing). s.place.contents)
            (bearers.bearer (documents_of self.now) uri.now) }
    {
        let (document, bearer) = answers::bearer(&self.documents, &self.index, uri)?;
        bearer.path.find_in(document.contents.value())
    }

    /// Whether the resource that a URI names says `$recursiveAnchor: true` (2019-09, Core 8.2.4.2).
    ///
    /// One search by the URI, and a look-up for each step of the place's path.
    pub fn is_recursive(&self, uri: &str) -> bool
        ensures { result ≡ scopes.recurs (documents_of self.now) uri.now }
    {
        match self.contents_of(uri) {
            Some(contents) => says_recursive(contents),
            None => false,
        }
    }

    /// Whether a schema place bears a URI. One search by the URI.
    pub fn contains_resource(&self, uri: &str) -> bool
        ensures { result ≡ is_some (bearers.bearer (documents_of self.now) uri.now) }
    {
        answers::bearer(&self.documents, &self.index, uri).is_some()
    }
}
