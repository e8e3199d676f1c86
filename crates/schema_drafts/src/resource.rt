//! Schemas with their drafts.

ghost use Rattle.std.specs.Prelude.{◌≡◌, false, codes, option_map, option_and_then};
ghost use Rattle.serde_json.specs.Find.{get, as_str};
ghost use Rattle.serde_json.specs.View.{view};
ghost use Rattle.schema_drafts.specs.Drafts as drafts;
ghost use Rattle.schema_drafts.specs.Vocabularies.{standard};
ghost use Rattle.schema_drafts.specs.Identifiers as identifiers;

use crate::draft::Draft;
use crate::identifiers::identifier;
use serde_json::Value;

/// A document, or a part of one, with its draft. It owns its contents.
#[derive(Drop)]
pub struct Resource {
    contents: Value,
    draft: Draft,
}

impl Resource {
    /// Contents with a draft, whatever `$schema` they have.
    pub fn new(contents: Value, draft: Draft) -> Resource
        ensures contents { result.contents ≡ contents }
        ensures draft { result.draft ≡ draft }
    {
        Resource { contents, draft }
    }

    /// Contents with the draft that their `$schema` names: 2020-12 where they have none, and `Unknown` where it is none of the drafts'.
    pub fn from_contents(contents: Value) -> Resource
        ensures contents { result.contents ≡ contents }
        ensures draft { result.draft ≡ drafts.detected drafts.newest (option_and_then as_str (get (codes "$schema") (view contents))) }
    {
        let draft = Draft::default().detect(&contents);
        Resource { contents, draft }
    }

    pub fn contents(&self) -> &Value
        ensures { result.now ≡ self.now.contents }
    {
        &self.contents
    }

    /// The contents, given up.
    pub fn into_contents(self) -> Value
        ensures { result ≡ self.contents }
    {
        self.contents
    }

    pub fn draft(&self) -> Draft
        ensures { result ≡ self.now.draft }
    {
        self.draft
    }

    /// The contents lent, with the draft.
    pub fn as_ref(&self) -> ResourceRef<'_>
        ensures contents { result.contents.now ≡ self.now.contents }
        ensures draft { result.draft ≡ self.now.draft }
    {
        ResourceRef::new(&self.contents, self.draft)
    }

    /// The identifier, without its fragment. A fragment alone is none.
    pub fn id(&self) -> Option<&str>
        ensures { option_map (λ t. t.now) result ≡ identifiers.identifier (standard false self.now.draft) (view self.now.contents) }
    {
        identifier(false, self.draft, &self.contents)
    }
}

/// A document, or a part of one, with its draft. It lends its contents.
#[derive(Clone, Copy)]
pub struct ResourceRef<'a> {
    contents: &'a Value,
    draft: Draft,
}

impl<'a> ResourceRef<'a> {
    /// Contents with a draft, whatever `$schema` they have.
    pub fn new(contents: &'a Value, draft: Draft) -> ResourceRef<'a>
        ensures contents { result.contents.now ≡ contents.now }
        ensures draft { result.draft ≡ draft }
    {
        ResourceRef { contents, draft }
    }

    /// Contents with the draft that their `$schema` names: 2020-12 where they have none, and `Unknown` where it is none of the drafts'.
    pub fn from_contents(contents: &'a Value) -> ResourceRef<'a>
        ensures contents { result.contents.now ≡ contents.now }
        ensures draft { result.draft ≡ drafts.detected drafts.newest (option_and_then as_str (get (codes "$schema") (view contents.now))) }
    {
        ResourceRef {
            contents,
            draft: Draft::default().detect(contents),
        }
    }

    pub fn contents(&self) -> &'a Value
        ensures { result ≡ self.now.contents }
    {
        self.contents
    }

    pub fn draft(&self) -> Draft
        ensures { result ≡ self.now.draft }
    {
        self.draft
    }

    /// The identifier, without its fragment. A fragment alone is none.
    pub fn id(&self) -> Option<&'a str>
        ensures { option_map (λ t. t.now) result ≡ identifiers.identifier (standard false self.now.draft) (view self.now.contents.now) }
    {
        identifier(false, self.draft, self.contents)
    }
}

impl Draft {
    /// Contents with the draft that their `$schema` names, and with this one where they have none.
    pub fn create_resource(self, contents: Value) -> Resource
        ensures contents { result.contents ≡ contents }
        ensures draft { result.draft ≡ drafts.detected self (option_and_then as_str (get (codes "$schema") (view contents))) }
    {
        let draft = self.detect(&contents);
        Resource { contents, draft }
    }

    /// Contents with the draft that their `$schema` names, and with this one where they have none.
    pub fn create_resource_ref(self, contents: &Value) -> ResourceRef<'_>
        ensures contents { result.contents.now ≡ contents.now }
        ensures draft { result.draft ≡ drafts.detected self (option_and_then as_str (get (codes "$schema") (view contents.now))) }
    {
        ResourceRef {
            contents,
            draft: self.detect(contents),
        }
    }
}
