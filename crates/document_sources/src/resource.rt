//! What can be added as a document.

ghost use Rattle.std.specs.Prelude.{◌≡◌, Option, Some, None};
ghost use Rattle.serde_json.specs.Data.{Data};
ghost use Rattle.serde_json.specs.View.{view};
ghost use Rattle.schema_drafts.specs.declared.draft.Draft as drafts;
ghost use Rattle.document_sources.specs.Seen.{contents_view};

use crate::document::Contents;
use schema_drafts::draft::Draft;
use schema_drafts::resource::{Resource, ResourceRef};
use serde_json::Value;
use std::rc::Rc;

/// What can be added as a document: its contents, lent or given, and perhaps the draft by which they are read where their root names none.
pub trait IntoRegistryResource<'a> {
    ghost contents: { Self → Data };

    ghost draft: { Self → Option drafts.Draft };

    /// The contents and the draft. It copies nothing.
    fn into_registry_resource(self) -> (Contents<'a>, Option<Draft>)
        ensures contents { contents_view result.0 ≡ contents self }
        ensures draft { result.1 ≡ draft self };
}

impl<'a> IntoRegistryResource<'a> for Value {
    ghost contents = { λ value. view value };

    ghost draft = { λ value. None };

    fn into_registry_resource(self) -> (Contents<'a>, Option<Draft>) {
        (Contents::Owned(self), None)
    }
}

impl<'a> IntoRegistryResource<'a> for &'a Value {
    ghost contents = { λ value. view value.now };

    ghost draft = { λ value. None };

    fn into_registry_resource(self) -> (Contents<'a>, Option<Draft>) {
        (Contents::Lent(self), None)
    }
}

impl<'a> IntoRegistryResource<'a> for Rc<Value> {
    ghost contents = { λ value. view value.value };

    ghost draft = { λ value. None };

    fn into_registry_resource(self) -> (Contents<'a>, Option<Draft>) {
        (Contents::Shared(self), None)
    }
}

impl<'a> IntoRegistryResource<'a> for Resource {
    ghost contents = { λ resource. view resource.contents };

    ghost draft = { λ resource. Some resource.draft };

    fn into_registry_resource(self) -> (Contents<'a>, Option<Draft>) {
        let draft = self.draft();
        (Contents::Owned(self.into_contents()), Some(draft))
    }
}

impl<'a> IntoRegistryResource<'a> for &'a Resource {
    ghost contents = { λ resource. view resource.now.contents };

    ghost draft = { λ resource. Some resource.now.draft };

    fn into_registry_resource(self) -> (Contents<'a>, Option<Draft>) {
        (Contents::Lent(self.contents()), Some(self.draft()))
    }
}

impl<'a> IntoRegistryResource<'a> for ResourceRef<'a> {
    ghost contents = { λ resource. view resource.contents.now };

    ghost draft = { λ resource. Some resource.draft };

    fn into_registry_resource(self) -> (Contents<'a>, Option<Draft>) {
        (Contents::Lent(self.contents()), Some(self.draft()))
    }
}
