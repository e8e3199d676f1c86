//! Resolvers.

ghost use Rattle.std.specs.Prelude.{map};
ghost use Rattle.document_laws.specs.ScopeLaws.{IsPresent};

use crate::registry::Registry;
use document_index::document::DocumentName;
use schema_dialects::Dialect;
use schema_steps::Path;
use serde_json::Value;
use shared_lists::List;
use std::rc::Rc;
use uri_references::uri::Uri;

/// A base URI and the resources entered, the present one first, over the documents of a registry.
#[derive(Drop)]
pub struct Resolver<'r> {
    pub(crate) registry: &'r Registry<'r>,
    pub(crate) base: Rc<Uri>,
    pub(crate) scope: List<Rc<Uri>>,
    ghost present: { IsPresent base.value (map (λ u. u.value) scope) },
}

/// What a reference leads to: a value of a document, lent, with its dialect, the document's name, the path in it, and a resolver there.
#[derive(Drop)]
pub struct Resolved<'r> {
    pub(crate) contents: &'r Value,
    pub(crate) resolver: Resolver<'r>,
    pub(crate) dialect: Dialect,
    pub(crate) document: DocumentName,
    pub(crate) path: Path,
    pub(crate) is_place: bool,
}
