//! Lookups.

ghost use Rattle.std.specs.Prelude.{◌≡◌, ◌∷◌, [], ℕ, List, IfOk, IfErr, Ok, map};
ghost use Rattle.serde_json.specs.View.{view};
ghost use Rattle.schema_definitions.specs.Places.{standard};
ghost use Rattle.schema_definitions.specs.Bearers.{meta, uri_in};
ghost use Rattle.schema_definitions.specs.Lookup as spec;
ghost use Rattle.schema_definitions.specs.Scopes.{entered_scope};
ghost use Rattle.schema_dialects.specs.Dialects.{dialects_in};
ghost use Rattle.document_index.specs.Seen.{name_of};
ghost use Rattle.document_sources.specs.Causes.{RefusesLookup};
ghost use Rattle.referencing.specs.Found.{found_target};
ghost use Rattle.referencing.specs.Seen.{documents_of};
ghost use Rattle.referencing.specs.Resolved.{base_of, scope_of, documents_in, siblings_in, target_in};
ghost use Rattle.referencing.specs.Resolved.{entered_at, entered_by};

use crate::registry::Registry;
use crate::resolver::{Resolved, Resolver};
use crate::resolving::{Found, look_up};
use document_index::document::DocumentName;
use document_sources::error::Error;
use document_sources::named::invalid_uri;
use schema_dialects::bases::resolved;
use schema_dialects::{Dialect, MetaSchemas};
use schema_drafts::draft::Draft;
use schema_drafts::identifiers::identifier;
use schema_drafts::resource::ResourceRef;
use schema_steps::Path;
use serde_json::Value;
use shared_lists::List;
use std::alloc::{AllocError, Global};
use std::rc::Rc;
use uri_references::uri::Uri;

impl<'a> Registry<'a> {
    /// A resolver at a base URI, which is the one resource in its scope.
    ///
    /// # Errors
    ///
    /// Where memory was refused.
    pub fn resolver(&self, base_uri: Uri) -> Result<Resolver<'_>, AllocError>
        ensures documents { IfOk result (λ r. documents_in r ≡ documents_of self.now) }
        ensures siblings { IfOk result (λ r. siblings_in r ≡ self.now.siblings) }
        ensures base { IfOk result (λ r. base_of r ≡ base_uri) }
        ensures scope { IfOk result (λ r. scope_of r ≡ base_uri ∷ []) }
    {
        let base = Rc::new(self.alloc, base_uri)?;
        let scope = List::new().push_front(self.alloc, base.clone()?)?;
        Ok(Resolver {
            registry: self,
            base,
            scope,
        })
    }
}

// The scope with a resource entered, where it is not the present one.
fn enter(
    alloc: Global,
    scope: &List<Rc<Uri>>,
    present: &Rc<Uri>,
    base: &Rc<Uri>,
) -> Result<List<Rc<Uri>>, AllocError>
    ensures { IfOk result (λ s. map (λ u. u.value) s
        ≡ entered_scope base.now.value present.now.value (map (λ u. u.value) scope.now)) }
{
    if base.as_str() == present.as_str() {
        scope.clone()
    } else {
        scope.push_front(alloc, base.clone()?)
    }
}

impl<'r> Resolver<'r> {
    /// The base URI, shared.
    ///
    /// # Errors
    ///
    /// Where the count of its owners is full.
    pub fn base_uri(&self) -> Result<Rc<Uri>, AllocError>
        ensures { IfOk result (λ u. u.value ≡ base_of self.now) }
    {
        self.base.clone()
    }

    /// What is known of meta-schemas of one's own: all that the documents tell of them (Core 8.1.1, 8.1.2).
    pub fn meta_schemas(&self) -> &'r MetaSchemas
        ensures { (uri : List ℕ) → dialects_in result.now uri ≡ meta (documents_in self.now) uri }
    {
        &self.registry.known
    }

    /// The resources entered, the present one first, shared.
    ///
    /// # Errors
    ///
    /// Where the count of the first one's owners is full.
    pub fn dynamic_scope(&self) -> Result<List<Rc<Uri>>, AllocError>
        ensures { IfOk result (λ s. map (λ u. u.value) s ≡ scope_of self.now) }
    {
        self.scope.clone()
    }

    /// The resolver at another base, which is entered in the scope where it is not the present one.
    ///
    /// # Errors
    ///
    /// Where memory was refused or a count of owners is full.
    pub fn at(&self, base: Rc<Uri>) -> Result<Resolver<'r>, AllocError>
        ensures documents { IfOk result (λ r. documents_in r ≡ documents_in self.now) }
        ensures siblings { IfOk result (λ r. siblings_in r ≡ siblings_in self.now) }
        ensures base { IfOk result (λ r. base_of r ≡ base.value) }
        ensures scope { IfOk result (λ r. scope_of r ≡ entered_scope base.value (base_of self.now) (scope_of self.now)) }
    {
        Ok(Resolver {
            registry: self.registry,
            scope: enter(self.registry.alloc, &self.scope, &self.base, &base)?,
            base,
        })
    }

    /// The resolver at this base with no other resource in its scope, as a root has it.
    ///
    /// # Errors
    ///
    /// Where memory was refused or a count of owners is full.
    pub fn alone(&self) -> Result<Resolver<'r>, AllocError>
        ensures documents { IfOk result (λ r. documents_in r ≡ documents_in self.now) }
        ensures siblings { IfOk result (λ r. siblings_in r ≡ siblings_in self.now) }
        ensures base { IfOk result (λ r. base_of r ≡ base_of self.now) }
        ensures scope { IfOk result (λ r. scope_of r ≡ base_of self.now ∷ []) }
    {
        Ok(Resolver {
            registry: self.registry,
            base: self.base.clone()?,
            scope: List::new().push_front(self.registry.alloc, self.base.clone()?)?,
        })
    }

    /// A copy, which shares the base and the scope.
    ///
    /// # Errors
    ///
    /// Where a count of owners is full.
    pub fn share(&self) -> Result<Resolver<'r>, AllocError>
        ensures documents { IfOk result (λ r. documents_in r ≡ documents_in self.now) }
        ensures siblings { IfOk result (λ r. siblings_in r ≡ siblings_in self.now) }
        ensures base { IfOk result (λ r. base_of r ≡ base_of self.now) }
        ensures scope { IfOk result (λ r. scope_of r ≡ scope_of self.now) }
    {
        Ok(Resolver {
            registry: self.registry,
            base: self.base.clone()?,
            scope: self.scope.clone()?,
        })
    }

    fn at_uri(&self, uri: Uri) -> Result<Resolver<'r>, AllocError>
        ensures documents { IfOk result (λ r. documents_in r ≡ documents_in self.now) }
        ensures siblings { IfOk result (λ r. siblings_in r ≡ siblings_in self.now) }
        ensures base { IfOk result (λ r. base_of r ≡ uri) }
        ensures scope { IfOk result (λ r. scope_of r ≡ entered_scope uri (base_of self.now) (scope_of self.now)) }
    {
        self.at(Rc::new(self.registry.alloc, uri)?)
    }

    fn at_identifier(&self, id: &str) -> Result<Resolver<'r>, Error>
        ensures ok { IfOk result (λ r. entered_at (base_of self.now) (scope_of self.now) id.now
            ≡ Ok (base_of r, scope_of r)) }
        ensures documents { IfOk result (λ r. documents_in r ≡ documents_in self.now) }
        ensures siblings { IfOk result (λ r. siblings_in r ≡ siblings_in self.now) }
        ensures refused { IfErr result (RefusesLookup (entered_at (base_of self.now) (scope_of self.now) id.now)) }
    {
        let alloc = self.registry.alloc;
        match resolved(alloc, &self.base, id)? {
            Some(uri) => Ok(self.at_uri(uri)?),
            None => Err(invalid_uri(alloc, id)),
        }
    }

    // What was found, with the resolver there.
    pub(crate) fn arrived(&self, found: Found<'r>) -> Result<Resolved<'r>, AllocError>
        ensures target { IfOk result (λ r. target_in r ≡ found_target found.entry) }
        ensures scope { IfOk result (λ r. scope_of r.resolver
            ≡ entered_scope (base_of r.resolver) (base_of self.now) (scope_of self.now)) }
        ensures documents { IfOk result (λ r. documents_in r.resolver ≡ documents_in self.now) }
        ensures siblings { IfOk result (λ r. siblings_in r.resolver ≡ siblings_in self.now) }
    {
        let reached = found.reached;
        Ok(Resolved {
            contents: reached.contents,
            resolver: self.at(reached.base)?,
            dialect: reached.dialect,
            document: found.document,
            path: reached.path,
            is_place: reached.is_place,
        })
    }

    /// What a reference leads to from the base (Core 8.2.3.1): a plain reference, also where its fragment is a dynamic anchor.
    ///
    /// One search by the URI, and a look-up for each step of the place's path and for each part of a pointer. What is copied are URIs,
    /// and the names that a pointer leads through.
    ///
    /// # Errors
    ///
    /// Why the reference leads nowhere, with the texts that it names, or want of memory.
    pub fn lookup(&self, reference: &str) -> Result<Resolved<'r>, Error>
        ensures ok { IfOk result (λ r. spec.lookup (documents_in self.now) (base_of self.now) reference.now
            ≡ Ok (target_in r)) }
        ensures scope { IfOk result (λ r. scope_of r.resolver
            ≡ entered_scope (base_of r.resolver) (base_of self.now) (scope_of self.now)) }
        ensures documents { IfOk result (λ r. documents_in r.resolver ≡ documents_in self.now) }
        ensures siblings { IfOk result (λ r. siblings_in r.resolver ≡ siblings_in self.now) }
        ensures refused { IfErr result (RefusesLookup
            (spec.lookup (documents_in self.now) (base_of self.now) reference.now)) }
    {
        let found = look_up(self.registry, &self.base, reference)?;
        Ok(self.arrived(found)?)
    }

    /// The resolver inside a subschema: its identifier, if it has one, changes the base (Core 8.2.1). It counts beside `$ref` in Drafts 6
    /// and 7 where the registry reads what stands there.
    ///
    /// # Errors
    ///
    /// Where the identifier is no URI reference, which is then named, or want of memory.
    pub fn in_subresource(&self, subresource: ResourceRef<'_>) -> Result<Resolver<'r>, Error>
        ensures ok { IfOk result (λ r. entered_by (standard (siblings_in self.now) subresource.entry.draft)
            (view subresource.entry.contents.now) (base_of self.now) (scope_of self.now)
            ≡ Ok (base_of r, scope_of r)) }
        ensures documents { IfOk result (λ r. documents_in r ≡ documents_in self.now) }
        ensures siblings { IfOk result (λ r. siblings_in r ≡ siblings_in self.now) }
        ensures refused { IfErr result (RefusesLookup
            (entered_by (standard (siblings_in self.now) subresource.entry.draft)
            (view subresource.entry.contents.now) (base_of self.now) (scope_of self.now))) }
    {
        let siblings = self.registry.siblings;
        match identifier(siblings, subresource.draft(), subresource.contents()) {
            Some(id) => self.at_identifier(id),
            None => Ok(self.share()?),
        }
    }
}

impl<'r> Resolved<'r> {
    /// The value, lent by the document.
    pub fn contents(&self) -> &'r Value
        ensures { result ≡ self.now.contents }
    {
        self.contents
    }

    /// The resolver there.
    pub fn resolver(&self) -> &Resolver<'r>
        ensures { result.now ≡ self.now.resolver }
    {
        &self.resolver
    }

    /// The draft there.
    pub fn draft(&self) -> Draft
        ensures { result ≡ self.now.dialect.draft }
    {
        self.dialect.draft
    }

    /// The dialect there: the draft, and the vocabularies that the meta-schema requires.
    pub fn dialect(&self) -> Dialect
        ensures { result ≡ self.now.dialect }
    {
        self.dialect
    }

    /// The URI of the document that the value is in.
    pub fn document(&self) -> &Uri
        ensures { result.now ≡ uri_in (target_in self.now).document }
    {
        &self.document.uri
    }

    /// The name of that document, which tells it from others of one URI.
    pub fn document_name(&self) -> &DocumentName
        ensures { name_of result.now ≡ (target_in self.now).document }
    {
        &self.document
    }

    /// The path of the value in its document.
    pub fn path(&self) -> &Path
        ensures { result.now ≡ self.now.path }
    {
        &self.path
    }

    /// Whether a schema place of the document stands there.
    pub fn is_place(&self) -> bool
        ensures { result ≡ self.now.is_place }
    {
        self.is_place
    }

    /// The value, the resolver there and the draft.
    pub fn into_inner(self) -> (&'r Value, Resolver<'r>, Draft)
        ensures contents { result.0 ≡ self.entry.contents }
        ensures resolver { result.1 ≡ self.entry.resolver }
        ensures draft { result.2 ≡ self.entry.dialect.draft }
    {
        (self.contents, self.resolver, self.dialect.draft)
    }
}
