//! URIs resolved, and vocabularies found.

ghost use Rattle.std.specs.Prelude.{◌≡◌, IfOk, IfErr, OnOk, IsTrue, option_map};
ghost use Rattle.serde_json.specs.View.{view};
ghost use Rattle.uri_grammar.specs.Parts.{split};
ghost use Rattle.uri_grammar.specs.Grammar.{is_reference};
ghost use Rattle.uri_references.specs.Identity.{identity_against};
ghost use Rattle.schema_drafts.specs.Vocabularies as spec;
ghost use Rattle.schema_dialects.specs.Sets as sets;
ghost use Rattle.referencing.specs.Seen.{documents_of};
ghost use Rattle.referencing.specs.Resolved.{base_of, documents_in};
ghost use Rattle.referencing.specs.Uris.{RefusesReference};
ghost use Rattle.referencing.specs.Vocabularies.{meta_schema_of, required_from, vocabularies_for};

use crate::registry::Registry;
use crate::resolver::Resolver;
use document_sources::error::Error;
use schema_dialects::bases::named_meta_schema;
use schema_dialects::{VocabularySet, find_vocabularies};
use schema_drafts::draft::Draft;
use serde_json::Value;
use std::alloc::{AllocError, Global};
use uri_references::uri::{Uri, resolve_against};

// The vocabularies that a meta-schema requires, or all of the draft where there is none.
fn required_or_all(
    alloc: Global,
    draft: Draft,
    meta_schema: Option<&Value>,
) -> Result<VocabularySet, AllocError>
    ensures same { IfOk result (λ s. sets.AreSame (sets.vocabularies_of s)
        (required_from (option_map (λ v. view v.now) meta_schema.entry))) }
    ensures whole { IfOk result (λ s. required_from (option_map (λ v. view v.now) meta_schema.entry)
        ≡ spec.all_of_draft → sets.listed s ≡ sets.own draft) }
{
    match meta_schema {
        Some(contents) => find_vocabularies(alloc, draft, contents),
        None => Ok(VocabularySet::all_of(alloc, draft)),
    }
}

impl<'a> Registry<'a> {
    // The contents of the meta-schema that a schema names, where somebody bears its URI.
    fn meta_schema_of(&self, contents: &Value) -> Result<Option<&Value>, AllocError>
        ensures { IfOk result (λ m. option_map (λ v. view v.now) m
            ≡ meta_schema_of (documents_of self.now) (view contents.now)) }
    {
        match named_meta_schema(self.alloc, self.siblings, true, contents)? {
            Some(uri) => Ok(self.contents_of(uri.as_str())),
            None => Ok(None),
        }
    }

    /// The vocabularies in force in a schema of these contents: those that the meta-schema requires which its `$schema` names, where
    /// that is none of the drafts' own and some place of the documents bears its URI, and else all of the draft (Core 8.1).
    ///
    /// One search by the URI, and what `schema_dialects::find_vocabularies` costs.
    ///
    /// # Errors
    ///
    /// Where memory was refused.
    pub fn find_vocabularies(
        &self,
        draft: Draft,
        contents: &Value,
    ) -> Result<VocabularySet, AllocError>
        ensures same { IfOk result (λ s. sets.AreSame (sets.vocabularies_of s)
            (vocabularies_for (documents_of self.now) (view contents.now))) }
        ensures whole { IfOk result (λ s. vocabularies_for (documents_of self.now) (view contents.now)
            ≡ spec.all_of_draft → sets.listed s ≡ sets.own draft) }
    {
        required_or_all(self.alloc, draft, self.meta_schema_of(contents)?)
    }

    /// The URI of a reference's target against a base, as [`resolve_against`] gives it.
    ///
    /// # Errors
    ///
    /// Where the text is no URI reference, which is then named, or where memory was refused.
    pub fn resolve_uri(&self, base: &Uri, text: &str) -> Result<Uri, Error>
        ensures ok { IfOk result (λ u. u ≡ identity_against base.now text.now) }
        ensures accepted { OnOk result (IsTrue (is_reference (split text.now))) }
        ensures refused { IfErr result (RefusesReference text.now) }
    {
        let uri = resolve_against(self.alloc, base, text)?;
        Ok(uri)
    }
}

impl<'r> Resolver<'r> {
    /// The vocabularies in force in a schema of these contents, as [`Registry::find_vocabularies`] gives them.
    ///
    /// # Errors
    ///
    /// Where memory was refused.
    pub fn find_vocabularies(
        &self,
        draft: Draft,
        contents: &Value,
    ) -> Result<VocabularySet, AllocError>
        ensures same { IfOk result (λ s. sets.AreSame (sets.vocabularies_of s)
            (vocabularies_for (documents_in self.now) (view contents.now))) }
        ensures whole { IfOk result (λ s. vocabularies_for (documents_in self.now) (view contents.now)
            ≡ spec.all_of_draft → sets.listed s ≡ sets.own draft) }
    {
        self.registry.find_vocabularies(draft, contents)
    }

    /// The URI of a reference's target against the base, as [`resolve_against`] gives it.
    ///
    /// # Errors
    ///
    /// Where the text is no URI reference, which is then named, or where memory was refused.
    pub fn resolve_uri(&self, text: &str) -> Result<Uri, Error>
        ensures ok { IfOk result (λ u. u ≡ identity_against (base_of self.now) text.now) }
        ensures accepted { OnOk result (IsTrue (is_reference (split text.now))) }
        ensures refused { IfErr result (RefusesReference text.now) }
    {
        self.registry.resolve_uri(&self.base, text)
    }
}
