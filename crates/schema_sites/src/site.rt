//! Sites: schemas met on the way from a root.

ghost use Rattle.std.specs.Prelude.{◌≡◌, ◌∷◌, [], ℕ, List, IfOk};
ghost use Rattle.serde_json.specs.View.{view};
ghost use Rattle.json_values.specs.Parts.{Part};
ghost use Rattle.schema_definitions.specs.Scopes.{entered_scope};
ghost use Rattle.referencing.specs.Resolved.{base_of, scope_of, documents_in, target_in};
ghost use Rattle.schema_definitions.specs.Sites as sites;
ghost use Rattle.schema_sites.specs.Seen.{documents_at, Stands, counts_at, is_draft_4_at};

use referencing::{Resolved, Resolver};
use schema_dialects::Dialect;
use schema_dialects::bases::settle;
use schema_drafts::draft::Draft;
use schema_patterns::matches::Matches;
use serde_json::Value;
use std::alloc::{AllocError, Global};

/// A schema met on the way from a root, with what the references in it depend on, and the matches that were read of an instance.
#[derive(Drop)]
pub struct Site<'r> {
    pub contents: &'r Value,
    pub dialect: Dialect,
    pub resolver: Resolver<'r>,
    pub matches: &'r Matches,
}

/// The site of what a reference leads to. It shares the base and the scope.
///
/// # Errors
///
/// Where a count of owners is full.
pub fn at_target<'r>(resolved: &Resolved<'r>, matches: &'r Matches) -> Result<Site<'r>, AllocError>
    ensures contents { IfOk result (λ c. view c.contents.now ≡ (target_in resolved.now).contents) }
    ensures base { IfOk result (λ c. base_of c.resolver ≡ base_of resolved.now.resolver) }
    ensures matches { IfOk result (λ c. c.matches ≡ matches.entry) }
    ensures scope { IfOk result (λ c. scope_of c.resolver ≡ scope_of resolved.now.resolver) }
    ensures documents { IfOk result (λ c. documents_at c ≡ documents_in resolved.now.resolver) }
    ensures stands { IfOk result (λ c. (s : sites.Site) (reference : List ℕ)
        → Stands c (sites.target_site s reference (target_in resolved.now))) }
{
    Ok(Site {
        contents: resolved.contents(),
        dialect: resolved.dialect(),
        resolver: resolved.resolver().share()?,
        matches,
    })
}

/// The site of a root: its scope is its base alone.
///
/// # Errors
///
/// Where memory was refused or a count of owners is full.
pub fn at_root<'r>(resolved: &Resolved<'r>, matches: &'r Matches) -> Result<Site<'r>, AllocError>
    ensures contents { IfOk result (λ c. view c.contents.now ≡ (target_in resolved.now).contents) }
    ensures scope { IfOk result (λ c. scope_of c.resolver ≡ (target_in resolved.now).base ∷ []) }
    ensures matches { IfOk result (λ c. c.matches ≡ matches.entry) }
    ensures documents { IfOk result (λ c. documents_at c ≡ documents_in resolved.now.resolver) }
    ensures stands { IfOk result (λ c. Stands c (sites.root_site (target_in resolved.now))) }
{
    Ok(Site {
        contents: resolved.contents(),
        dialect: resolved.dialect(),
        resolver: resolved.resolver().alone()?,
        matches,
    })
}

impl<'r> Site<'r> {
    /// The site of a subschema: one that names a meta-schema of which no document tells has the base and the dialect around it.
    ///
    /// It shares the base where the subschema has no identifier of its own.
    ///
    /// # Errors
    ///
    /// Where memory was refused or a count of owners is full.
    pub fn below(&self, alloc: Global, contents: &'r Value) -> Result<Site<'r>, AllocError>
        ensures contents { IfOk result (λ c. c.contents ≡ contents.entry) }
        ensures matches { IfOk result (λ c. c.matches ≡ self.now.matches) }
        ensures documents { IfOk result (λ c. documents_at c ≡ documents_at self.now) }
        ensures scope { IfOk result (λ c. scope_of c.resolver
            ≡ entered_scope (base_of c.resolver) (base_of self.now.resolver) (scope_of self.now.resolver)) }
        ensures stands { IfOk result (λ c. (s : sites.Site) (added : List Part) → Stands self.now s
            → Stands c (sites.below (documents_at self.now) s added (view contents.now))) }
    {
        let base = self.resolver.base_uri()?;
        let known = self.resolver.meta_schemas();
        let settled = settle(alloc, known, &base, self.dialect, false, contents)?;
        Ok(Site {
            contents,
            dialect: settled.dialect,
            resolver: self.resolver.at(settled.base)?,
            matches: self.matches,
        })
    }

    /// Whether the schema is of Draft 4.
    pub const fn is_of_draft_4(&self) -> bool
        ensures { result ≡ is_draft_4_at self.now }
    {
        matches!(self.dialect.draft, Draft::Draft4)
    }

    /// Whether a keyword counts here, where `$ref` stands beside it or not (Core 8.1.2).
    ///
    /// It compares the name with those of the draft's keywords and of its vocabularies.
    pub fn counts(&self, has_reference: bool, name: &str) -> bool
        ensures { result ≡ counts_at self.now has_reference name.now }
    {
        self.dialect.counts(has_reference, name)
    }
}
