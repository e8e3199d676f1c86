//! Visits.

ghost use Rattle.std.specs.Prelude.{◌≡◌, ◌++◌, [], List, true, IfOk};
ghost use Rattle.std.specs.Bool.{Decides};
ghost use Rattle.serde_json.specs.View.{view};
ghost use Rattle.json_values.specs.Parts.{Part};
ghost use Rattle.schema_definitions.specs.Scopes.{entered_scope};
ghost use Rattle.document_index.specs.Seen.{name_of};
ghost use Rattle.referencing.specs.Resolved.{base_of, scope_of, documents_in, target_in};
ghost use Rattle.schema_definitions.specs.Sites as sites;
ghost use Rattle.schema_definitions.specs.CompileKeys.{scope_key};
ghost use Rattle.schema_reports.specs.Readable.{reads_as_path};
ghost use Rattle.schema_sites.specs.Seen.{documents_at};
ghost use Rattle.reading_laws.specs.Spelled.{spelled};
ghost use Rattle.referencing.specs.Keys.{key_of};

use crate::compile_key::CompileKey;
use crate::waypoint::Waypoint;
use referencing::{Resolved, Resolver, ScopeKey};
use schema_patterns::matches::Matches;
use schema_sites::site::{Site, at_root, at_target};
use serde_json::Value;
use std::alloc::{AllocError, Global};
use std::rc::Rc;

/// A schema that is to be checked, where it stands, and the key of its scope.
#[derive(Drop)]
pub struct Visit<'r> {
    pub point: Waypoint,
    pub site: Site<'r>,
    pub key: Rc<ScopeKey>,
    ghost keyed: { key_of key.value ≡ scope_key (documents_at site) (base_of site.resolver) (scope_of site.resolver) },
}

// Whether references in two schemas are resolved against one base.
fn is_one_base(one: &Site<'_>, other: &Site<'_>) -> Result<bool, AllocError>
    ensures { IfOk result (λ b. Decides b (base_of one.now.resolver ≡ base_of other.now.resolver)) }
{
    let base = one.resolver.base_uri()?;
    let other_base = other.resolver.base_uri()?;
    Ok(base.as_str() == other_base.as_str())
}

// The key of a site's scope.
fn key_of_scope(alloc: Global, site: &Site<'_>) -> Result<Rc<ScopeKey>, AllocError>
    ensures { IfOk result (λ k. key_of k.value
        ≡ scope_key (documents_at site.now) (base_of site.now.resolver) (scope_of site.now.resolver)) }
{
    Ok(Rc::new(alloc, site.resolver.scope_key()?)?)
}

impl<'r> Visit<'r> {
    ghost use Rattle.reached_sites.specs.Visits.{site_of, key_at, Met, Belongs};
    ghost use Rattle.reached_sites.specs.Keyed.{key_in};
    ghost use Rattle.reached_sites.specs.Roots.{root_behind};

    /// The visit of a root.
    ///
    /// # Errors
    ///
    /// Where memory was refused or a count of owners is full.
    pub fn of_root(
        alloc: Global,
        root: &Resolved<'r>,
        matches: &'r Matches,
    ) -> Result<Visit<'r>, AllocError>
        ensures met { IfOk result (λ v. Met v (sites.root_site (target_in root.now))) }
        ensures belongs { IfOk result (Belongs (documents_in root.now.resolver)) }
    {
        let site = at_root(root, matches)?;
        Ok(Visit {
            point: Waypoint::of_root(root)?,
            key: key_of_scope(alloc, &site)?,
            site,
        })
    }

    /// The visit of a root whose base is entered behind the resources of another resolver.
    ///
    /// # Errors
    ///
    /// Where memory was refused or a count of owners is full.
    pub fn of_root_behind(
        alloc: Global,
        outer: &Resolver<'r>,
        root: &Resolved<'r>,
        matches: &'r Matches,
    ) -> Result<Visit<'r>, AllocError>
        ensures met { IfOk result (λ v. Met v (root_behind (base_of outer.now) (scope_of outer.now) (target_in root.now))) }
        ensures belongs { IfOk result (Belongs (documents_in outer.now)) }
    {
        let site = Site {
            contents: root.contents(),
            dialect: root.dialect(),
            resolver: outer.at(root.resolver().base_uri()?)?,
            matches,
        };
        Ok(Visit {
            point: Waypoint::of_root(root)?,
            key: key_of_scope(alloc, &site)?,
            site,
        })
    }

    /// The visit of what a reference leads to.
    ///
    /// # Errors
    ///
    /// Where memory was refused or a count of owners is full.
    pub fn of_target(
        alloc: Global,
        text: &str,
        target: &Resolved<'r>,
        matches: &'r Matches,
    ) -> Result<Visit<'r>, AllocError>
        requires { reads_as_path text.now ≡ true }
        ensures met { IfOk result (λ v. (s : sites.Site)
            → scope_of target.now.resolver ≡ entered_scope (base_of target.now.resolver) s.base s.scope
            → Met v (sites.target_site s text.now (target_in target.now))) }
        ensures belongs { IfOk result (Belongs (documents_in target.now.resolver)) }
    {
        let site = at_target(target, matches)?;
        Ok(Visit {
            point: Waypoint::of_target(alloc, text, target)?,
            key: key_of_scope(alloc, &site)?,
            site,
        })
    }

    // The key of a subschema's scope: one without a base of its own has that of the schema around it.
    fn key_below(&self, alloc: Global, site: &Site<'_>) -> Result<Rc<ScopeKey>, AllocError>
        ensures { IfOk result (λ k. documents_at site.now ≡ documents_at self.now.site
            → scope_of site.now.resolver ≡ entered_scope (base_of site.now.resolver)
            (base_of self.now.site.resolver) (scope_of self.now.site.resolver)
            → key_of k.value ≡ scope_key (documents_at site.now) (base_of site.now.resolver)
            (scope_of site.now.resolver)) }
    {
        if is_one_base(&self.site, site)? {
            self.key.clone()
        } else {
            key_of_scope(alloc, site)
        }
    }

    /// The visit of a subschema.
    ///
    /// # Errors
    ///
    /// Where memory was refused or a count of owners is full.
    pub fn below(
        &self,
        alloc: Global,
        point: Waypoint,
        contents: &'r Value,
    ) -> Result<Visit<'r>, AllocError>
        ensures met { IfOk result (λ v. (added : List Part)
            → name_of self.now.point.place.document ≡ name_of point.place.document
            → added ++ self.now.point.place.path ≡ point.place.path
            → spelled added ++ self.now.point.schema_path.steps ≡ point.schema_path.steps
            → Met v (sites.below (documents_at self.now.site) (site_of self.now) added (view contents.now))) }
        ensures belongs { IfOk result (Belongs (documents_in self.now.site.resolver)) }
    {
        let site = self.site.below(alloc, contents)?;
        Ok(Visit {
            point,
            key: self.key_below(alloc, &site)?,
            site,
        })
    }

    /// What tells this visit from others: its place, base, dialect, scope key and schema path.
    ///
    /// # Errors
    ///
    /// Where a count of owners is full.
    pub fn compile_key(&self) -> Result<CompileKey, AllocError>
        ensures { IfOk result (λ k. key_in k ≡ key_at self.now) }
    {
        Ok(CompileKey {
            point: self.point.shared()?,
            base: self.site.resolver.base_uri()?,
            dialect: self.site.dialect,
            scope: self.key.clone()?,
        })
    }
}
