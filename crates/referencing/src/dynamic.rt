//! References by the dynamic scope (Core 8.2.3.2; 2019-09, Core 8.2.4.2).

ghost use Rattle.std.specs.Prelude.{◌≡◌, ◌∷◌, ◌&&◌, ℕ, List, IfOk, IfErr, Ok, map, option_map, option_and_then, is_some};
ghost use Rattle.schema_definitions.specs.Words as words;
ghost use Rattle.schema_definitions.specs.Identifiers.{is_name, dynamic_anchors};
ghost use Rattle.schema_definitions.specs.Bearers as bearers;
ghost use Rattle.schema_definitions.specs.Scopes as spec;
ghost use Rattle.schema_definitions.specs.Scopes.{entered_scope};
ghost use Rattle.schema_definitions.specs.CompileKeys as keys;
ghost use Rattle.document_index.specs.Seen.{standing_of};
ghost use Rattle.document_sources.specs.Causes.{RefusesLookup};
ghost use Rattle.referencing.specs.Found.{found_target, redirect};
ghost use Rattle.referencing.specs.Resolved.{base_of, scope_of, documents_in, siblings_in, target_in};
ghost use Rattle.referencing.specs.Seen.{documents_of};

use crate::registry::Registry;
use crate::resolver::{Resolved, Resolver};
use crate::resolving::{Found, fragment_or_empty, has_slash, look_up, whole};
use document_index::standing::Standing;
use document_sources::error::Error;
use document_sources::named::{no_such_anchor, not_borne};
use schema_dialects::identifiers::dynamic_anchor;
use shared_lists::List;
use std::alloc::AllocError;
use std::rc::Rc;
use uri_grammar::components::split_fragment;
use uri_references::uri::Uri;

// The outermost resource of a scope with a dynamic anchor of the name.
pub(crate) fn outermost_bearer<'s>(
    registry: &Registry<'_>,
    name: &str,
    scope: &'s List<Rc<Uri>>,
) -> Option<&'s Rc<Uri>>
    ensures { option_map (λ u. u.now.value) result
        ≡ keys.outermost_bearer (documents_of registry.now) (map (λ u. u.value) scope.now) name.now }
{
    let mut outermost = None;
    let mut rest = scope.iter();
    while let Some(resource) = rest.next() {
        if registry.has_dynamic_anchor(resource.as_str(), name) {
            outermost = Some(resource);
        }
    }
    outermost
}

// The place of the outermost resource with a dynamic anchor of the name.
fn outermost_standing<'r>(
    registry: &'r Registry<'_>,
    name: &str,
    innermost: &Uri,
    scope: &List<Rc<Uri>>,
) -> Result<Option<Standing<'r>>, AllocError>
    ensures { IfOk result (λ s. option_map standing_of s
        ≡ option_and_then (λ u. bearers.dynamically_anchored (documents_of registry.now) u name.now)
        (words.last_that (λ u. is_some (bearers.dynamically_anchored (documents_of registry.now) u name.now))
        (innermost.now ∷ map (λ u. u.value) scope.now))) }
{
    match outermost_bearer(registry, name, scope) {
        Some(resource) => registry.dynamically_anchored(resource.as_str(), name),
        None => registry.dynamically_anchored(innermost.as_str(), name),
    }
}

fn outermost<'r>(
    registry: &'r Registry<'_>,
    name: &str,
    innermost: &Uri,
    scope: &List<Rc<Uri>>,
) -> Result<Found<'r>, Error>
    ensures ok { IfOk result (λ f. spec.outermost (documents_of registry.now) name.now
        (innermost.now ∷ map (λ u. u.value) scope.now) ≡ Ok (found_target f)) }
    ensures refused { IfErr result (RefusesLookup
        (spec.outermost (documents_of registry.now) name.now (innermost.now ∷ map (λ u. u.value) scope.now))) }
{
    match outermost_standing(registry, name, innermost, scope)? {
        Some(standing) => Ok(whole(standing)),
        None => Err(no_such_anchor(registry.alloc, name)),
    }
}

fn is_anchor_name(name: &str) -> bool
    ensures { result ≡ is_name name.now }
{
    !name.is_empty() && !has_slash(name)
}

// Whether a name is that of an anchor, and what was found has it as a dynamic one.
fn is_dynamic(found: &Found<'_>, name: &str) -> bool
    ensures { result ≡ (is_name name.now && words.has_text name.now
        (dynamic_anchors (found_target found.now).dialect (found_target found.now).contents)) }
{
    match dynamic_anchor(found.reached.dialect, found.reached.contents) {
        Some(anchor) => is_anchor_name(name) && anchor == name,
        None => false,
    }
}

// The end of the run of resources that say `$recursiveAnchor: true`, from the innermost outward.
fn end_of_run<'s>(
    registry: &Registry<'_>,
    present: &'s Rc<Uri>,
    scope: &'s List<Rc<Uri>>,
) -> &'s Rc<Uri>
    ensures { result.now.value ≡ spec.end_of_run (documents_of registry.now) present.now.value
        (map (λ u. u.value) scope.now) }
{
    let mut last = present;
    let mut rest = scope.iter();
    while let Some(resource) = rest.next() {
        if !registry.is_recursive(resource.as_str()) {
            return last;
        }
        last = resource;
    }
    last
}

impl<'r> Resolver<'r> {
    /// The resource that a recursive reference leads to: the end of the run of those that say `$recursiveAnchor: true`, or the base.
    ///
    /// It looks each resource of the run up.
    pub fn run_end(&self) -> &Rc<Uri>
        ensures { result.now.value ≡ keys.run_end (documents_in self.now) (base_of self.now) (scope_of self.now) }
    {
        if self.registry.is_recursive(self.base.as_str()) {
            end_of_run(self.registry, &self.base, &self.scope)
        } else {
            &self.base
        }
    }

    // What a dynamic reference leads to, by what it leads to as a plain one.
    fn redirected(&self, found: Found<'r>, name: &str) -> Result<Found<'r>, Error>
        ensures ok { IfOk result (λ f. redirect (documents_in self.now) (scope_of self.now) name.now
            (found_target found.entry) ≡ Ok (found_target f)) }
        ensures refused { IfErr result (RefusesLookup
            (redirect (documents_in self.now) (scope_of self.now) name.now (found_target found.entry))) }
    {
        if is_dynamic(&found, name) {
            outermost(self.registry, name, &found.reached.base, &self.scope)
        } else {
            Ok(found)
        }
    }

    /// What a `$dynamicRef` leads to from the base and the scope (Core 8.2.3.2): where the place found has the fragment as a dynamic anchor,
    /// the outermost resource of the scope with one of that name, the resource found innermost; else what the reference leads to.
    ///
    /// It costs what [`Self::lookup`] costs, two searches for each resource of the scope, and two and a path's look-ups for the one found.
    ///
    /// # Errors
    ///
    /// Why the reference leads nowhere, with the texts that it names, or want of memory.
    pub fn lookup_dynamic_ref(&self, reference: &str) -> Result<Resolved<'r>, Error>
        ensures ok { IfOk result (λ r. spec.dynamic_lookup (documents_in self.now) (base_of self.now)
            (scope_of self.now) reference.now ≡ Ok (target_in r)) }
        ensures scope { IfOk result (λ r. scope_of r.resolver
            ≡ entered_scope (base_of r.resolver) (base_of self.now) (scope_of self.now)) }
        ensures documents { IfOk result (λ r. documents_in r.resolver ≡ documents_in self.now) }
        ensures siblings { IfOk result (λ r. siblings_in r.resolver ≡ siblings_in self.now) }
        ensures refused { IfErr result (RefusesLookup
            (spec.dynamic_lookup (documents_in self.now) (base_of self.now) (scope_of self.now) reference.now)) }
    {
        let (_, fragment) = split_fragment(reference);
        let found = look_up(self.registry, &self.base, reference)?;
        let found = self.redirected(found, fragment_or_empty(fragment))?;
        Ok(self.arrived(found)?)
    }

    /// What a `$recursiveRef` leads to from the base and the scope (2019-09, Core 8.2.4.2): where the base says `$recursiveAnchor: true`,
    /// the end of the run of resources that say so, from the innermost outward; else the base.
    ///
    /// A search and a path's look-ups for each resource of the run, and for the one behind it.
    ///
    /// # Errors
    ///
    /// Where no schema place bears the base, which is then named, or want of memory.
    pub fn lookup_recursive_ref(&self) -> Result<Resolved<'r>, Error>
        ensures ok { IfOk result (λ r. spec.recursive_lookup (documents_in self.now) (base_of self.now)
            (scope_of self.now) ≡ Ok (target_in r)) }
        ensures scope { IfOk result (λ r. scope_of r.resolver
            ≡ entered_scope (base_of r.resolver) (base_of self.now) (scope_of self.now)) }
        ensures documents { IfOk result (λ r. documents_in r.resolver ≡ documents_in self.now) }
        ensures siblings { IfOk result (λ r. siblings_in r.resolver ≡ siblings_in self.now) }
        ensures refused { IfErr result (RefusesLookup
            (spec.recursive_lookup (documents_in self.now) (base_of self.now) (scope_of self.now))) }
    {
        let resource = self.run_end();
        match self.registry.bearer(resource.as_str())? {
            Some(bearer) => Ok(self.arrived(whole(bearer))?),
            None => Err(not_borne(self.registry.alloc, resource.as_str())),
        }
    }
}
