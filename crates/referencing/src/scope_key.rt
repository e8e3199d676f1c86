//! Scope keys: what of a scope dynamic and recursive references depend on.

ghost use Rattle.std.specs.Prelude.{◌≡◌, ℕ, List, IfOk, map, option_map};
ghost use Rattle.schema_definitions.specs.CompileKeys as spec;
ghost use Rattle.document_laws.specs.ScopeLaws.{IsPresent, Alike};
ghost use Rattle.referencing.specs.Keys.{key_of};
ghost use Rattle.referencing.specs.Resolved.{base_of, scope_of, documents_in};
ghost use Rattle.referencing.specs.Seen.{documents_of};

use crate::dynamic::outermost_bearer;
use crate::registry::Registry;
use crate::resolver::Resolver;
use shared_lists::List;
use std::alloc::AllocError;
use std::hash::{Hash, Hasher};
use std::rc::Rc;
use uri_references::uri::Uri;

/// What of a resolver's scope dynamic and recursive references depend on: for each name that is a dynamic anchor of some document the
/// outermost resource that bears it, and the one that a recursive reference leads to.
#[derive(Debug, Drop)]
pub struct ScopeKey {
    bearers: Vec<Option<Rc<Uri>>>,
    run: Rc<Uri>,
}

/// Keys are equal where they have the same bearer of each name, and the same end of a run.
impl PartialEq for ScopeKey {
    ghost use Rattle.std.specs.Bool.{Decides};
    ghost use Rattle.std.specs.Cmp.{on_per};
    ghost use Rattle.referencing.specs.Keys.{keys_eq, keys_eq_per};

    ghost eq = { λ a b. keys_eq (key_of a) (key_of b) };

    ghost laws = { on_per key_of keys_eq_per };

    fn eq(&self, other: &ScopeKey) -> bool
        ensures value { result ≡ keys_eq (key_of self.now) (key_of other.now) }
        ensures same { Decides result (key_of self.now ≡ key_of other.now) }
    {
        self.bearers == other.bearers && self.run == other.run
    }
}

impl Eq for ScopeKey {
    ghost use Rattle.std.specs.Cmp.{on_equiv};
    ghost use Rattle.referencing.specs.Keys.{keys_eq_equiv};

    ghost laws = { on_equiv key_of keys_eq_equiv };
}

impl Hash for ScopeKey {
    ghost use Rattle.referencing.specs.Keys.{key_fed, keys_fed_alike};

    ghost hash_input = { λ k. key_fed (key_of k) };

    ghost respects_eq = { λ a b h. keys_fed_alike (key_of a) (key_of b) h };

    fn hash<H: Hasher>(&self, state: &mut H) {
        self.bearers.hash(state);
        self.run.hash(state);
    }
}

fn shared(resource: Option<&Rc<Uri>>) -> Result<Option<Rc<Uri>>, AllocError>
    ensures { IfOk result (λ u. option_map (λ u. u.value) u ≡ option_map (λ u. u.now.value) resource.entry) }
{
    match resource {
        Some(resource) => Ok(Some(resource.clone()?)),
        None => Ok(None),
    }
}

// For each name of a dynamic anchor the outermost resource of a scope that bears it.
fn outermost_bearers(
    registry: &Registry<'_>,
    scope: &List<Rc<Uri>>,
) -> Result<Vec<Option<Rc<Uri>>>, AllocError>
    ensures { IfOk result (λ v. map (option_map (λ u. u.value)) v.items
        ≡ map (spec.outermost_bearer (documents_of registry.now) (map (λ u. u.value) scope.now))
        (spec.dynamic_names (documents_of registry.now))) }
{
    let mut bearers = Vec::new(registry.alloc);
    for name in registry.index.dynamic_names() {
        bearers.push(shared(outermost_bearer(registry, name.as_str(), scope))?)?;
    }
    Ok(bearers)
}

impl<'r> Resolver<'r> {
    /// What of the scope dynamic and recursive references depend on: from one base, resolvers of one registry with equal keys answer every
    /// such reference alike, and have equal keys again after one more entry.
    ///
    /// For each name that some document has as a dynamic anchor it goes over the scope once, with two searches for each resource, so where no
    /// document has one it reads nothing of the scope; and it costs what [`Self::run_end`] costs. Resources are shared, and no text is copied.
    ///
    /// # Errors
    ///
    /// Where memory was refused or a count of owners is full.
    pub fn scope_key(&self) -> Result<ScopeKey, AllocError>
        ensures key { IfOk result (λ k. key_of k
            ≡ spec.scope_key (documents_in self.now) (base_of self.now) (scope_of self.now)) }
        ensures alike { IfOk result (λ k. (scope : List (List ℕ)) → IsPresent (base_of self.now) scope
            → key_of k ≡ spec.scope_key (documents_in self.now) (base_of self.now) scope
            → Alike (documents_in self.now) (base_of self.now) (scope_of self.now) scope) }
    {
        Ok(ScopeKey {
            bearers: outermost_bearers(self.registry, &self.scope)?,
            run: self.run_end().clone()?,
        })
    }
}
