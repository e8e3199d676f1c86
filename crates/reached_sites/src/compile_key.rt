//! Compile keys: what tells one visit from another.

ghost use Rattle.std.specs.Prelude.{◌≡◌};
ghost use Rattle.std.specs.Bool.{Decides};
ghost use Rattle.referencing.specs.Keys.{key_of};
ghost use Rattle.reached_sites.specs.Keyed.{AreOne, key_fed, key_in, keys_equal, keys_equal_equiv};
ghost use Rattle.reached_sites.specs.Keyed.{keys_equal_per, keys_fed_alike};

use crate::waypoint::Waypoint;
use referencing::ScopeKey;
use schema_dialects::{Dialect, KnownVocabularies};
use std::hash::{Hash, Hasher};
use std::rc::Rc;
use uri_references::uri::Uri;

/// What tells one visit from another: its place, base, dialect, the key of its scope, and its schema path. It shares them with the visit.
#[derive(Drop)]
pub struct CompileKey {
    pub(crate) point: Waypoint,
    pub(crate) base: Rc<Uri>,
    pub(crate) dialect: Dialect,
    pub(crate) scope: Rc<ScopeKey>,
}

// Whether the same vocabularies are required.
fn are_same(one: Option<KnownVocabularies>, other: Option<KnownVocabularies>) -> bool
    ensures { Decides result (one ≡ other) }
{
    one == other
}

fn is_one_dialect(one: Dialect, other: Dialect) -> bool
    ensures { Decides result (one ≡ other) }
{
    one.draft == other.draft
        && one.siblings == other.siblings
        && are_same(one.required, other.required)
}

fn is_one_scope(one: &ScopeKey, other: &ScopeKey) -> bool
    ensures { Decides result (key_of one.now ≡ key_of other.now) }
{
    one == other
}

fn is_one_base(one: &Uri, other: &Uri) -> bool
    ensures { Decides result (one.now ≡ other.now) }
{
    one.as_str() == other.as_str()
}

impl CompileKey {
    // Whether both tell the same.
    fn is(&self, other: &CompileKey) -> bool
        ensures { Decides result (AreOne self.now other.now) }
    {
        if !self.point.is(&other.point) {
            return false;
        }
        if !is_one_scope(&*self.scope, &*other.scope) {
            return false;
        }
        if !is_one_dialect(self.dialect, other.dialect) {
            return false;
        }
        is_one_base(&*self.base, &*other.base)
    }
}

/// Keys are equal where each part is. It is linear in the paths and the scope key.
impl PartialEq for CompileKey {
    ghost eq = { keys_equal };

    ghost laws = { keys_equal_per };

    fn eq(&self, other: &CompileKey) -> bool {
        self.is(other)
    }
}

impl Eq for CompileKey {
    ghost laws = { keys_equal_equiv };
}

/// The dialect is left out: places that differ in it alone are few.
impl Hash for CompileKey {
    ghost hash_input = { λ key. key_fed (key_in key) };

    ghost respects_eq = { keys_fed_alike };

    fn hash<H: Hasher>(&self, state: &mut H) {
        self.point.place.document.hash(state);
        self.point.place.path.hash(state);
        self.base.hash(state);
        self.scope.hash(state);
        self.point.schema_path.steps.hash(state);
    }
}
