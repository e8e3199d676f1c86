//! The members of an object, looked for name by name.
ghost use Rattle.std.specs.Prelude.{◌≡◌, None, IfSome, option_map};
ghost use Rattle.serde_json.specs.Find.{get, get_member};
ghost use Rattle.serde_json.specs.View.{view};
ghost use Rattle.schema_engine.specs.Places.{value_at};
ghost use Rattle.compiled_keywords.specs.Walked.{IsInStep, left_of};

use crate::members::member_at;
use schema_engine::place::Place;
use serde_json::Value;
use std::collections::btree_map;

// How many members are passed for one name before it is looked up.
const MOST_PASSED: usize = 8;

// With no more names than these, each is looked up.
const FEW_NAMES: usize = 4;

// A walk of an object's members in the order of their names, in step with names that rise: which one it passed last, which one is
// next, and the rest.
#[derive(Drop)]
pub(crate) struct Walk<'i> {
    passed: Option<&'i str>,
    next: Option<(&'i String, &'i Value)>,
    rest: btree_map::Iter<'i, String, Value>,
}

// At the first member, where there is an object and so many names are worth a walk.
pub(crate) fn walk_for<'i>(names: usize, place: Place<'i>) -> Option<Walk<'i>>
    ensures { IfSome result (λ w. IsInStep w (value_at place.entry)) }
{
    if names <= FEW_NAMES {
        return None;
    }
    match place {
        Place::Value(value) => match value {
            Value::Object(members) => {
                let mut rest = members.iter();
                let next = rest.next();
                Some(Walk {
                    passed: None,
                    next,
                    rest,
                })
            }
            _ => None,
        },
        Place::Name(_) => None,
    }
}

// The member of a name, by a walk where there is one.
pub(crate) fn member_in<'i>(
    walk: &mut Option<Walk<'i>>,
    place: Place<'i>,
    name: &str,
) -> Option<&'i Value>
    requires { IfSome walk.old (λ w. IsInStep w (value_at place)) }
    ensures there { option_map (λ v. view v.now) result ≡ get name.now (value_at place.entry) }
    ensures step { IfSome walk.new (λ w. IsInStep w (value_at place.entry)) }
{
    match walk {
        Some(walk) => walk.find(place, name),
        None => member_at(place, name),
    }
}

impl<'i> Walk<'i> {
    // The member of a name that none of the members left has: it is looked up where the names did not rise.
    fn passed_by(&self, place: Place<'i>, name: &str) -> Option<&'i Value>
        requires step { IsInStep self.now (value_at place) }
        requires none { get_member name.now (left_of self.now) ≡ None }
        ensures { option_map (λ v. view v.now) result ≡ get name.now (value_at place.entry) }
    {
        match self.passed {
            Some(passed) => {
                if passed < name {
                    None
                } else {
                    member_at(place, name)
                }
            }
            None => None,
        }
    }

    // The member of a name.
    fn find(&mut self, place: Place<'i>, name: &str) -> Option<&'i Value>
        requires { IsInStep self.old (value_at place) }
        ensures there { option_map (λ v. view v.now) result ≡ get name.now (value_at place.entry) }
        ensures step { IsInStep self.new (value_at place.entry) }
    {
        for _step in 0..MOST_PASSED {
            let Some((other, member)) = self.next else {
                return self.passed_by(place, name);
            };
            let other = other.as_str();
            let is_found = name == other;
            if !is_found {
                if name < other {
                    return self.passed_by(place, name);
                }
            }
            self.passed = Some(other);
            self.next = self.rest.next();
            if is_found {
                return Some(member);
            }
        }
        member_at(place, name)
    }
}
