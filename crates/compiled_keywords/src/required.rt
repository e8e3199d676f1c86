//! The names of `required`, sought among an object's members.
ghost use Rattle.std.specs.Prelude.{◌≡◌, IfOk, true, map, string_bytes};
ghost use Rattle.serde_json.specs.View.{members_view};
ghost use Rattle.compiled_keywords.specs.Required.{ListTheSame, are_members};
ghost use Rattle.compiled_keywords.specs.Sorted.{names_rise};

use crate::names::SortedNames;
use serde_json::{Map, Value};
use std::alloc::{AllocError, Global};

/// The names of `required`, in the schema's order and in the order of their bytes.
#[derive(Drop)]
pub struct RequiredNames {
    /// The names, in the schema's order.
    pub listed: Vec<String>,
    rising: SortedNames,
    ghost same: { ListTheSame rising.list.items listed.items },
}

impl RequiredNames {
    /// These names. They are copied and sorted.
    ///
    /// # Errors
    ///
    /// Where memory was refused.
    pub fn of(alloc: Global, listed: Vec<String>) -> Result<RequiredNames, AllocError>
        ensures { IfOk result (λ names. names.listed ≡ listed) }
    {
        let rising = sorted(alloc, listed.as_slice())?;
        Ok(RequiredNames { listed, rising })
    }

    /// Whether each is a member's name. The members are walked once, and each is compared with one name.
    pub(crate) fn are_in(&self, members: &Map<String, Value>) -> bool
        ensures { result ≡ are_members self.now.listed.items (members_view members.now.entries) }
    {
        are_met(self.rising.list.as_slice(), members)
    }
}

// Copies of names in the order of their bytes, each once.
fn sorted(alloc: Global, names: &[String]) -> Result<SortedNames, AllocError>
    ensures { IfOk result (λ sorted. ListTheSame sorted.list.items names.now) }
{
    let mut list = names.to_vec(alloc)?;
    list.sort_unstable();
    list.dedup();
    Ok(SortedNames { list })
}

// Whether each of the names that rise is a member's. A name that no member has is behind none of those left, so the walk stops where more
// names are left than members.
#[inline(never)]
fn are_met(names: &[String], members: &Map<String, Value>) -> bool
    requires { names_rise (map string_bytes names.now) ≡ true }
    ensures { result ≡ are_members names.now (members_view members.now.entries) }
{
    if members.len() < names.len() {
        return false;
    }
    let mut left = names;
    let mut others = members.len() - names.len();
    for (name, _) in members.iter() {
        let Some((next, rest)) = left.split_first() else {
            return true;
        };
        if next.as_str() == name.as_str() {
            left = rest;
        } else if others == 0 {
            return false;
        } else {
            others -= 1;
        }
    }
    true
}
