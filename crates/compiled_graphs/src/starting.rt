//! Where walks begin.

ghost use Rattle.std.specs.Prelude.{◌≡◌, ◌∷◌, [], List, ℕ, Bool, true, length, map, string_bytes, IfOk};
ghost use Rattle.std.specs.List.{list_all};
ghost use Rattle.schema_definitions.specs.Sites.{root_site};
ghost use Rattle.document_laws.specs.TargetLaws.{are_apart, contents_rise};
ghost use Rattle.referencing.specs.Resolved.{base_of, documents_in, target_in};
ghost use Rattle.compiled_graphs.specs.Graphs.{IsGraph, IsVisited};
ghost use Rattle.compiled_graphs.specs.Starts.{sites_from, IsInside, Start, StartsOne};

use reached_sites::seen::Visits;
use reached_sites::visit::Visit;
use referencing::{Error, Resolved, Resolver};
use schema_patterns::matches::Matches;
use std::alloc::{AllocError, Global};

/// Visits of what some references lead to, and for each reference the position of its visit, or none where it leads nowhere.
#[derive(Drop)]
pub(crate) struct Started<'r> {
    pub(crate) visits: Visits<'r>,
    pub(crate) starts: Vec<Option<usize>>,
}

/// The visit of a root alone.
///
/// # Errors
///
/// Where memory was refused or a count of owners is full.
pub(crate) fn start_at<'r>(
    alloc: Global,
    root: &Resolved<'r>,
    matches: &'r Matches,
) -> Result<Visits<'r>, AllocError>
    ensures visited { IfOk result (λ s. IsVisited s.list.items 0 (root_site (target_in root.now))) }
    ensures one { IfOk result (λ s. length s.list.items ≡ 1) }
    ensures graph { IfOk result (λ s. (makes : List ℕ → Bool)
        → IsGraph (documents_in root.now.resolver) makes
        (root_site (target_in root.now) ∷ []) s.list.items [] [] 0) }
{
    let mut visits = Visits::new(alloc);
    visits.put(Visit::of_root(alloc, root, matches)?)?;
    Ok(visits)
}

// The resolver at the resource that the base leads to, which is the one in its scope.
fn inside<'r>(resolver: &Resolver<'r>) -> Result<Resolver<'r>, AllocError>
    ensures { IfOk result (IsInside (documents_in resolver.now) (base_of resolver.now)) }
{
    match resolver.lookup("") {
        Ok(root) => root.resolver().alone(),
        Err(Error::Memory) => Err(AllocError),
        Err(_) => resolver.alone(),
    }
}

// Puts the visit of what a reference leads to, read behind what a resolver has entered, behind others, unless it is one of them, and answers
// where it stands.
fn start_one<'r>(
    alloc: Global,
    resolver: &Resolver<'r>,
    outer: &Resolver<'r>,
    reference: &str,
    matches: &'r Matches,
    visits: &mut Visits<'r>,
) -> Result<Option<usize>, AllocError>
    requires { IsInside (documents_in resolver.now) (base_of resolver.now) outer.now }
    ensures { IfOk result (StartsOne (documents_in resolver.now)
        (base_of resolver.now) reference.now visits.old.list.items visits.new.list.items) }
{
    match resolver.lookup(reference) {
        Ok(found) => {
            let visit = Visit::of_root_behind(alloc, outer, &found, matches)?;
            Ok(Some(visits.put(visit)?))
        }
        Err(Error::Memory) => Err(AllocError),
        Err(_) => Ok(None),
    }
}

/// Looks references up, and visits what they lead to: each is read behind the resource that the base leads to.
///
/// # Errors
///
/// Where memory was refused or a count of owners is full.
pub(crate) fn start<'r>(
    alloc: Global,
    resolver: &Resolver<'r>,
    references: &[String],
    matches: &'r Matches,
) -> Result<Started<'r>, AllocError>
    requires apart { are_apart (documents_in resolver.now) ≡ true }
    requires rise { list_all contents_rise (documents_in resolver.now) ≡ true }
    ensures starts { IfOk result (λ s. Start (documents_in resolver.now)
        (base_of resolver.now) s.visits.list.items (map string_bytes references.now) s.starts.items) }
    ensures graph { IfOk result (λ s. (makes : List ℕ → Bool)
        → IsGraph (documents_in resolver.now) makes
        (sites_from (documents_in resolver.now) (base_of resolver.now)
        (map string_bytes references.now)) s.visits.list.items [] [] 0) }
{
    let outer = inside(resolver)?;
    let mut visits = Visits::new(alloc);
    let mut starts = Vec::new(alloc);
    for reference in references {
        let text = reference.as_str();
        let position = start_one(alloc, resolver, &outer, text, matches, &mut visits)?;
        starts.push(position)?;
    }
    Ok(Started { visits, starts })
}
