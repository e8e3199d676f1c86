//! All that is wrong at what is reached from a root.

ghost use Rattle.std.specs.Prelude.{◌≡◌, ◌<◌, ◌++◌, [], ◌∷◌, ℕ, None, map, length, IfOk, IfErr, OnOk};
ghost use Rattle.std.specs.List.{All};
ghost use Rattle.serde_json.specs.Find.{as_object};
ghost use Rattle.serde_json.specs.View.{view, members_view};
ghost use Rattle.schema_definitions.specs.Rows as rows;
ghost use Rattle.schema_definitions.specs.Sites.{root_site};
ghost use Rattle.referencing.specs.Resolved.{documents_in, target_in};
ghost use Rattle.reading_laws.specs.Keys.{AreWithin};
ghost use Rattle.reached_sites.specs.Members.{context_in};
ghost use Rattle.reached_sites.specs.Patterns.{IsFilled};
ghost use Rattle.reached_sites.specs.Roots.{IsPlaced};
ghost use Rattle.reached_sites.specs.Visits.{site_of};
ghost use Rattle.compiled_graphs.specs.Filled.{listed};
ghost use Rattle.compiled_graphs.specs.Read.{StaysFilled};
ghost use Rattle.compiled_graphs.specs.Told.{apart_at, AreCausesOf, RefusesTelling, TellsEach, TellsVisits};

use crate::reading::{Found, Member, misnamed, push_member, read_other};
use crate::starting::start_at;
use crate::walk::{AtCause, Walk};
use reached_sites::cause::BuildCause;
use reached_sites::seen::Visits;
use reached_sites::visit::Visit;
use referencing::Resolved;
use schema_patterns::matches::Matches;
use schema_patterns::{PatternMaker, PatternTable};
use serde_json::{Map, Value};
use std::alloc::{AllocError, Global};

// Puts a cause behind others, if there is one.
fn push_some(causes: &mut Vec<BuildCause>, cause: Option<BuildCause>) -> Result<(), AllocError>
    ensures { OnOk result (causes.new.items ≡ causes.old.items ++ listed cause) }
{
    match cause {
        Some(cause) => Ok(causes.push(cause)?),
        None => Ok(()),
    }
}

fn nothing_found<'r>(alloc: Global) -> Found<'r> {
    Found {
        askings: Vec::new(alloc),
        visits: Vec::new(alloc),
    }
}

// Puts the first cause of each member behind others.
fn push_of_members<'r, P: PatternMaker>(
    alloc: Global,
    visit: &Visit<'r>,
    members: &'r Map<String, Value>,
    maker: &P,
    table: &mut PatternTable<P::Matcher>,
    causes: &mut Vec<BuildCause>,
) -> Result<(), AllocError>
    ensures filled { OnOk result (StaysFilled P.Matcher.finds (P.patterns maker.now) table.old table.new) }
    ensures tells { OnOk result (IsFilled P.Matcher.finds (P.patterns maker.now).finished
        (P.patterns maker.now).makes table.old
        → TellsEach (map (λ r. r.causes) (rows.rows_of
        (context_in (documents_in visit.now.site.resolver) (P.patterns maker.now).makes (site_of visit.now)
        (members_view members.now.entries)) (members_view members.now.entries))) causes.old.items causes.new.items) }
{
    let mut found = nothing_found(alloc);
    for (name, value) in members.iter() {
        let name = name.as_str();
        let member = Member {
            members,
            name,
            value,
        };
        let wrong = push_member(alloc, visit, member, maker, &mut found, table)?;
        push_some(causes, wrong)?;
    }
    Ok(())
}

// Puts the cause of what is no object behind others, if it has one.
fn push_of_other(
    alloc: Global,
    visit: &Visit<'_>,
    causes: &mut Vec<BuildCause>,
) -> Result<(), AllocError>
    requires { as_object (view visit.now.site.contents.now) ≡ None }
    ensures { OnOk result ((makes : _) → TellsEach
        (map (λ r. r.causes) (rows.rows_at (documents_in visit.now.site.resolver) makes
        (site_of visit.now))) causes.old.items causes.new.items) }
{
    let mut found = nothing_found(alloc);
    let cause = read_other(alloc, visit, &mut found)?;
    push_some(causes, cause)
}

// Puts what is wrong at a schema behind others: the first cause of its identifier, and of each member.
fn push_causes<'r, P: PatternMaker>(
    alloc: Global,
    visit: &Visit<'r>,
    maker: &P,
    table: &mut PatternTable<P::Matcher>,
    causes: &mut Vec<BuildCause>,
) -> Result<(), AllocError>
    ensures filled { OnOk result (StaysFilled P.Matcher.finds (P.patterns maker.now) table.old table.new) }
    ensures tells { OnOk result (IsFilled P.Matcher.finds (P.patterns maker.now).finished
        (P.patterns maker.now).makes table.old
        → TellsEach (apart_at (P.patterns maker.now).makes visit.now) causes.old.items causes.new.items) }
{
    let named = misnamed(alloc, visit)?;
    push_some(causes, named)?;
    match visit.site.contents.as_object() {
        Some(members) => push_of_members(alloc, visit, members, maker, table, causes),
        None => push_of_other(alloc, visit, causes),
    }
}

// What is wrong at the visits at some positions.
fn causes_at<P: PatternMaker>(
    alloc: Global,
    visits: &Visits<'_>,
    wrong: &[usize],
    maker: &P,
    table: &mut PatternTable<P::Matcher>,
) -> Result<Vec<BuildCause>, AllocError>
    requires inside { All (λ i. i < length visits.now.list.items) wrong.now }
    ensures { IfOk result (λ v. IsFilled P.Matcher.finds (P.patterns maker.now).finished
        (P.patterns maker.now).makes table.old
        → TellsVisits (P.patterns maker.now).makes visits.now.list.items wrong.now v.items) }
{
    let mut causes = Vec::new(alloc);
    for position in wrong {
        push_causes(alloc, &visits.list[*position], maker, table, &mut causes)?;
    }
    Ok(causes)
}

// The causes of a root, with the matches that its visits carry.
fn causes_by<'r, P: PatternMaker>(
    alloc: Global,
    root: &Resolved<'r>,
    matches: &'r Matches,
    maker: &P,
    limit: usize,
) -> Result<Vec<BuildCause>, BuildCause>
    requires placed { IsPlaced (documents_in root.now.resolver) (target_in root.now) }
    ensures told { IfOk result (λ v. AreCausesOf (documents_in root.now.resolver) (P.patterns maker.now).makes
        (root_site (target_in root.now)) v.items) }
    ensures within { OnOk result (AreWithin (documents_in root.now.resolver) (P.patterns maker.now).makes
        (root_site (target_in root.now) ∷ []) limit) }
    ensures refused { IfErr result (RefusesTelling (documents_in root.now.resolver) (P.patterns maker.now).makes
        (root_site (target_in root.now)) limit) }
{
    let visits = start_at(alloc, root, matches)?;
    let begun = Walk::new(alloc, visits);
    let mut walk = begun.run(alloc, maker, limit, AtCause::GoOn)?;
    let walk = &mut walk;
    Ok(causes_at(
        alloc,
        &walk.visits,
        walk.wrong.as_slice(),
        maker,
        &mut walk.table,
    )?)
}

/// What is wrong at the schemas that are reached from a root, in the order in which these are met: of each the first cause of its
/// identifier, and of each member in turn. A keyword with a cause leads nowhere, and those beside it are walked.
///
/// It costs what `build` costs where nothing is wrong, and reads the schemas with a cause once more.
///
/// # Errors
///
/// More compile keys than the limit, or want of memory.
pub fn causes<P: PatternMaker>(
    alloc: Global,
    root: &Resolved<'_>,
    maker: &P,
    limit: usize,
) -> Result<Vec<BuildCause>, BuildCause>
    requires placed { IsPlaced (documents_in root.now.resolver) (target_in root.now) }
    ensures told { IfOk result (λ v. AreCausesOf (documents_in root.now.resolver) (P.patterns maker.now).makes
        (root_site (target_in root.now)) v.items) }
    ensures within { OnOk result (AreWithin (documents_in root.now.resolver) (P.patterns maker.now).makes
        (root_site (target_in root.now) ∷ []) limit) }
    ensures refused { IfErr result (RefusesTelling (documents_in root.now.resolver) (P.patterns maker.now).makes
        (root_site (target_in root.now)) limit) }
{
    let matches = Matches::none(alloc);
    causes_by(alloc, &*root, &matches, maker, limit)
}
