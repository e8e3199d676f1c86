//! Where the keywords of a schema lead.

ghost use Rattle.std.specs.Prelude.{◌≡◌, ◌∷◌, ◌++◌, [], map, IfOk, OnOk};
ghost use Rattle.std.specs.Bool.{Decides};
ghost use Rattle.serde_json.specs.Data.{Data};
ghost use Rattle.serde_json.specs.View.{view};
ghost use Rattle.json_values.specs.Parts.{name as name_part};
ghost use Rattle.document_index.specs.Seen.{name_of};
ghost use Rattle.referencing.specs.Resolved.{documents_in, target_in};
ghost use Rattle.schema_definitions.specs.Sites as sites;
ghost use Rattle.applicators.specs.Shapes as applied;
ghost use Rattle.schema_sites.specs.Read as read;
ghost use Rattle.schema_sites.specs.Seen.{documents_at};
ghost use Rattle.schema_sites.specs.declared.reference_keyword.ReferenceKeyword.{ReferenceKeyword};
ghost use Rattle.reading_laws.specs.Spelled.{spelled};
ghost use Rattle.reached_sites.specs.Visits.{site_of, Adds};

use crate::visit::Visit;
use crate::waypoint::Waypoint;
use applicators::applicator::Applicator;
use applicators::subschema::{Entry, Subschema};
use applicators::subschemas::subschemas;
use referencing::Resolved;
use schema_sites::keyword::Keyword;
use serde_json::Value;
use std::alloc::{AllocError, Global};

// The schema that stands at a keyword.
fn push_at<'r>(
    alloc: Global,
    visit: &Visit<'r>,
    keyword: &str,
    schema: &'r Value,
    leads: &mut Vec<Visit<'r>>,
) -> Result<(), AllocError>
    ensures { OnOk result (Adds (documents_in visit.now.site.resolver) leads.old.items leads.new.items
        (read.site_at (documents_at visit.now.site) (site_of visit.now) keyword.now (view schema.now) ∷ [])) }
{
    let point = visit.point.member(alloc, keyword)?;
    leads.push(visit.below(alloc, point, schema)?)?;
    Ok(())
}

fn is_one_keyword(one: &str, other: &str) -> bool
    ensures { Decides result (one.now ≡ other.now) }
{
    one == other
}

// Where a subschema is, in the value of its keyword.
fn point_below(
    alloc: Global,
    visit: &Visit<'_>,
    value: &Waypoint,
    subschema: &Subschema<'_>,
) -> Result<Waypoint, AllocError>
    requires document { name_of value.now.place.document ≡ name_of visit.now.point.place.document }
    requires path { value.now.place.path ≡ name_part subschema.now.keyword.now ∷ visit.now.point.place.path }
    requires road { value.now.schema_path.steps ≡ name_part subschema.now.keyword.now ∷ visit.now.point.schema_path.steps }
    ensures document { IfOk result (λ p. name_of p.place.document ≡ name_of visit.now.point.place.document) }
    ensures path { IfOk result (λ p. p.place.path ≡ applied.added_at subschema.now.keyword.now subschema.now.entry
        ++ visit.now.point.place.path) }
    ensures road { IfOk result (λ p. p.schema_path.steps
        ≡ spelled (applied.added_at subschema.now.keyword.now subschema.now.entry)
        ++ visit.now.point.schema_path.steps) }
{
    match subschema.entry {
        Entry::Whole => value.shared(),
        Entry::Name(name) => value.member(alloc, name),
        Entry::Index(index) => value.item(alloc, index),
    }
}

// Where a subschema is, given the point of the value of some keyword of its schema.
fn point_in(
    alloc: Global,
    visit: &Visit<'_>,
    keyword: &str,
    value: &Waypoint,
    subschema: &Subschema<'_>,
) -> Result<Waypoint, AllocError>
    requires document { name_of value.now.place.document ≡ name_of visit.now.point.place.document }
    requires path { value.now.place.path ≡ name_part keyword.now ∷ visit.now.point.place.path }
    requires road { value.now.schema_path.steps ≡ name_part keyword.now ∷ visit.now.point.schema_path.steps }
    ensures document { IfOk result (λ p. name_of p.place.document ≡ name_of visit.now.point.place.document) }
    ensures path { IfOk result (λ p. p.place.path ≡ applied.added_at subschema.now.keyword.now subschema.now.entry
        ++ visit.now.point.place.path) }
    ensures road { IfOk result (λ p. p.schema_path.steps
        ≡ spelled (applied.added_at subschema.now.keyword.now subschema.now.entry)
        ++ visit.now.point.schema_path.steps) }
{
    if is_one_keyword(keyword, subschema.keyword) {
        return point_below(alloc, visit, value, subschema);
    }
    let other = visit.point.member(alloc, subschema.keyword)?;
    point_below(alloc, visit, &other, subschema)
}

// The visits of subschemas. Most stand in the value of one keyword, whose point is made once.
fn push_subschemas<'r>(
    alloc: Global,
    visit: &Visit<'r>,
    found: &[Subschema<'r>],
    leads: &mut Vec<Visit<'r>>,
) -> Result<(), AllocError>
    ensures { OnOk result (Adds (documents_in visit.now.site.resolver) leads.old.items leads.new.items
        (map (applied.place_of (sites.below (documents_at visit.now.site) (site_of visit.now))) found.now)) }
{
    let Some(first) = found.first() else {
        return Ok(());
    };
    let value = visit.point.member(alloc, first.keyword)?;
    for subschema in found {
        let point = point_in(alloc, visit, first.keyword, &value, subschema)?;
        leads.push(visit.below(alloc, point, subschema.schema)?)?;
    }
    Ok(())
}

fn push_applied<'r>(
    alloc: Global,
    visit: &Visit<'r>,
    applicator: &Applicator<'r>,
    leads: &mut Vec<Visit<'r>>,
) -> Result<(), AllocError>
    ensures { OnOk result (Adds (documents_in visit.now.site.resolver) leads.old.items leads.new.items
        (read.leads_of (documents_at visit.now.site) (site_of visit.now) (Keyword.Applicator applicator.now))) }
{
    let found = subschemas(alloc, applicator)?;
    push_subschemas(alloc, visit, found.as_slice(), leads)
}

fn push_target<'r>(
    alloc: Global,
    visit: &Visit<'r>,
    text: &str,
    target: &Resolved<'r>,
    leads: &mut Vec<Visit<'r>>,
) -> Result<(), AllocError>
    requires { (keyword : ReferenceKeyword) × read.FindsTarget visit.now.site keyword text.now target.now }
    ensures { OnOk result (Adds (documents_in visit.now.site.resolver) leads.old.items leads.new.items
        (sites.target_site (site_of visit.now) text.now (target_in target.now) ∷ [])) }
{
    leads.push(Visit::of_target(alloc, text, target, visit.site.matches)?)?;
    Ok(())
}

/// Puts the visits of what a keyword of a schema leads to behind others.
///
/// # Errors
///
/// Where memory was refused or a count of owners is full.
pub fn push_leads<'r>(
    alloc: Global,
    visit: &Visit<'r>,
    keyword: &Keyword<'r>,
    leads: &mut Vec<Visit<'r>>,
) -> Result<(), AllocError>
    requires { (d : Data) × read.Finds visit.now.site d keyword.now }
    ensures { OnOk result (Adds (documents_in visit.now.site.resolver) leads.old.items leads.new.items
        (read.leads_of (documents_at visit.now.site) (site_of visit.now) keyword.now)) }
{
    match keyword {
        Keyword::Nothing => Ok(()),
        Keyword::Assertion(_) => Ok(()),
        Keyword::Pattern(_) => Ok(()),
        Keyword::If { condition, .. } => push_at(alloc, visit, "if", condition, leads),
        Keyword::Consequent { name, schema } => push_at(alloc, visit, name, schema, leads),
        Keyword::Applicator(applicator) => push_applied(alloc, visit, applicator, leads),
        Keyword::Reference { text, target, .. } => push_target(alloc, visit, text, target, leads),
    }
}
