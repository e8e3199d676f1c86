//! What keywords ask, with the visits of it.

ghost use Rattle.std.specs.Prelude.{◌≡◌, ◌+◌, OnOk, IfOk, length};
ghost use Rattle.serde_json.specs.Data.{Data};
ghost use Rattle.serde_json.specs.View.{view};
ghost use Rattle.referencing.specs.Resolved.{documents_in};
ghost use Rattle.schema_sites.specs.Read as read;
ghost use Rattle.schema_sites.specs.Seen.{documents_at};
ghost use Rattle.reached_sites.specs.Visits.{site_of, Adds};
ghost use Rattle.compiled_graphs.specs.Asked.{site_beside, beside_of, asked_by};

use reached_sites::leads::push_leads;
use reached_sites::visit::Visit;
use schema_sites::keyword::Keyword;
use serde_json::Value;
use std::alloc::{AllocError, Global};

/// What stands at a schema: the schema `false`, or a keyword with how many visits are of what it asks.
#[derive(Drop)]
pub(crate) enum Asking<'r> {
    Never,
    Keyword { keyword: Keyword<'r>, asks: usize },
}

// The schema that stands beside an `if`, if any does.
fn push_beside<'r>(
    alloc: Global,
    visit: &Visit<'r>,
    name: &str,
    schema: Option<&'r Value>,
    visits: &mut Vec<Visit<'r>>,
) -> Result<(), AllocError>
    ensures { OnOk result (Adds (documents_in visit.now.site.resolver) visits.old.items visits.new.items
        (site_beside (documents_at visit.now.site) (site_of visit.now) name.now schema.entry)) }
{
    if let Some(schema) = schema {
        let point = visit.point.member(alloc, name)?;
        visits.push(visit.below(alloc, point, schema)?)?;
    }
    Ok(())
}

fn push_all_beside<'r>(
    alloc: Global,
    visit: &Visit<'r>,
    keyword: &Keyword<'r>,
    visits: &mut Vec<Visit<'r>>,
) -> Result<(), AllocError>
    ensures { OnOk result (Adds (documents_in visit.now.site.resolver) visits.old.items visits.new.items
        (beside_of (documents_at visit.now.site) (site_of visit.now) keyword.now)) }
{
    match keyword {
        Keyword::If {
            then_schema,
            else_schema,
            ..
        } => {
            push_beside(alloc, visit, "then", *then_schema, visits)?;
            push_beside(alloc, visit, "else", *else_schema, visits)
        }
        _ => Ok(()),
    }
}

/// Puts the visits of what a keyword asks behind others: those that it leads to, and behind an `if` those of what stands beside. It answers
/// how many these are.
///
/// # Errors
///
/// Where memory was refused or a count of owners is full.
pub(crate) fn push_asked<'r>(
    alloc: Global,
    visit: &Visit<'r>,
    keyword: &Keyword<'r>,
    visits: &mut Vec<Visit<'r>>,
) -> Result<usize, AllocError>
    requires { (d : Data) × read.Finds visit.now.site d keyword.now }
    ensures adds { OnOk result (Adds (documents_in visit.now.site.resolver) visits.old.items visits.new.items
        (asked_by (documents_at visit.now.site) (site_of visit.now) keyword.now)) }
    ensures count { IfOk result (λ n. length visits.new.items ≡ length visits.old.items + n) }
{
    let before = visits.len();
    push_leads(alloc, visit, keyword, visits)?;
    push_all_beside(alloc, visit, keyword, visits)?;
    Ok(visits.len() - before)
}
