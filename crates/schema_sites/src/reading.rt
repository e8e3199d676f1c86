//! What a member of a schema is, read from its value and its neighbours.

ghost use Rattle.std.specs.Prelude.{◌≡◌, List, ℕ, Bool, IfOk, IfErr, codes, false, None};
ghost use Rattle.serde_json.specs.Data.{Members};
ghost use Rattle.serde_json.specs.View.{view, members_view};
ghost use Rattle.referencing.specs.Resolved.{scope_of};
ghost use Rattle.schema_meaning.specs.Members.{is_listed};
ghost use Rattle.assertions.specs.Names.{assertion_names};
ghost use Rattle.schema_definitions.specs.Rows as rows;
ghost use Rattle.schema_definitions.specs.Sites as sites;
ghost use Rattle.schema_sites.specs.Arms as arms;
ghost use Rattle.schema_sites.specs.Read.{IsRowOf, context_at, ReadAs, ReadCounted, Finds};
ghost use Rattle.schema_sites.specs.References as references;
ghost use Rattle.schema_sites.specs.Refused.{Refuses, RefusedAs, RefusedCounted};
ghost use Rattle.schema_sites.specs.Seen.{Stands};
ghost use Rattle.schema_sites.specs.declared.site.Site as code;

use crate::applying::applying;
use crate::asserting::asserting;
use crate::choosing::{condition, consequent};
use crate::keyword::{Keyword, Refusal};
use crate::neighbours::strict_limit;
use crate::reference_keyword::ReferenceKeyword;
use crate::referred::{led_to, look_up};
use crate::site::Site;
use applicator_reading::dependencies::dependencies as read_dependencies;
use applicator_reading::neighbours::{Neighbours, has_reference};
use applicator_reading::reading::read as read_applicator;
use assertions::reading::read as read_assertion;
use serde_json::{Map, Value};
use std::alloc::Global;

fn pattern<'r>(value: &'r Value) -> Result<Keyword<'r>, Refusal<'r>>
    ensures read { IfOk result (λ k. (x : rows.Context)
        → IsRowOf x (codes "pattern") (arms.one_pattern_row x (view value.now)) k) }
    ensures found { IfOk result (λ k. (c : code.Site) → Finds c (view value.now) k) }
    ensures refused { IfErr result (λ e. (x : rows.Context)
        → Refuses x (codes "pattern") (view value.now) (arms.one_pattern_row x (view value.now)) e) }
{
    match value.as_str() {
        Some(text) => Ok(Keyword::Pattern(text)),
        None => Err(Refusal::Value { expected: "text" }),
    }
}

fn dependencies<'r>(alloc: Global, value: &'r Value) -> Result<Keyword<'r>, Refusal<'r>>
    ensures read { IfOk result (λ k. (x : rows.Context)
        → IsRowOf x (codes "dependencies") (rows.read_among rows.readers x (codes "dependencies")
        (view value.now)) k) }
    ensures found { IfOk result (λ k. (c : code.Site) → Finds c (view value.now) k) }
    ensures refused { IfErr result (λ e. (x : rows.Context)
        → Refuses x (codes "dependencies") (view value.now)
        (rows.read_among rows.readers x (codes "dependencies") (view value.now)) e) }
{
    let reading = read_dependencies(alloc, value)?;
    applying(reading)
}

fn hash_text(value: &Value) -> Result<&str, &'static str>
    ensures said { IfOk result (λ t. references.Says ReferenceKeyword.RecursiveRef (view value.now) t.now) }
    ensures refused { IfErr result (λ word. (x : rows.Context)
        → references.reference_row ReferenceKeyword.RecursiveRef x (view value.now)
        ≡ rows.bad_value x (codes "$recursiveRef") word.now) }
{
    let Some(text) = value.as_str() else {
        return Err("text #");
    };
    if text == "#" { Ok(text) } else { Err("text #") }
}

// The text of a reference, or what was expected.
fn reference_text(keyword: ReferenceKeyword, value: &Value) -> Result<&str, &'static str>
    ensures said { IfOk result (λ t. references.Says keyword (view value.now) t.now) }
    ensures refused { IfErr result (λ word. (x : rows.Context)
        → references.reference_row keyword x (view value.now)
        ≡ rows.bad_value x (references.name_of keyword) word.now) }
{
    match keyword {
        ReferenceKeyword::Ref | ReferenceKeyword::DynamicRef => match value.as_str() {
            Some(text) => Ok(text),
            None => Err("text"),
        },
        ReferenceKeyword::RecursiveRef => hash_text(value),
    }
}

fn reference<'r>(
    site: &Site<'r>,
    keyword: ReferenceKeyword,
    value: &'r Value,
) -> Result<Keyword<'r>, Refusal<'r>>
    ensures read { IfOk result (λ k. (ms : Members)
        → ReadAs site.now ms (references.name_of keyword)
        (λ x. references.reference_row keyword x (view value.now)) k) }
    ensures found { IfOk result (λ k. Finds site.now (view value.now) k) }
    ensures refused { IfErr result (λ e. (ms : Members)
        → RefusedAs site.now ms (references.name_of keyword) (view value.now)
        (λ x. references.reference_row keyword x (view value.now)) e) }
{
    match reference_text(keyword, value) {
        Ok(text) => {
            let target = look_up(&site.resolver, keyword, text)?;
            led_to(keyword, text, target)
        }
        Err(expected) => Err(Refusal::Value { expected }),
    }
}

// What a member is whose name counts and is no reference's, nor that of a keyword that only asserts.
fn applied<'r>(
    alloc: Global,
    neighbours: Neighbours<'r>,
    name: &str,
    value: &'r Value,
) -> Result<Keyword<'r>, Refusal<'r>>
    requires reference { references.named name.now ≡ None }
    requires assertion { is_listed name.now assertion_names ≡ false }
    ensures read { IfOk result (ReadCounted neighbours.entry name.now (view value.now)) }
    ensures found { IfOk result (λ k. (c : code.Site) → Finds c (view value.now) k) }
    ensures refused { IfErr result (RefusedCounted neighbours.entry name.now (view value.now)) }
{
    match name {
        "pattern" => pattern(value),
        "unevaluatedItems" => Err(Refusal::LeftOut),
        "unevaluatedProperties" => Err(Refusal::LeftOut),
        "dependencies" => dependencies(alloc, value),
        "if" => condition(neighbours, value),
        "then" => consequent(neighbours, "then", value),
        "else" => consequent(neighbours, "else", value),
        _ => match read_applicator(neighbours, name, value) {
            Some(reading) => applying(reading),
            None => Ok(Keyword::Nothing),
        },
    }
}

// What a member is whose name counts and is no reference's.
fn counted<'r>(
    alloc: Global,
    neighbours: Neighbours<'r>,
    name: &str,
    value: &'r Value,
) -> Result<Keyword<'r>, Refusal<'r>>
    requires other { references.named name.now ≡ None }
    ensures read { IfOk result (ReadCounted neighbours.entry name.now (view value.now)) }
    ensures found { IfOk result (λ k. (c : code.Site) → Finds c (view value.now) k) }
    ensures refused { IfErr result (RefusedCounted neighbours.entry name.now (view value.now)) }
{
    let strict = strict_limit(neighbours, name);
    match read_assertion(alloc, neighbours.dialect.draft, name, value, strict)? {
        Some(reading) => asserting(reading),
        None => applied(alloc, neighbours, name, value),
    }
}

/// What a member of a site's schema is, by its dialect: a keyword that is read, or nothing where it does not count.
///
/// It compares the name with those of the draft's keywords. It copies no part of the schema but the names of types; the values of
/// `enum`, and names that have to differ, are sorted; a reference is looked up, and each member of `properties` is looked at once. Of a
/// keyword that does not count the value is not looked at. No pattern is made.
///
/// # Errors
///
/// Where the keyword's value, a schema in it or the target of a reference is none that the keyword may have, where a reference leads
/// nowhere, where the keyword is left out, and where memory was refused.
pub fn keyword<'r>(
    alloc: Global,
    site: &Site<'r>,
    members: &'r Map<String, Value>,
    name: &str,
    value: &'r Value,
) -> Result<Keyword<'r>, Refusal<'r>>
    ensures read { IfOk result (λ k. (makes : List ℕ → Bool) (s : sites.Site) → Stands site.now s
        → s.scope ≡ scope_of site.now.resolver
        → IsRowOf (context_at site.now (members_view members.now.entries) makes s) name.now
        (rows.row_at (context_at site.now (members_view members.now.entries) makes s) name.now
        (view value.now)) k) }
    ensures found { IfOk result (λ k. Finds site.now (view value.now) k) }
    ensures refused { IfErr result (λ e. (makes : List ℕ → Bool) (s : sites.Site) → Stands site.now s
        → s.scope ≡ scope_of site.now.resolver
        → Refuses (context_at site.now (members_view members.now.entries) makes s) name.now (view value.now)
        (rows.row_at (context_at site.now (members_view members.now.entries) makes s) name.now
        (view value.now)) e) }
{
    if !site.counts(has_reference(members), name) {
        return Ok(Keyword::Nothing);
    }
    let neighbours = Neighbours {
        dialect: site.dialect,
        members,
    };
    match ReferenceKeyword::named(name) {
        Some(found) => reference(site, found, value),
        None => counted(alloc, neighbours, name, value),
    }
}
