//! What a reference is, from what it leads to.

ghost use Rattle.std.specs.Prelude.{◌≡◌, IfOk, IfErr, Ok};
ghost use Rattle.serde_json.specs.Data.{Data};
ghost use Rattle.schema_definitions.specs.Scopes.{entered_scope};
ghost use Rattle.referencing.specs.Resolved.{target_in, base_of, scope_of, documents_in};
ghost use Rattle.document_sources.specs.Causes.{RefusesLookup};
ghost use Rattle.schema_definitions.specs.Rows as rows;
ghost use Rattle.schema_sites.specs.Read.{IsRowOf, Finds, FindsTarget};
ghost use Rattle.schema_sites.specs.References as references;
ghost use Rattle.schema_sites.specs.declared.site.Site as code;
ghost use Rattle.schema_sites.specs.Refused.{Refuses};

use crate::keyword::{Keyword, Refusal};
use crate::reference_keyword::ReferenceKeyword;
use referencing::{Error, Resolved, Resolver};
use schema_places::place::is_schema;

// What a reference leads to, by its keyword.
pub(crate) fn look_up<'r>(
    resolver: &Resolver<'r>,
    keyword: ReferenceKeyword,
    text: &str,
) -> Result<Resolved<'r>, Error>
    ensures ok { IfOk result (λ r. references.looked_up keyword (documents_in resolver.now) (base_of resolver.now)
        (scope_of resolver.now) text.now ≡ Ok (target_in r)) }
    ensures scope { IfOk result (λ r. scope_of r.resolver
        ≡ entered_scope (base_of r.resolver) (base_of resolver.now) (scope_of resolver.now)) }
    ensures documents { IfOk result (λ r. documents_in r.resolver ≡ documents_in resolver.now) }
    ensures refused { IfErr result (RefusesLookup
        (references.looked_up keyword (documents_in resolver.now) (base_of resolver.now)
        (scope_of resolver.now) text.now)) }
{
    match keyword {
        ReferenceKeyword::Ref => resolver.lookup(text),
        ReferenceKeyword::DynamicRef => resolver.lookup_dynamic_ref(text),
        ReferenceKeyword::RecursiveRef => resolver.lookup_recursive_ref(),
    }
}

pub(crate) fn led_to<'r>(
    keyword: ReferenceKeyword,
    text: &'r str,
    target: Resolved<'r>,
) -> Result<Keyword<'r>, Refusal<'r>>
    ensures read { IfOk result (λ k. (x : rows.Context)
        → IsRowOf x (references.name_of keyword)
        (rows.led_to x (references.name_of keyword) (references.kind_of keyword) text.now
        (Ok (target_in target.entry))) k) }
    ensures found { IfOk result (λ k. (c : code.Site) (d : Data) → FindsTarget c keyword text.now target.entry
        → Finds c d k) }
    ensures refused { IfErr result (λ e. (x : rows.Context) (d : Data)
        → Refuses x (references.name_of keyword) d
        (rows.led_to x (references.name_of keyword) (references.kind_of keyword) text.now
        (Ok (target_in target.entry))) e) }
{
    if !is_schema(target.contents()) {
        return Err(Refusal::Target { target });
    }
    Ok(Keyword::Reference {
        keyword,
        text,
        target,
    })
}
