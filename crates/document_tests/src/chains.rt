// Chains of references, by the dynamic scope too: where the last one leads, and the base URI there; and the keys of the scopes there.
// The steps of a chain are `recursive`, `dynamic` and a reference, `enter` and a reference to a subschema, `itself` for the empty
// reference, or any other.

ghost use Rattle.std.specs.Prelude.{◌≡◌, false, IfOk};
ghost use Rattle.referencing.specs.Seen.{documents_of};
ghost use Rattle.document_tests.specs.Alone.{alone_by};

use crate::lookups::{Led, reached, told};
use crate::registries::{Prepared, assert_topics};
use crate::scripts::{assert_told, cut_word, json, text_of};
use document_sources::resource::IntoRegistryResource;
use referencing::following::{Step, follow};
use referencing::registry::Registry;
use referencing::scope_key::ScopeKey;
use schema_drafts::draft::Draft;
use schema_drafts::resource::ResourceRef;
use schema_registries::chains::{BothAnswers, follow_both};
use std::alloc::Global;
use std::process::Abort;
use uri_references::uri::from_str;

// What is entered for a subschema of a document.
fn entered<'r>(rt: &impl Abort, registry: &'r Registry<'_>, reference: &str) -> ResourceRef<'r> {
    let subschema = reached(registry, reference, reference).expect(rt, reference);
    ResourceRef::new(subschema.contents(), Draft::Draft202012)
}

fn step<'s>(rt: &impl Abort, registry: &'s Registry<'_>, text: &'s str) -> Step<'s> {
    match cut_word(text) {
        ("dynamic", reference) => Step::Dynamic(reference),
        ("enter", reference) => Step::Enter(entered(rt, registry, reference)),
        ("recursive", _) => Step::Recursive,
        ("itself", _) => Step::Lookup(""),
        _ => Step::Lookup(text),
    }
}

fn steps<'s>(rt: &impl Abort, registry: &'s Registry<'_>, text: &'s str) -> Vec<Step<'s>> {
    let mut steps = Vec::new(registry.allocator());
    if !text.is_empty() {
        for part in text.split(", ") {
            steps.push(step(rt, registry, part)).expect(rt, "memory");
        }
    }
    steps
}

fn led<'r>(rt: &impl Abort, registry: &'r Registry<'_>, chain: &'r str) -> Led<'r> {
    let (base, text) = cut_word(chain);
    let base = from_str(registry.allocator(), base)?;
    follow(registry, base, &steps(rt, registry, text))
}

// What a base and steps lead to.
pub(crate) fn chain(rt: &impl Abort, registry: &Registry<'_>, text: &str) -> String {
    told(rt, registry.allocator(), &led(rt, registry, text))
}

fn key(rt: &impl Abort, registry: &Registry<'_>, chain: &str) -> ScopeKey {
    let found = led(rt, registry, chain).expect(rt, chain);
    let there = found.expect(rt, chain);
    there.resolver().scope_key().expect(rt, "memory")
}

// Whether the scopes that two chains lead to have one key.
pub(crate) fn keys(rt: &impl Abort, registry: &Registry<'_>, chains: &str) -> String {
    let (left, right) = chains.split_once(" | ").expect(rt, chains);
    let is_one = key(rt, registry, left) == key(rt, registry, right);
    text_of(rt, registry.allocator(), &is_one)
}

const CHAINS: &str = r##"
document http://a.test/list {"$id":"http://a.test/list","$schema":"https://json-schema.org/draft/2020-12/schema","type":"array","items":{"$dynamicRef":"#item"},"$defs":{"d":{"$dynamicAnchor":"item"}}}
document http://a.test/strings {"$id":"http://a.test/strings","$ref":"list","$defs":{"s":{"$dynamicAnchor":"item","type":"string"}}}
chain http://a.test/strings list, enter http://a.test/list#/items, #item :: http://a.test/list#/$defs/d http://a.test/list {"$dynamicAnchor":"item"}
chain http://a.test/strings list, enter http://a.test/list#/items, dynamic #item :: http://a.test/strings#/$defs/s http://a.test/strings {"$dynamicAnchor":"item","type":"string"}
chain http://a.test/list itself, enter http://a.test/list#/items, dynamic #item :: http://a.test/list#/$defs/d http://a.test/list {"$dynamicAnchor":"item"}
chain http://a.test/strings list, enter http://a.test/list#/items, dynamic #none :: Anchor 'none' does not exist
lookup http://a.test/strings list, dynamic #item :: http://a.test/strings#/$defs/s http://a.test/strings {"$dynamicAnchor":"item","type":"string"}
chain http://a.test/list itself, dynamic #item :: http://a.test/list#/$defs/d http://a.test/list {"$dynamicAnchor":"item"}
keys http://a.test/strings list | http://a.test/list itself :: false

document http://a.test/tree {"$schema":"https://json-schema.org/draft/2019-09/schema","$id":"http://a.test/tree","$recursiveAnchor":true,"type":"object","properties":{"data":true,"children":{"type":"array","items":{"$recursiveRef":"#"}}}}
document http://a.test/strict {"$schema":"https://json-schema.org/draft/2019-09/schema","$id":"http://a.test/strict","$recursiveAnchor":true,"$ref":"tree"}
document http://a.test/plain {"$schema":"https://json-schema.org/draft/2019-09/schema","$id":"http://a.test/plain"}
chain http://a.test/strict tree, recursive :: http://a.test/strict# http://a.test/strict {"$id":"http://a.test/strict","$recursiveAnchor":true,"$ref":"tree","$schema":"https://json-schema.org/draft/2019-09/schema"}
chain http://a.test/strict plain, tree, recursive :: http://a.test/tree# http://a.test/tree {"$id":"http://a.test/tree","$recursiveAnchor":true,"$schema":"https://json-schema.org/draft/2019-09/schema","properties":{"children":{"items":{"$recursiveRef":"#"},"type":"array"},"data":true},"type":"object"}
chain http://a.test/strict plain, recursive :: http://a.test/plain# http://a.test/plain {"$id":"http://a.test/plain","$schema":"https://json-schema.org/draft/2019-09/schema"}
chain http://a.test/tree recursive :: http://a.test/tree# http://a.test/tree {"$id":"http://a.test/tree","$recursiveAnchor":true,"$schema":"https://json-schema.org/draft/2019-09/schema","properties":{"children":{"items":{"$recursiveRef":"#"},"type":"array"},"data":true},"type":"object"}
chain http://a.test/none recursive :: Resource 'http://a.test/none' is not present and retrieving it failed
lookup http://a.test/strict tree, recursive :: http://a.test/strict# http://a.test/strict {"$id":"http://a.test/strict","$recursiveAnchor":true,"$ref":"tree","$schema":"https://json-schema.org/draft/2019-09/schema"}
keys http://a.test/plain tree, strict, itself | http://a.test/plain tree, plain, strict :: false
keys http://a.test/plain tree, strict, itself | http://a.test/plain tree, strict, itself :: true
keys http://a.test/tree plain | http://a.test/strict tree, plain :: true
keys http://a.test/tree plain | http://a.test/plain itself :: true

document http://b.test/ {"$id":"http://a.test/m/"}
chain http://b.test/ :: nothing looked up
chain http://b.test/ itself :: http://b.test/# http://a.test/m/ {"$id":"http://a.test/m/"}

document http://a.test/r {"$defs":{"d":{"$id":"d/"}}}
chain http://a.test/r :: nothing looked up
chain http://a.test/r d/ :: http://a.test/r#/$defs/d http://a.test/d/ {"$id":"d/"}

document http://a.test/r {"a<b":{"c d":1}}
chain http://a.test/r :: nothing looked up
chain http://a.test/r #/a<b/c d :: http://a.test/r#/a<b/c d http://a.test/r 1
chain http://a.test/r #/a%3Cb/c%20d :: http://a.test/r#/a<b/c d http://a.test/r 1

document http://a.test/r {}
chain http://a.test/r :: nothing looked up
chain http://a.test/r #/a :: Pointer '/a' does not exist

document http://a.test/list {"$id":"http://a.test/list","$schema":"https://json-schema.org/draft/2020-12/schema","type":"array","items":{"$dynamicRef":"#item"},"$defs":{"d":{"$dynamicAnchor":"item"}}}
document http://a.test/tree {"$schema":"https://json-schema.org/draft/2019-09/schema","$id":"http://a.test/tree","$recursiveAnchor":true,"type":"object","properties":{"data":true,"children":{"type":"array","items":{"$recursiveRef":"#"}}}}
document http://a.test/strings {"$id":"http://a.test/strings","$ref":"list","$defs":{"s":{"$dynamicAnchor":"item","type":"string"}}}
keys http://a.test/strings list, itself, itself | http://a.test/strings list, strings, list :: true
keys http://a.test/strings list, itself, itself | http://a.test/list itself, itself, itself :: false
keys http://a.test/strings list, tree, itself | http://a.test/list strings, tree, itself :: false
keys http://a.test/strings tree, list | http://a.test/strings list, tree, list :: true
keys http://a.test/tree strings, list | http://a.test/strings tree, list :: true

document http://a.test/x {"$id":"http://a.test/x","$defs":{"p":{"$dynamicAnchor":"p"}}}
document http://a.test/y {"$id":"http://a.test/y","$defs":{"p":{"$dynamicAnchor":"p"},"q":{"$dynamicAnchor":"q"}}}
document http://a.test/z {"$id":"http://a.test/z","$defs":{"q":{"$dynamicAnchor":"q"}}}
keys http://a.test/x y, z | http://a.test/x y, x, z :: true
keys http://a.test/x z, y, z | http://a.test/x y, z :: false
chain http://a.test/x z, y, z, dynamic #q :: http://a.test/z#/$defs/q http://a.test/z {"$dynamicAnchor":"q"}
chain http://a.test/x y, z, dynamic #q :: http://a.test/y#/$defs/q http://a.test/y {"$dynamicAnchor":"q"}
keys http://a.test/x z | http://a.test/z itself :: false
"##;

#[test]
fn chains_of_references(rt: HostRuntime) {
    assert_topics(&rt, rt.alloc(), CHAINS);
}

// The registry of one document, lent or owned.
fn alone<'a, D: IntoRegistryResource<'a> + Drop>(
    alloc: Global,
    uri: &str,
    document: D,
) -> Prepared<'a>
    ensures documents { IfOk result (λ r. documents_of r ≡ alone_by D.contents D.draft uri.now document) }
    ensures siblings { IfOk result (λ r. r.siblings ≡ false) }
{
    Registry::new(alloc).add(uri, document)?.prepare()
}

fn assert_both(rt: &impl Abort, alloc: Global, both: &BothAnswers<'_, '_>, want: &str) {
    assert_told(rt, &told(rt, alloc, &both.left), want, "the left one");
    assert_told(rt, &told(rt, alloc, &both.right), want, "the right one");
}

const IN_BOTH: [(&str, &str); 2] = [
    ("#/e/0", "http://a.test/r#/$defs/d/e/0 http://a.test/d/ 7"),
    ("#/e/1", "Pointer '/e/1' does not exist"),
];

#[test]
fn chains_in_lent_and_in_owned_documents(rt: HostRuntime) {
    let (alloc, uri) = (rt.alloc(), "http://a.test/r");
    let document = json(&rt, alloc, r##"{"$defs":{"d":{"$id":"d/","e":[7]}}}"##);
    let lent = alone(alloc, uri, &document).expect(&rt, "a registry");
    let copy = document.clone().expect(&rt, "memory");
    let owned = alone(alloc, uri, copy).expect(&rt, "a registry");
    let base = from_str(alloc, uri).expect(&rt, "a URI");
    for (reference, want) in IN_BOTH {
        let steps = [Step::Lookup("d/"), Step::Lookup(reference)];
        let both = follow_both(&lent, &owned, &base, &steps);
        assert_both(&rt, alloc, &both, want);
    }
}
