// What registries and resolvers are asked beside references.
use crate::lookups::reached;
use crate::registries::assert_topics;
use crate::retrieving::uris;
use crate::scripts::{cut_word, json, text_of};
use document_sources::MapRetriever;
use document_sources::error::Error;
use referencing::registry::Registry;
use referencing::resolver::Resolver;
use schema_dialects::{Vocabulary, VocabularySet};
use schema_drafts::draft::Draft;
use serde_json::Value;
use std::alloc::Global;
use std::fmt::Debug;
use std::process::Abort;
use uri_references::uri::{Uri, from_str};

fn shown(rt: &impl Abort, alloc: Global, set: &VocabularySet) -> String {
    let mut line = String::new(alloc);
    for (vocabulary, name) in &[
        (Vocabulary::Applicator, "applicator"),
        (Vocabulary::Validation, "validation"),
    ] {
        if set.contains(vocabulary) {
            write!(line, "{name} ").expect(rt, "memory");
        }
    }
    for uri in set.custom() {
        write!(line, "{} ", uri.as_str()).expect(rt, "memory");
    }
    line
}

fn resolver_at<'r>(rt: &impl Abort, registry: &'r Registry<'_>, base: &str) -> Resolver<'r> {
    let base = from_str(registry.allocator(), base).expect(rt, base);
    registry.resolver(base).expect(rt, "memory")
}

// The vocabularies that a registry finds in a schema.
fn vocabularies(rt: &impl Abort, registry: &Registry<'_>, text: &str) -> String {
    let schema = json(rt, registry.allocator(), text);
    let found = registry.find_vocabularies(Draft::Draft202012, &schema);
    shown(rt, registry.allocator(), &found.expect(rt, "memory"))
}

// The vocabularies that a resolver finds in a schema.
fn vocabularies_there(rt: &impl Abort, registry: &Registry<'_>, text: &str) -> String {
    let schema = json(rt, registry.allocator(), text);
    let resolver = resolver_at(rt, registry, "http://a.test/r");
    let found = resolver.find_vocabularies(Draft::Draft202012, &schema);
    shown(rt, registry.allocator(), &found.expect(rt, "memory"))
}

fn told(rt: &impl Abort, alloc: Global, answer: &Result<Uri, Error>) -> String {
    match answer {
        Ok(uri) => text_of(rt, alloc, &uri.as_str()),
        Err(error) => text_of(rt, alloc, error),
    }
}

// What a registry makes of a reference from a base.
fn uri(rt: &impl Abort, registry: &Registry<'_>, text: &str) -> String {
    let (base, reference) = cut_word(text);
    let base = from_str(registry.allocator(), base).expect(rt, base);
    told(
        rt,
        registry.allocator(),
        &registry.resolve_uri(&base, reference),
    )
}

// What the resolver at a base makes of a reference.
fn uri_there(rt: &impl Abort, registry: &Registry<'_>, text: &str) -> String {
    let (base, reference) = cut_word(text);
    let resolver = resolver_at(rt, registry, base);
    told(rt, registry.allocator(), &resolver.resolve_uri(reference))
}

// The resolver at a base, or the one that a reference leads to from there, which stands alone behind `alone`.
fn resolver_of<'r>(rt: &impl Abort, registry: &'r Registry<'_>, text: &str) -> Resolver<'r> {
    let place = text.strip_prefix("alone ").unwrap_or(text);
    let (base, reference) = cut_word(place);
    if reference.is_empty() {
        return resolver_at(rt, registry, base);
    }
    let resolved = reached(registry, base, reference).expect(rt, text);
    let resolver = resolved.resolver();
    let found = if place == text {
        resolver.share()
    } else {
        resolver.alone()
    };
    found.expect(rt, "memory")
}

// Whether two resolvers are equal.
fn equal(rt: &impl Abort, registry: &Registry<'_>, resolvers: &str) -> String {
    let (left, right) = resolvers.split_once(", ").expect(rt, resolvers);
    let is_equal = resolver_of(rt, registry, left) == resolver_of(rt, registry, right);
    text_of(rt, registry.allocator(), &is_equal)
}

pub(crate) fn answer_beside(rt: &impl Abort, registry: &Registry<'_>, question: &str) -> String {
    let alloc = registry.allocator();
    let (word, rest) = cut_word(question);
    match word {
        "contains" => text_of(rt, alloc, &registry.contains_resource(rest)),
        "documents" => text_of(rt, alloc, &registry.documents().len()),
        "retrieved" => uris(rt, alloc, registry.retrieved()),
        "refused" => text_of(rt, alloc, &"nothing"),
        "vocabularies" => vocabularies(rt, registry, rest),
        "vocabularies-there" => vocabularies_there(rt, registry, rest),
        "uri" => uri(rt, registry, rest),
        "uri-there" => uri_there(rt, registry, rest),
        "equal" => equal(rt, registry, rest),
        _ => panic!(rt; "no question: {question}"),
    }
}

// A meta-schema that requires the applicators alone.
const ASKED: &str = r##"
document http://a.test/m {"$schema":"https://json-schema.org/draft/2020-12/schema","$vocabulary":{"https://json-schema.org/draft/2020-12/vocab/applicator":true,"http://a.test/v":true}}
vocabularies {"$schema":"HTTP://a.test/m"} :: applicator http://a.test/v
vocabularies {"$schema":"http://a.test/n"} :: applicator validation
vocabularies {"$vocabulary":{}} :: applicator validation
vocabularies true :: applicator validation
vocabularies-there {"$schema":"HTTP://a.test/m"} :: applicator http://a.test/v
vocabularies-there {"$schema":"http://a.test/n"} :: applicator validation
vocabularies-there {"$vocabulary":{}} :: applicator validation
vocabularies-there true :: applicator validation
uri http://a.test/b/c ../d# :: http://a.test/d
uri-there http://a.test/b/c d?e#f :: http://a.test/b/d?e#f
uri-there http://a.test/b/c a b :: Invalid URI 'a b'
equal http://a.test/m, HTTP://A.test/x/../m# :: true
equal http://a.test/m, http://a.test/n :: false
equal http://a.test/m, http://a.test/n m :: false
equal http://a.test/m, alone http://a.test/n m :: true
"##;

#[test]
fn registries_and_resolvers_asked(rt: HostRuntime) {
    assert_topics(&rt, rt.alloc(), ASKED);
}

fn assert_printed(rt: &impl Abort, alloc: Global, printed: &impl Debug, want: &str) {
    let text = format!(in alloc; "{printed:?}").expect(rt, "memory");
    assert_eq!(rt; text.as_str(), want);
}

#[test]
fn builders_printed(rt: HostRuntime) {
    let alloc = rt.alloc();
    let builder = Registry::new(alloc)
        .add("http://a.test/m", Value::Null)
        .expect(&rt, "a builder");
    assert_printed(
        &rt,
        alloc,
        &builder,
        "RegistryBuilder { draft: Draft202012, siblings: false, documents: 1, retriever: DefaultRetriever, limit: 256 }",
    );
    assert_printed(
        &rt,
        alloc,
        &builder
            .retriever(MapRetriever::new(alloc))
            .retrieval_limit(2),
        "RegistryBuilder { draft: Draft202012, siblings: false, documents: 1, retriever: MapRetriever { documents: {} }, limit: 2 }",
    );
}
