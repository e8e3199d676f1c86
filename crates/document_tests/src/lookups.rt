// What references lead to: the document, the path in it, the base URI there, and the value; the draft and the keywords that count there;
// and the scope of what stands there.
use crate::registries::assert_topics;
use crate::scripts::{cut_word, json, text_of};
use document_sources::error::Error;
use referencing::registry::Registry;
use referencing::resolver::{Resolved, Resolver};
use schema_drafts::draft::Draft;
use std::alloc::Global;
use std::process::Abort;
use uri_references::uri::from_str;

pub(crate) type Led<'r> = Result<Option<Resolved<'r>>, Error>;

pub(crate) fn reached<'r>(
    registry: &'r Registry<'_>,
    base: &str,
    reference: &str,
) -> Result<Resolved<'r>, Error> {
    let base = from_str(registry.allocator(), base)?;
    registry.resolver(base)?.lookup(reference)
}

fn further<'r>(resolver: &Resolver<'r>, step: &str) -> Result<Resolved<'r>, Error> {
    match cut_word(step) {
        ("dynamic", reference) => resolver.lookup_dynamic_ref(reference),
        _ => resolver.lookup_recursive_ref(),
    }
}

// What a reference leads to from a base, or a dynamic or recursive one from there.
fn looked_up<'r>(registry: &'r Registry<'_>, text: &str) -> Led<'r> {
    let (base, references) = cut_word(text);
    let there = match references.split_once(", ") {
        Some((first, last)) => further(reached(registry, base, first)?.resolver(), last)?,
        None => reached(registry, base, references)?,
    };
    Ok(Some(there))
}

fn shown(rt: &impl Abort, alloc: Global, resolved: &Resolved<'_>) -> String {
    let path = resolved.path().to_pointer(alloc).expect(rt, "memory");
    let base = resolved.resolver().base_uri().expect(rt, "memory");
    let (document, contents) = (resolved.document().as_str(), resolved.contents());
    format!(in alloc; "{document}#{path} {} {contents}", base.as_str()).expect(rt, "memory")
}

pub(crate) fn told(rt: &impl Abort, alloc: Global, answer: &Led<'_>) -> String {
    match answer {
        Ok(Some(resolved)) => shown(rt, alloc, resolved),
        Ok(None) => text_of(rt, alloc, &"nothing looked up"),
        Err(error) => text_of(rt, alloc, error),
    }
}

pub(crate) fn lookup(rt: &impl Abort, registry: &Registry<'_>, text: &str) -> String {
    told(rt, registry.allocator(), &looked_up(registry, text))
}

fn there<'r>(rt: &impl Abort, registry: &'r Registry<'_>, text: &str) -> Resolved<'r> {
    let (base, reference) = cut_word(text);
    reached(registry, base, reference).expect(rt, text)
}

// The draft of what a reference leads to, and which of three keywords count there.
pub(crate) fn dialect(rt: &impl Abort, registry: &Registry<'_>, text: &str) -> String {
    let resolved = there(rt, registry, text);
    let (draft, dialect) = (resolved.draft(), resolved.dialect());
    let mut line = format!(in registry.allocator(); "{draft:?}").expect(rt, "memory");
    for keyword in ["items", "type", "unevaluatedItems"] {
        if dialect.counts(false, keyword) {
            write!(line, " {keyword}").expect(rt, "memory");
        }
    }
    line
}

// The same of a document that is added to a registry.
pub(crate) fn dialect_of_child(rt: &impl Abort, registry: &Registry<'_>, text: &str) -> String {
    let (uri, contents) = cut_word(text);
    let document = json(rt, registry.allocator(), contents);
    let builder = registry.add(uri, document).expect(rt, text);
    dialect(rt, &builder.prepare().expect(rt, text), uri)
}

// The scope inside of what a reference leads to.
pub(crate) fn scope(rt: &impl Abort, registry: &Registry<'_>, text: &str) -> String {
    let resolved = there(rt, registry, text);
    let below = Draft::default().create_resource_ref(resolved.contents());
    let inside = resolved.resolver().in_subresource(below).expect(rt, text);
    let mut line = String::new(registry.allocator());
    for uri in &inside.dynamic_scope().expect(rt, "memory") {
        write!(line, "{} ", uri.as_str()).expect(rt, "memory");
    }
    line
}

const DOCUMENTS_AND_BASES: &str = r##"
document http://a.test/root.json {"$id":"http://a.test/root.json","type":"array","minItems":2,"items":{"$ref":"leaf.json"}}
document http://a.test/leaf.json {"$id":"http://a.test/leaf.json","type":"string"}
contains http://a.test/leaf.json :: true
contains http://a.test/stem.json :: false
lookup http://a.test/root.json leaf.json :: http://a.test/leaf.json# http://a.test/leaf.json {"$id":"http://a.test/leaf.json","type":"string"}
lookup http://a.test/leaf.json root.json#/items :: http://a.test/root.json#/items http://a.test/root.json {"$ref":"leaf.json"}

document http://b.test/ {"$id":"http://a.test/m/"}
lookup http://b.test/ :: http://b.test/# http://a.test/m/ {"$id":"http://a.test/m/"}

document http://a.test/r {"$defs":{"d":{"$id":"d/"}}}
lookup http://a.test/r d/ :: http://a.test/r#/$defs/d http://a.test/d/ {"$id":"d/"}
lookup http://a.test/r #/$defs/d :: http://a.test/r#/$defs/d http://a.test/d/ {"$id":"d/"}

document http://a.test/r {"$ref":"x","$defs":{"a":{"$id":"x","type":"string"},"b":{"$id":"x","type":"integer"}}}
lookup http://a.test/r x :: http://a.test/r#/$defs/b http://a.test/x {"$id":"x","type":"integer"}
"##;

const POINTERS_AND_ANCHORS: &str = r##"
document http://a.test/d {"a<b":{"c d":1}}
lookup http://a.test/d #/a<b/c d :: http://a.test/d#/a<b/c d http://a.test/d 1
lookup http://a.test/d #/a%3Cb/c%20d :: http://a.test/d#/a<b/c d http://a.test/d 1

document http://a.test/d {"a":[1]}
lookup http://a.test/d #/a/0 :: http://a.test/d#/a/0 http://a.test/d 1
lookup http://a.test/d #/a/01 :: Invalid array index '01' in pointer '/a/01'
lookup http://a.test/d #/a/1 :: Pointer '/a/1' does not exist

document http://a.test/d {"$defs":{"s":{"$anchor":"n%41"}}}
lookup http://a.test/d #n%41 :: http://a.test/d#/$defs/s http://a.test/d {"$anchor":"n%41"}

document http://a.test/d {"$schema":"http://json-schema.org/draft-07/schema#","definitions":{"s":{"$id":"#n"}}}
lookup http://a.test/d #n :: http://a.test/d#/definitions/s http://a.test/d {"$id":"#n"}

document http://a.test/d {"$schema":"http://json-schema.org/draft-07/schema#","definitions":{"s":{"$ref":"#","$id":"#n"}}}
lookup http://a.test/d #n :: Anchor 'n' does not exist

document http://a.test/d {}
lookup http://a.test/d #/%FF :: Invalid percent encoding in pointer '/%FF': the decoded bytes do not represent valid UTF-8
lookup http://a.test/d #unknownAnchor :: Anchor 'unknownAnchor' does not exist
lookup http://a.test/d #a/b :: Anchor 'a/b' is invalid
lookup http://a.test/d other :: Resource 'http://a.test/other' is not present and retrieving it failed
lookup http://a.test/d a b#/x :: Invalid URI 'a b'
"##;

const SCOPES: &str = r##"
document http://a.test/d {}
scope http://a.test/d :: http://a.test/d

document http://a.test/d {"$defs":{"e":{"$id":"e"}}}
scope http://a.test/d e :: http://a.test/e http://a.test/d

document http://a.test/d {"const":{"$id":"f"}}
scope http://a.test/d #/const :: http://a.test/f http://a.test/d
"##;

const DIALECTS: &str = r##"
document http://a.test/d {"$schema":"http://a.test/m","$defs":{"s":{"$anchor":"s"},"e":{"$id":"http://a.test/e","$schema":"http://a.test/m7","items":{}},"f":{"$id":"http://a.test/f","$schema":"https://json-schema.org/draft/2019-09/schema"}}}
document http://a.test/m {"$schema":"https://json-schema.org/draft/2020-12/schema","$id":"http://a.test/m","$vocabulary":{"https://json-schema.org/draft/2020-12/vocab/core":true,"https://json-schema.org/draft/2020-12/vocab/applicator":true,"https://json-schema.org/draft/2020-12/vocab/validation":false,"http://a.test/vocabulary":true}}
document http://a.test/m7 {"$schema":"http://json-schema.org/draft-07/schema#"}
dialect http://a.test/d :: Draft202012 items
dialect http://a.test/d #s :: Draft202012 items
dialect http://a.test/m :: Draft202012 items type unevaluatedItems
dialect http://a.test/d e :: Draft7 items type
dialect http://a.test/e #/items :: Draft7 items type
dialect http://a.test/d #/$defs/f :: Draft201909 items type unevaluatedItems

document http://a.test/d {"$schema":"http://a.test/n"}
document http://a.test/n {"$schema":"http://a.test/m7"}
document http://a.test/m7 {"$schema":"http://json-schema.org/draft-07/schema#"}
dialect http://a.test/d :: Draft7 items type
"##;

#[test]
fn lookups(rt: HostRuntime) {
    assert_topics(&rt, rt.alloc(), DOCUMENTS_AND_BASES);
    assert_topics(&rt, rt.alloc(), POINTERS_AND_ANCHORS);
    assert_topics(&rt, rt.alloc(), SCOPES);
    assert_topics(&rt, rt.alloc(), DIALECTS);
}
