// Vocabularies by their URIs, sets of them, and keywords with and without their vocabulary.
use crate::rows::{assert_answer, assert_text};
use schema_dialects::{Dialect, MetaSchemas, Vocabulary, VocabularySet, counts, find_vocabularies};
use schema_drafts::draft::Draft;
use serde_json::Value;
use std::alloc::Global;
use std::process::Abort;

// A text, and the vocabulary that it names, or what is said of a text that is no URI.
const NAMED: [(&str, &str); 19] = [
    ("https://json-schema.org/draft/2019-09/vocab/core", "Core"),
    (
        "https://json-schema.org/draft/2019-09/vocab/applicator",
        "Applicator",
    ),
    (
        "https://json-schema.org/draft/2019-09/vocab/validation",
        "Validation",
    ),
    (
        "https://json-schema.org/draft/2019-09/vocab/meta-data",
        "Metadata",
    ),
    (
        "https://json-schema.org/draft/2019-09/vocab/format",
        "Format",
    ),
    (
        "https://json-schema.org/draft/2019-09/vocab/content",
        "Content",
    ),
    ("https://json-schema.org/draft/2020-12/vocab/core", "Core"),
    (
        "https://json-schema.org/draft/2020-12/vocab/applicator",
        "Applicator",
    ),
    (
        "https://json-schema.org/draft/2020-12/vocab/unevaluated",
        "Unevaluated",
    ),
    (
        "https://json-schema.org/draft/2020-12/vocab/validation",
        "Validation",
    ),
    (
        "https://json-schema.org/draft/2020-12/vocab/meta-data",
        "Metadata",
    ),
    (
        "https://json-schema.org/draft/2020-12/vocab/format-annotation",
        "FormatAnnotation",
    ),
    (
        "https://json-schema.org/draft/2020-12/vocab/format-assertion",
        "FormatAssertion",
    ),
    (
        "https://json-schema.org/draft/2020-12/vocab/content",
        "Content",
    ),
    (
        "https://example.com/vocab#",
        r#"Custom("https://example.com/vocab#")"#,
    ),
    ("", "Invalid URI ''"),
    ("vocab/core", "Invalid URI 'vocab/core'"),
    ("//a.test/core", "Invalid URI '//a.test/core'"),
    ("http://a b", "Invalid URI 'http://a b'"),
];

fn parsed(rt: &impl Abort, alloc: Global, text: &str) -> String {
    match Vocabulary::parse(alloc, text) {
        Ok(vocabulary) => format!(in alloc; "{vocabulary:?}").expect(rt, "memory"),
        Err(error) => format!(in alloc; "{error}").expect(rt, "memory"),
    }
}

#[test]
fn texts_name_vocabularies(rt: HostRuntime) {
    for (text, want) in &NAMED {
        assert_text(&rt, text, parsed(&rt, rt.alloc(), text), want);
    }
}

#[test]
fn custom_ones_come_last(rt: HostRuntime) {
    let alloc = rt.alloc();
    let custom = Vocabulary::parse(alloc, "https://example.com/vocab#").expect(&rt, "a URI");
    let uri = String::from_str(alloc, "https://example.com/vocab#").expect(&rt, "memory");
    assert!(rt; custom == Vocabulary::Custom(uri));
    assert!(rt; Vocabulary::Content < custom);
}

fn named(rt: &impl Abort, alloc: Global, text: &str) -> Vocabulary {
    Vocabulary::named(alloc, text).expect(rt, "memory")
}

fn assert_known(rt: &impl Abort, set: &VocabularySet, rows: &[(Vocabulary, bool)]) {
    for (vocabulary, want) in rows {
        assert!(rt; set.contains(vocabulary) == *want, "{vocabulary:?}");
    }
}

fn assert_named(rt: &impl Abort, alloc: Global, set: &VocabularySet, rows: &[(&str, bool)]) {
    for (text, want) in rows {
        assert_answer(rt, text, set.contains(&named(rt, alloc, text)), *want);
    }
}

// Each draft, whether a reference is beside the keyword, the keyword, and whether it counts.
fn assert_counts(rt: &impl Abort, set: &VocabularySet, rows: &[(Draft, bool, &str, bool)]) {
    for (draft, beside_ref, name, want) in rows {
        assert_answer(rt, name, counts(*draft, set, *beside_ref, name), *want);
    }
}

fn customs(rt: &impl Abort, alloc: Global, set: &VocabularySet) -> String {
    let mut output = String::new(alloc);
    for uri in set.custom() {
        write!(output, "{uri} ").expect(rt, "memory");
    }
    output
}

fn add(rt: &impl Abort, set: &mut VocabularySet, vocabulary: Vocabulary) {
    set.add(vocabulary).expect(rt, "memory");
}

fn add_custom(rt: &impl Abort, alloc: Global, set: &mut VocabularySet, texts: &[&str]) {
    for text in texts {
        add(rt, set, named(rt, alloc, text));
    }
}

const COUNTED_BY_NONE: [(Draft, bool, &str, bool); 4] = [
    (Draft::Draft202012, false, "type", false),
    (Draft::Draft202012, false, "properties", false),
    (Draft::Draft202012, false, "unevaluatedProperties", false),
    (Draft::Draft202012, false, "$dynamicRef", true),
];

const COUNTED_BY_THREE: [(Draft, bool, &str, bool); 5] = [
    (Draft::Draft202012, false, "unevaluatedProperties", true),
    (Draft::Draft202012, false, "title", false),
    (Draft::Draft202012, true, "type", true),
    (Draft::Draft7, true, "type", false),
    (Draft::Draft7, true, "$ref", true),
];

#[test]
fn sets_grow(rt: HostRuntime) {
    let mut set = VocabularySet::new(rt.alloc());
    assert_known(&rt, &set, &[(Vocabulary::Core, false)]);
    assert_counts(&rt, &set, &COUNTED_BY_NONE);
    add(&rt, &mut set, Vocabulary::Validation);
    assert_counts(&rt, &set, &[(Draft::Draft202012, false, "type", true)]);
    add(&rt, &mut set, Vocabulary::Applicator);
    assert_counts(
        &rt,
        &set,
        &[(Draft::Draft202012, false, "properties", true)],
    );
    add(&rt, &mut set, Vocabulary::Unevaluated);
    assert_counts(&rt, &set, &COUNTED_BY_THREE);
    add_custom(&rt, rt.alloc(), &mut set, &["urn:b", "urn:a", "urn:b"]);
    assert_known(&rt, &set, &[(Vocabulary::Core, false)]);
    add(&rt, &mut set, Vocabulary::Core);
    assert_known(
        &rt,
        &set,
        &[(Vocabulary::Core, true), (Vocabulary::Content, false)],
    );
    assert_named(&rt, rt.alloc(), &set, &[("urn:a", true), ("urn:c", false)]);
    assert_text(
        &rt,
        "custom",
        customs(&rt, rt.alloc(), &set),
        "urn:a urn:b ",
    );
}

// A draft, and a vocabulary that is in the set of those that it knows, or is not.
const OF_DRAFTS: [(Draft, Vocabulary, bool); 5] = [
    (Draft::Draft201909, Vocabulary::Format, true),
    (Draft::Draft201909, Vocabulary::Unevaluated, false),
    (Draft::Draft202012, Vocabulary::FormatAnnotation, true),
    (Draft::Draft202012, Vocabulary::FormatAssertion, false),
    (Draft::Draft7, Vocabulary::Core, false),
];

#[test]
fn sets_of_drafts(rt: HostRuntime) {
    for (draft, vocabulary, want) in &OF_DRAFTS {
        let set = VocabularySet::all_of(rt.alloc(), *draft);
        assert!(rt; set.contains(vocabulary) == *want, "{draft:?}");
    }
}

// The example of Core 8.1.2, with a custom vocabulary that is not required and a name that is no URI.
const EXAMPLE: &str = r#"{"$id": "https://example.com/meta/general-use-example",
    "$vocabulary": {
        "https://json-schema.org/draft/2020-12/vocab/core": true,
        "https://json-schema.org/draft/2020-12/vocab/applicator": true,
        "https://json-schema.org/draft/2020-12/vocab/validation": false,
        "https://example.com/vocab/example-vocab": true,
        "https://example.com/vocab/other": "true",
        "no uri": true}}"#;

// In another order, by the URIs of 2019-09, and with no custom ones.
const ALIKE: &str = r#"{"$vocabulary": {
    "https://json-schema.org/draft/2019-09/vocab/applicator": true,
    "https://json-schema.org/draft/2019-09/vocab/core": true}}"#;

const LISTED: &str = r#"{"$vocabulary": ["https://json-schema.org/draft/2020-12/vocab/core"]}"#;

fn json(rt: &impl Abort, alloc: Global, text: &str) -> Value {
    Value::from_str(alloc, text).expect(rt, "JSON")
}

fn found(rt: &impl Abort, alloc: Global, text: &str) -> VocabularySet {
    let contents = json(rt, alloc, text);
    find_vocabularies(alloc, Draft::Draft202012, &contents).expect(rt, "memory")
}

const KNOWN_TO_EXAMPLE: [(Vocabulary, bool); 3] = [
    (Vocabulary::Core, true),
    (Vocabulary::Applicator, true),
    (Vocabulary::Validation, false),
];

const NAMED_BY_EXAMPLE: [(&str, bool); 3] = [
    ("https://example.com/vocab/example-vocab", true),
    ("https://example.com/vocab/other", false),
    ("no uri", true),
];

const COUNTED_BY_EXAMPLE: [(Draft, bool, &str, bool); 6] = [
    (Draft::Draft202012, false, "items", true),
    (Draft::Draft202012, false, "$ref", true),
    (Draft::Draft202012, false, "minimum", false),
    (Draft::Draft202012, false, "unevaluatedItems", false),
    (Draft::Draft201909, false, "unevaluatedItems", true),
    (Draft::Draft7, false, "minimum", true),
];

#[test]
fn sets_are_found(rt: HostRuntime) {
    let example = found(&rt, rt.alloc(), EXAMPLE);
    assert_known(&rt, &example, &KNOWN_TO_EXAMPLE);
    assert_named(&rt, rt.alloc(), &example, &NAMED_BY_EXAMPLE);
    assert_counts(&rt, &example, &COUNTED_BY_EXAMPLE);
    let whole = found(&rt, rt.alloc(), LISTED);
    assert!(rt; whole.contains(&Vocabulary::Validation));
    assert_counts(&rt, &whole, &[(Draft::Draft202012, false, "minimum", true)]);
}

fn dialect_of(rt: &impl Abort, alloc: Global, draft: Draft, text: &str) -> Dialect {
    Dialect::standard(false, draft).by_meta_schema(&json(rt, alloc, text))
}

#[test]
fn dialects(rt: HostRuntime) {
    let alloc = rt.alloc();
    let dialect = dialect_of(&rt, alloc, Draft::Draft202012, EXAMPLE);
    assert!(rt; dialect.counts(false, "items"));
    assert!(rt; dialect.counts(false, "$ref"));
    assert!(rt; !dialect.counts(false, "minimum"));
    assert!(rt; !dialect.counts(false, "unevaluatedItems"));
    assert!(rt; dialect != Dialect::standard(false, Draft::Draft202012));
    assert!(rt; dialect == dialect_of(&rt, alloc, Draft::Draft202012, ALIKE));
    assert!(rt; dialect != dialect_of(&rt, alloc, Draft::Draft201909, ALIKE));
    let whole = dialect_of(&rt, alloc, Draft::Draft7, r#"{"$vocabulary": true}"#);
    assert!(rt; whole == Dialect::standard(false, Draft::Draft7));
    assert!(rt; !whole.counts(true, "type"));
    assert!(rt; whole.counts(true, "$ref"));
}

#[test]
fn meta_schemas_by_their_uris(rt: HostRuntime) {
    let alloc = rt.alloc();
    let mut known = MetaSchemas::none(alloc);
    assert!(rt; known.get("urn:a").is_none());
    for (uri, draft) in [
        ("urn:a", Draft::Draft4),
        ("urn:b", Draft::Draft6),
        ("urn:a", Draft::Draft7),
    ] {
        let dialect = Dialect::standard(false, draft);
        known.insert(alloc, uri, dialect).expect(&rt, "memory");
    }
    assert!(rt; known.get("urn:a") == Some(Dialect::standard(false, Draft::Draft7)));
    assert!(rt; known.get("urn:b") == Some(Dialect::standard(false, Draft::Draft6)));
    assert!(rt; known.get("urn:c").is_none());
}
