// What is said of refusals where the output is for people.
use crate::tests::whole::{Row, SOUND, assert_outcomes, assert_told};
use std::alloc::Global;
use std::process::Abort;

const WORDS: [Row; 6] = [
    (
        &["plain.json", "u:x", "--output", "text"],
        "1\n",
        r"2  words refused: u:x
  a further document is given as URI=FILE
",
    ),
    (
        &["plain.json", "--draft", "5", "--output", "json"],
        "1\n",
        r"2  words refused: --draft 5
  the drafts are 4, 6, 7, 2019-09 and 2020-12
",
    ),
    (
        &["absent", "--output", "text"],
        "1\n",
        r"2  file refused: absent
  it is not there, is not read, or holds something else than is asked of it
",
    ),
    (
        &["own.json", "--meta", "nameless.json", "--output", "json"],
        "1\n",
        r"2  file refused: nameless.json
  it is not there, is not read, or is no JSON list of schemas with an identifier each
",
    ),
    (
        &["absent", "--base", "%", "--output", "text"],
        "1\n",
        r"2  build refused: Invalid URI '%'
  the URI of the schema's own file is given by --base
",
    ),
    (
        &["plain.json", "u:x", "--output", "none"],
        "1\n",
        "2  words refused: u:x\n",
    ),
];

const DOCUMENTS: [Row; 5] = [
    (
        &["plain.json", "u:x=none", "--output", "text"],
        "1\n",
        r"2  build refused: Document 'u:x' is no JSON text
  in the file 'none': it is no JSON text, from line 1, column 1 on
",
    ),
    (
        &["half", "--output", "json"],
        "1\n",
        r"2  build refused: Number at 'json-schema:///#' is no whole number of 64 bits
  in the file 'half': 1.5 is no whole number from -2^63 to 2^64-1
",
    ),
    (
        &[
            "plain.json",
            "HTTP://a.test/%7ex=deep.json",
            "--output",
            "text",
        ],
        "1\n",
        r"2  build refused: Number at 'http://a.test/~x#/a/0' is no whole number of 64 bits
  in the file 'deep.json' at '/a/0': 1.5 is no whole number from -2^63 to 2^64-1
",
    ),
    (
        &["plain.json", "--meta", "broken.json", "--output", "text"],
        "1\n",
        r"2  build refused: Number at 'http://a.test/m6#/a' is no whole number of 64 bits
  in the file 'broken.json' at 'http://a.test/m6#/a': 0.5 is no whole number from -2^63 to 2^64-1
",
    ),
    (
        &["plain.json", "u:x#a=true.json", "--output", "text"],
        "1\n",
        r"2  build refused: Invalid URI 'u:x#a'
  in the file 'true.json': The text 'u:x#a' is no URI of a document
",
    ),
];

// Texts that name nothing.
const MISNAMED: [Row; 13] = [
    (
        &["astray.json", "--output", "text"],
        "1\n",
        r#"2  build refused: Invalid URI '%'
  in the file 'astray.json' at '/$id': The reference "%" is refused: '%' is no URI reference taken here
"#,
    ),
    (
        &["astray.json"],
        "1\n",
        "2  build refused: Invalid URI '%'\n",
    ),
    (
        &["plain.json", "u:x=adrift.json", "--output", "json"],
        "1\n",
        r#"2  build refused: Invalid URI 'a b'
  in the file 'adrift.json' at '/items/$ref': The reference "a b#/x" is refused: 'a b' is no URI reference taken here
"#,
    ),
    (
        &["amiss.json", "--output", "text"],
        "1\n",
        r#"2  build refused: Invalid URI '%'
  in the file 'amiss.json' at '/$schema': The reference "%" is refused: '%' is no URI reference taken here
"#,
    ),
    (
        &["fourth.json", "--output", "text"],
        "1\n",
        r#"2  build refused: Invalid URI '%'
  in the file 'fourth.json' at '/id': The reference "%" is refused: '%' is no URI reference taken here
"#,
    ),
    (
        &["adrift.json", "u:x=astray.json", "--output", "text"],
        "1\n",
        r#"2  build refused: Invalid URI 'a b'
  in the file 'adrift.json' at '/items/$ref': The reference "a b#/x" is refused: 'a b' is no URI reference taken here
  in the file 'astray.json' at '/$id': The reference "%" is refused: '%' is no URI reference taken here
"#,
    ),
    (
        &["both.json", "--output", "text"],
        "1\n",
        r#"2  build refused: Resource 'u:a' is not present and retrieving it failed
  in the file 'both.json' at '/allOf/0/$ref': The reference "u:a" is refused: the document 'u:a' is not present
  in the file 'both.json' at '/$id': The reference "%" is refused: '%' is no URI reference taken here
  the documents at hand are
    'json-schema:///' in the file 'both.json'
"#,
    ),
    (
        &["plain.json", "--meta", "misnamed.json", "--output", "text"],
        "1\n",
        r"2  build refused: Invalid URI '%'
  in the file 'misnamed.json': The text '%' is no URI of a document
",
    ),
    (
        &[
            "plain.json",
            "http://a.test/c=circle.json",
            "--output",
            "json",
        ],
        "1\n",
        r#"2  build refused: Circular meta-schema 'http://a.test/c'
  in the file 'circle.json' at '/$schema': The reference "http://a.test/c" is refused: the meta-schema 'http://a.test/c' waits for itself
"#,
    ),
    (
        &[
            "plain.json",
            "http://a.test/c=there.json",
            "http://a.test/d=back.json",
            "--output",
            "text",
        ],
        "1\n",
        r#"2  build refused: Circular meta-schema 'http://a.test/c'
  in the file 'there.json' at '/$schema': The reference "http://a.test/d" is refused: the meta-schema 'http://a.test/c' waits for itself
  in the file 'back.json' at '/$schema': The reference "http://a.test/c" is refused: the meta-schema 'http://a.test/d' waits for itself
"#,
    ),
    (
        &["plain.json", "--meta", "round.json", "--output", "text"],
        "1\n",
        r#"2  build refused: Circular meta-schema 'http://a.test/m9'
  in the file 'round.json' at 'http://a.test/m9#/$schema': The reference "http://a.test/m9" is refused: the meta-schema 'http://a.test/m9' waits for itself
"#,
    ),
    (
        &["circle.json", "--output", "text"],
        "1\n",
        r#"2  build refused: Unknown meta-schema 'http://a.test/c'
  in the file 'circle.json' at '/$schema': The reference "http://a.test/c" is refused: the meta-schema 'http://a.test/c' is not known
  in the file 'circle.json' at '/$schema': The reference "http://a.test/c" is refused: the meta-schema 'http://a.test/c' waits for itself
  a file with a list of meta-schemas is given by --meta
"#,
    ),
    (
        &[
            "newest.json",
            "u:b=turning.json",
            "--base",
            "http://a.test/m",
            "--output",
            "text",
        ],
        "1\n",
        r"2  build refused: Circular meta-schema 'http://a.test/m'
  The documents are refused: the meta-schema 'http://a.test/m' waits for itself
  'http://a.test/m' is in the file 'newest.json'
",
    ),
];

const BUILDS: [Row; 22] = [
    (
        &["wrong.json", "--output", "text"],
        "1\n",
        r"2  build refused: Keyword value at 'json-schema:///#/type': expected type name
  in the file 'wrong.json' at '/type': Expected type name, found 5
",
    ),
    (
        &[
            "root.json",
            "u:other=plain.json",
            "--base",
            "http://a.test/root.json",
            "--output",
            "text",
        ],
        "1\n",
        r#"2  build refused: Resource 'http://a.test/leaf.json' is not present and retrieving it failed
  in the file 'root.json' at '/items/$ref': The reference "leaf.json" is refused: the document 'http://a.test/leaf.json' is not present
  the documents at hand are
    'http://a.test/root.json' in the file 'root.json'
    'u:other' in the file 'plain.json'
"#,
    ),
    (
        &[
            "root.json",
            "u:x=true.json",
            "U:x=plain.json",
            "--base",
            "http://a.test/root.json",
            "--meta",
            "meta.json",
            "--output",
            "text",
        ],
        "1\n",
        r#"2  warning: document 'U:x' in the file 'plain.json' replaces the one in the file 'true.json'
build refused: Resource 'http://a.test/leaf.json' is not present and retrieving it failed
  in the file 'root.json' at '/items/$ref': The reference "leaf.json" is refused: the document 'http://a.test/leaf.json' is not present
  the documents at hand are
    'http://a.test/root.json' in the file 'root.json'
    'U:x' in the file 'plain.json'
    those of the file 'meta.json'
"#,
    ),
    (
        &["own.json", "--output", "text"],
        "1\n",
        r#"2  build refused: Unknown meta-schema 'http://a.test/m2'
  in the file 'own.json' at '/$schema': The reference "http://a.test/m2" is refused: the meta-schema 'http://a.test/m2' is not known
  a file with a list of meta-schemas is given by --meta
"#,
    ),
    (
        &["lost.json", "u:c=own.json", "--output", "text"],
        "1\n",
        r#"2  build refused: Resource 'u:a' is not present and retrieving it failed
  in the file 'lost.json' at '/allOf/0/$ref': The reference "u:a" is refused: the document 'u:a' is not present
  in the file 'lost.json' at '/allOf/1/$ref': The reference "u:b#/x" is refused: the document 'u:b' is not present
  in the file 'own.json' at '/$schema': The reference "http://a.test/m2" is refused: the meta-schema 'http://a.test/m2' is not known
  the documents at hand are
    'json-schema:///' in the file 'lost.json'
    'u:c' in the file 'own.json'
  a file with a list of meta-schemas is given by --meta
"#,
    ),
    (
        &["lost.json", "--meta", "led.json", "--output", "json"],
        "1\n",
        r#"2  build refused: Resource 'u:b' is not present and retrieving it failed
  in the file 'led.json' at 'http://a.test/m8#/$ref': The reference "u:b" is refused: the document 'u:b' is not present
  the documents at hand are
    'json-schema:///' in the file 'lost.json'
    those of the file 'led.json'
"#,
    ),
    (
        &["refused.json", "--meta", "meta.json", "--output", "json"],
        "1\n",
        r#"2  build refused: Schema refused by its meta-schema at '/type', '/properties/type/type'
  in the file 'refused.json' at '/type': The meta-schema refuses it by '/properties/type/type': ["string"] is not of type string
"#,
    ),
    (
        &["loose.json", "--meta", "strict.json", "--output", "text"],
        "1\n",
        r#"2  build refused: Schema refused by its meta-schema at '/type', '/properties/type/type'
  in the file 'loose.json' at '/type': The meta-schema refuses it by '/properties/type/type': ["string"] is not of type string
  in the file 'loose.json': The meta-schema refuses it by '/required': {"$schema":"http://a.test/m3","type":["string"]} has no member of the required name "description"
"#,
    ),
    (
        &[
            "plain.json",
            "json-schema:///=loose.json",
            "--meta",
            "strict.json",
            "--output",
            "text",
        ],
        "1\n",
        r#"2  warning: document 'json-schema:///' in the file 'loose.json' replaces the one in the file 'plain.json'
build refused: Schema refused by its meta-schema at '/type', '/properties/type/type'
  in the file 'loose.json' at '/type': The meta-schema refuses it by '/properties/type/type': ["string"] is not of type string
  in the file 'loose.json': The meta-schema refuses it by '/required': {"$schema":"http://a.test/m3","type":["string"]} has no member of the required name "description"
"#,
    ),
    (
        &["looser.json", "--meta", "strict.json", "--output", "json"],
        "1\n",
        r#"2  build refused: Keyword value at 'json-schema:///#/minItems': expected count
  in the file 'looser.json' at '/minItems': Expected count, found "1"
  in the file 'looser.json': The meta-schema refuses it by '/required': {"$schema":"http://a.test/m3","minItems":"1"} has no member of the required name "description"
"#,
    ),
    (
        &["nowhere.json", "--output", "text"],
        "1\n",
        r##"2  build refused: Pointer '/$defs/none' does not exist
  in the file 'nowhere.json' at '/$ref': The reference "#/$defs/none" is refused: nothing stands at the pointer '/$defs/none'
"##,
    ),
    (
        &["anchor.json", "--output", "text"],
        "1\n",
        "2  build refused: Anchor 'a\nb' does not exist\n  in the file 'anchor.json' at '/$ref': The reference \"#a\\nb\" is refused: no schema there has the anchor 'a\nb'\n",
    ),
    (
        &["refs.json", "--output", "text"],
        "1\n",
        r##"2  build refused: Anchor 'none' does not exist
  in the file 'refs.json' at '/allOf/0/$ref': The reference "#none" is refused: no schema there has the anchor 'none'
  in the file 'refs.json' at '/allOf/1/$ref': The reference "#a/b" is refused: 'a/b' is no anchor
  in the file 'refs.json' at '/allOf/2/$ref': The reference "#/%ff" is refused: the pointer '/%ff' is no text decoded
  in the file 'refs.json' at '/allOf/3/$ref': The reference "#/allOf/x" is refused: 'x' is no index of an array
"##,
    ),
    (
        &["hidden.json", "--output", "text"],
        "1\n",
        r#"2  warning: keyword "x" in the file 'hidden.json' at '/x' is unknown to draft 2020-12
build refused: Resource 'u:a' is not present and retrieving it failed
  in the file 'hidden.json' at '/x/$ref': The reference "u:a" is refused: the document 'u:a' is not present
  the documents at hand are
    'json-schema:///' in the file 'hidden.json'
"#,
    ),
    (
        &["dynamic.json", "--output", "json"],
        "1\n",
        r##"2  build refused: Anchor 'none' does not exist
  in the file 'dynamic.json' at '/$dynamicRef': The reference "#none" is refused: no schema there has the anchor 'none'
"##,
    ),
    (
        &["several.json", "--output", "text"],
        "1\n",
        r#"2  build refused: Keyword value at 'json-schema:///#/minItems': expected count
  in the file 'several.json' at '/minItems': Expected count, found "1"
  in the file 'several.json' at '/type': Expected type name, found 5
  in the file 'several.json' at '/properties/a/maxItems': Expected count, found -1
  in the file 'several.json' at '/properties/a/pattern': The pattern "(" is refused
"#,
    ),
    (
        &["mended.json", "--meta", "bad.json", "--output", "text"],
        "1\n",
        r"2  build refused: Keyword value at 'http://a.test/m5#/type': expected type name
  in the file 'bad.json' at 'http://a.test/m5#/type': Expected type name, found 5
",
    ),
    (
        &["left.json", "--output", "json"],
        "1\n",
        r"2  build refused: Keyword at 'json-schema:///#/items/unevaluatedItems' is left out
  in the file 'left.json' at '/items/unevaluatedItems': The keyword is left out by this library
",
    ),
    (
        &["plain.json", "--instance", "absent", "--output", "text"],
        "1\n",
        r"2  file refused: absent
  it is not there, is not read, or holds something else than is asked of it
",
    ),
    (
        &["plain.json", "--check", "absent", "--output", "json"],
        "1\n",
        r"2  file refused: absent
  it is not there, is not read, or holds something else than is asked of it
",
    ),
    (
        &[
            "root.json",
            "--check",
            "right",
            "--base",
            "http://a.test/root.json",
            "--output",
            "text",
        ],
        "1\n",
        r#"2  build refused: Resource 'http://a.test/leaf.json' is not present and retrieving it failed
  in the file 'root.json' at '/items/$ref': The reference "leaf.json" is refused: the document 'http://a.test/leaf.json' is not present
  the documents at hand are
    'http://a.test/root.json' in the file 'root.json'
"#,
    ),
    (
        &["several.json"],
        "1\n",
        "2  build refused: Keyword value at 'json-schema:///#/minItems': expected count\n",
    ),
];

#[test]
fn said_of_refusals(rt: HostRuntime) {
    assert_outcomes(&rt, rt.alloc(), &SOUND, &WORDS);
    assert_outcomes(&rt, rt.alloc(), &SOUND, &DOCUMENTS);
    assert_outcomes(&rt, rt.alloc(), &SOUND, &MISNAMED);
    assert_outcomes(&rt, rt.alloc(), &SOUND, &BUILDS);
}

// References to more documents that are not there than would be asked for: a schema, and what is told of it.
fn many_absent(rt: &impl Abort, alloc: Global) -> (String, String) {
    let mut schema = String::from_str(alloc, "{\"allOf\":[true").expect(rt, "memory");
    let mut told = String::from_str(
        alloc,
        "2  build refused: More than 256 documents wanted\n",
    ).expect(rt, "memory");
    for number in 1..258 {
        write!(schema, ",{{\"$ref\":\"u:{number}\"}}").expect(rt, "memory");
        write!(
            told,
            "  in the file 'many.json' at '/allOf/{number}/$ref': The reference \"u:{number}\" is refused: the document 'u:{number}' is not present\n"
        )
        .expect(rt, "memory");
    }
    schema.push_str("]}").expect(rt, "memory");
    told.push_str("  the documents at hand are\n    'json-schema:///' in the file 'many.json'\n")
        .expect(rt, "memory");
    (schema, told)
}

#[test]
fn more_absent_than_asked_for(rt: HostRuntime) {
    let alloc = rt.alloc();
    let (schema, told) = many_absent(&rt, alloc);
    let (words, file) = (
        ["many.json", "--output", "text"],
        ("many.json", schema.as_str()),
    );
    assert_told(&rt, alloc, &words, file, told.as_str());
}

// A list of more schemas than may be reached.
fn many_schemas(rt: &impl Abort, alloc: Global) -> String {
    let mut schema = String::from_str(alloc, "{\"prefixItems\":[{}").expect(rt, "memory");
    for _ in 0..65_536 {
        schema.push_str(",{}").expect(rt, "memory");
    }
    schema.push_str("]}").expect(rt, "memory");
    schema
}

#[test]
fn more_schemas_than_allowed(rt: HostRuntime) {
    let alloc = rt.alloc();
    let schema = many_schemas(&rt, alloc);
    let (words, file) = (
        ["many.json", "--output", "text"],
        ("many.json", schema.as_str()),
    );
    let told =
        "2  build refused: More than 65536 schema nodes\n  More than 65536 schemas are reached\n";
    assert_told(&rt, alloc, &words, file, told);
}
