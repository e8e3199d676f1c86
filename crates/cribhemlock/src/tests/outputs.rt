// What the program writes in each form.
use crate::tests::whole::{Row, SOUND, assert_outcomes};

const OBJECTS: [Row; 3] = [
    (
        &["plain.json", "--output", "json"],
        "\"a\"\n",
        "0 {\"errors\":[],\"valid\":true}\n ",
    ),
    (
        &["--output=json", "plain.json"],
        "\"a\"\n1\n\n{\n1.5",
        r#"1 {"errors":[],"valid":true}
{"errors":[{"description":"1 is not of type string","evaluation_path":"/type","instance_path":"","keyword_location":"json-schema:///#/type","kind":"Types","names":["string"],"schema_path":"/type"}],"valid":false}
{"column":0,"line":1,"reason":"EOF while parsing at line 1 column 0","valid":null}
{"column":1,"line":1,"reason":"EOF while parsing at line 1 column 1","valid":null}
{"column":1,"line":1,"reason":"a number is no whole number of 64 bits: 1.5","valid":null}
 "#,
    ),
    (&["plain.json", "--output", "json"], "", "0  "),
];

// Each reason of a text that is no value has the place where the reader stopped, if it stopped there. A file has lines of its own.
const REASONS: [Row; 2] = [
    (
        &["plain.json", "--output", "json"],
        "[1,]\n{\"a\" 1}\n 1e999\n[\"a\nno JSON\n",
        r#"1 {"column":4,"line":1,"reason":"invalid JSON at line 1 column 4","valid":null}
{"column":6,"line":1,"reason":"invalid JSON at line 1 column 6","valid":null}
{"column":6,"line":1,"reason":"number out of range at line 1 column 6","valid":null}
{"column":2,"line":1,"reason":"EOF while parsing at line 1 column 2","valid":null}
{"column":1,"line":1,"reason":"invalid JSON at line 1 column 1","valid":null}
 "#,
    ),
    (
        &[
            "plain.json",
            "--output",
            "json",
            "--instance",
            "two.json",
            "--instance",
            "byte",
            "--instance",
            "none",
            "--instance",
            "nested",
            "--instance",
            "deep.json",
        ],
        "",
        r#"1 {"column":1,"line":2,"reason":"invalid JSON at line 2 column 1","valid":null}
{"column":2,"line":1,"reason":"no UTF-8 at line 1 column 2","valid":null}
{"column":1,"line":1,"reason":"EOF while parsing at line 1 column 1","valid":null}
{"column":128,"line":1,"reason":"nested deeper than 127 at line 1 column 128","valid":null}
{"column":7,"line":1,"reason":"a number is no whole number of 64 bits: 1.5 at '/a/0'","valid":null}
 "#,
    ),
];

// A number that is no whole one of 64 bits stands where its text begins. What is in a text, or is a part of another number, is none.
const OTHER_NUMBERS: [Row; 2] = [
    (
        &["plain.json", "--output", "json"],
        "[\"1.5 \\\" 1.5\",11.5,true,1, 1.5]\n{\"a\":[1,-0.5e1]}\n[0,-0.0]\n",
        r#"1 {"column":15,"line":1,"reason":"a number is no whole number of 64 bits: 11.5 at '/1'","valid":null}
{"column":9,"line":1,"reason":"a number is no whole number of 64 bits: -5.0 at '/a/1'","valid":null}
{"column":4,"line":1,"reason":"a number is no whole number of 64 bits: -0.0 at '/1'","valid":null}
 "#,
    ),
    (
        &["plain.json", "--output", "json", "--instance", "lines.json"],
        "",
        r#"1 {"column":5,"line":3,"reason":"a number is no whole number of 64 bits: 2.5 at '/2'","valid":null}
 "#,
    ),
];

// For people a reason stands behind the number of its line.
const SAID: [Row; 1] = [(
    &["plain.json", "--output", "text"],
    "[1,]\n{\"a\" 1}\n1e999\n[\"a\nno JSON\n1.5\n",
    r"1 1: invalid JSON at line 1 column 4
2: invalid JSON at line 1 column 6
3: number out of range at line 1 column 5
4: EOF while parsing at line 1 column 2
5: invalid JSON at line 1 column 1
6: a number is no whole number of 64 bits: 1.5
 lines: 6, valid: 0, not valid: 0, not read: 6
",
)];

// Of several faults each has its object. The paths of a fault in another document begin there, and its evaluation path at the first.
// A fault of several schemas has those of each.
const LINKED_OBJECTS: [Row; 2] = [
    (
        &[
            "root.json",
            "http://a.test/leaf.json=leaf.json",
            "--base",
            "http://a.test/root.json",
            "--output",
            "json",
        ],
        "[1]\n[\"a\",\"b\"]\n",
        r#"1 {"errors":[{"description":"1 is not of type string","evaluation_path":"/items/$ref/type","instance_path":"/0","keyword_location":"http://a.test/leaf.json#/type","kind":"Types","names":["string"],"schema_path":"/type"},{"description":"[1] has fewer items than the minimum 2","evaluation_path":"/minItems","instance_path":"","keyword_location":"http://a.test/root.json#/minItems","kind":"MinItems","limit":2,"schema_path":"/minItems"}],"valid":false}
{"errors":[],"valid":true}
 "#,
    ),
    (
        &["either.json", "--output", "json"],
        "{\"a\":1}\n",
        r#"1 {"errors":[{"accepting":0,"context":[[{"evaluation_path":"/properties/a/anyOf/0/type","instance_path":"/a","kind":"Types","schema_path":"/properties/a/anyOf/0/type"}],[{"evaluation_path":"/properties/a/anyOf/1/type","instance_path":"/a","kind":"Types","schema_path":"/properties/a/anyOf/1/type"}]],"description":"1 is to be accepted by a schema of anyOf, and is by 0 of 2\n  anyOf/0: /a: 1 is not of type string\n  anyOf/1: /a: 1 is not of type null","evaluation_path":"/properties/a/anyOf","instance_path":"/a","keyword_location":"json-schema:///#/properties/a/anyOf","kind":"AnyOf","schema_path":"/properties/a/anyOf"}],"valid":false}
 "#,
    ),
];

#[test]
fn objects(rt: HostRuntime) {
    assert_outcomes(&rt, rt.alloc(), &SOUND, &OBJECTS);
    assert_outcomes(&rt, rt.alloc(), &SOUND, &REASONS);
    assert_outcomes(&rt, rt.alloc(), &SOUND, &OTHER_NUMBERS);
    assert_outcomes(&rt, rt.alloc(), &SOUND, &LINKED_OBJECTS);
}

const SENTENCES: [Row; 4] = [
    (
        &["plain.json", "--output", "text"],
        "\"a\"\n1\n\n{\n1.5",
        r"1 2:: 1 is not of type string (json-schema:///#/type)
3: EOF while parsing at line 1 column 0
4: EOF while parsing at line 1 column 1
5: a number is no whole number of 64 bits: 1.5
 lines: 5, valid: 1, not valid: 1, not read: 3
",
    ),
    (
        &["one.json", "--output", "text"],
        "3\n1\n\"a\"\n",
        r#"1 1:: 3 is to be accepted by exactly one schema of oneOf, and is by 2 of 2 (json-schema:///#/oneOf)
  oneOf/0: it is accepted
  oneOf/1: it is accepted
3:: "a" is to be accepted by exactly one schema of oneOf, and is by 2 of 2 (json-schema:///#/oneOf)
  oneOf/0: it is accepted
  oneOf/1: it is accepted
 lines: 3, valid: 1, not valid: 2, not read: 0
"#,
    ),
    (
        &["plain.json", "--output=text"],
        "\"a\"\n\"b\"\n",
        "0  lines: 2, valid: 2, not valid: 0, not read: 0\n",
    ),
    (
        &["plain.json", "--output", "text"],
        "",
        "0  lines: 0, valid: 0, not valid: 0, not read: 0\n",
    ),
];

// Each fault has its line, with its place and where its keyword stands; a sentence of several lines has that behind the first.
const LINKED_SENTENCES: [Row; 3] = [
    (
        &[
            "root.json",
            "http://a.test/leaf.json=leaf.json",
            "--base",
            "http://a.test/root.json",
            "--output",
            "text",
        ],
        "[\"a\",\"b\"]\n[1]\n",
        r"1 2:/0: 1 is not of type string (http://a.test/leaf.json#/type)
2:: [1] has fewer items than the minimum 2 (http://a.test/root.json#/minItems)
 lines: 2, valid: 1, not valid: 1, not read: 0
",
    ),
    (
        &["either.json", "--output", "text"],
        "{\"a\":1}\n",
        r"1 1:/a: 1 is to be accepted by a schema of anyOf, and is by 0 of 2 (json-schema:///#/properties/a/anyOf)
  anyOf/0: /a: 1 is not of type string
  anyOf/1: /a: 1 is not of type null
 lines: 1, valid: 0, not valid: 1, not read: 0
",
    ),
    (
        &[
            "plain.json",
            "--output",
            "text",
            "--instance",
            "short.json",
            "--instance",
            "empty.json",
        ],
        "",
        r"1 short.json:: [1] is not of type string (json-schema:///#/type)
empty.json: EOF while parsing at line 1 column 0
 files: 2, valid: 0, not valid: 1, not read: 1
",
    ),
];

// What each kind of fault says.
const EACH_KIND: [Row; 1] = [(
    &["kinds.json", "--draft", "7", "--output", "text"],
    r#"{"additionalItems":[1,2],"additionalProperties":{"b":2},"anyOf":1,"const":2,"contains":[1],"enum":1,"exclusiveMaximum":5,"exclusiveMinimum":5,"false":1,"maxItems":[1,2],"maxLength":"ab","maxProperties":{"a":1},"maximum":6,"minItems":[],"minLength":"ab","minProperties":{},"minimum":4,"multipleOf":3,"not":1,"oneOf":1,"oneOfTwice":5,"pattern":"a","propertyNames":{"ab":1},"required":{},"type":1,"uniqueItems":[1,1]}
"#,
    r#"1 1:/additionalItems: [1,2] has an item that is not allowed (json-schema:///#/properties/additionalItems/additionalItems)
1:/additionalProperties: {"b":2} has members that are not allowed: "b" (json-schema:///#/properties/additionalProperties/additionalProperties)
1:/anyOf: 1 is to be accepted by a schema of anyOf, and is by 0 of 1 (json-schema:///#/properties/anyOf/anyOf)
  anyOf/0: /anyOf: 1 is not of type null
1:/const: 2 differs from the constant 1 (json-schema:///#/properties/const/const)
1:/contains: [1] has too few or too many items that contains accepts (json-schema:///#/properties/contains/contains)
1:/enum: 1 is none of the values ["a",null] (json-schema:///#/properties/enum/enum)
1:/exclusiveMaximum: 5 is not below the exclusive maximum 5 (json-schema:///#/properties/exclusiveMaximum/exclusiveMaximum)
1:/exclusiveMinimum: 5 is not above the exclusive minimum 5 (json-schema:///#/properties/exclusiveMinimum/exclusiveMinimum)
1:/false: 1 is refused by the schema false (json-schema:///#/properties/false)
1:/maxItems: [1,2] has more items than the maximum 1 (json-schema:///#/properties/maxItems/maxItems)
1:/maxLength: "ab" has more characters than the maximum 1 (json-schema:///#/properties/maxLength/maxLength)
1:/maxProperties: {"a":1} has more members than the maximum 0 (json-schema:///#/properties/maxProperties/maxProperties)
1:/maximum: 6 is above the maximum 5 (json-schema:///#/properties/maximum/maximum)
1:/minItems: [] has fewer items than the minimum 3 (json-schema:///#/properties/minItems/minItems)
1:/minLength: "ab" has fewer characters than the minimum 3 (json-schema:///#/properties/minLength/minLength)
1:/minProperties: {} has fewer members than the minimum 2 (json-schema:///#/properties/minProperties/minProperties)
1:/minimum: 4 is below the minimum 5 (json-schema:///#/properties/minimum/minimum)
1:/multipleOf: 3 is not a multiple of 2 (json-schema:///#/properties/multipleOf/multipleOf)
1:/not: 1 is accepted by the schema of not: {"type":"integer"} (json-schema:///#/properties/not/not)
1:/oneOf: 1 is to be accepted by exactly one schema of oneOf, and is by 0 of 1 (json-schema:///#/properties/oneOf/oneOf)
  oneOf/0: /oneOf: 1 is not of type null
1:/oneOfTwice: 5 is to be accepted by exactly one schema of oneOf, and is by 2 of 2 (json-schema:///#/properties/oneOfTwice/oneOf)
  oneOf/0: it is accepted
  oneOf/1: it is accepted
1:/pattern: "a" does not match the pattern "^b" (json-schema:///#/properties/pattern/pattern)
1:/propertyNames: {"ab":1} has a name that is refused: "ab" has more characters than the maximum 1 (json-schema:///#/properties/propertyNames/propertyNames/maxLength)
1:/required: {} has no member of the required name "a" (json-schema:///#/properties/required/required)
1:/type: 1 is not of type string (json-schema:///#/properties/type/type)
1:/uniqueItems: [1,1] has items that are equal (json-schema:///#/properties/uniqueItems/uniqueItems)
 lines: 1, valid: 0, not valid: 1, not read: 0
"#,
)];

#[test]
fn sentences(rt: HostRuntime) {
    assert_outcomes(&rt, rt.alloc(), &SOUND, &SENTENCES);
    assert_outcomes(&rt, rt.alloc(), &SOUND, &SAID);
    assert_outcomes(&rt, rt.alloc(), &SOUND, &LINKED_SENTENCES);
    assert_outcomes(&rt, rt.alloc(), &SOUND, &EACH_KIND);
}

const PAIRS: [Row; 1] = [(
    &["plain.json", "--output", "pairs"],
    "\"a\"\n1\n",
    "1 []\n[[\"\",\"/type\"]]\n ",
)];

const NOTHING: [Row; 3] = [
    (&["plain.json", "--output", "none"], "\"a\"\n", "0  "),
    (&["plain.json", "--output", "none"], "\"a\"\n1\n", "1  "),
    (&["plain.json", "--output", "none"], "\"a\"\n\n", "1  "),
];

// Where nothing is to be written, a writer that fails is not asked.
#[test]
fn pairs_and_nothing(rt: HostRuntime) {
    assert_outcomes(&rt, rt.alloc(), &SOUND, &PAIRS);
    assert_outcomes(&rt, rt.alloc(), &SOUND, &NOTHING);
    assert_outcomes(&rt, rt.alloc(), &[None, Some(0), None], &NOTHING);
}

const REFUSED: [Row; 2] = [
    (
        &["absent", "--output", "xml"],
        "1\n",
        "2  words refused: --output xml\n",
    ),
    (
        &["plain.json", "--output", ""],
        "1\n",
        "2  words refused: --output \n",
    ),
];

#[test]
fn other_words(rt: HostRuntime) {
    assert_outcomes(&rt, rt.alloc(), &SOUND, &REFUSED);
}

const STOPPED: [Row; 2] = [
    (
        &["plain.json", "--output", "json"],
        "\"a\"\n",
        "3 {\"e Writing failed\n",
    ),
    (
        &["plain.json", "--output", "text"],
        "1\n",
        "3 1:: Writing failed\n",
    ),
];

#[test]
fn stopped(rt: HostRuntime) {
    assert_outcomes(&rt, rt.alloc(), &[None, Some(3), None], &STOPPED);
}
