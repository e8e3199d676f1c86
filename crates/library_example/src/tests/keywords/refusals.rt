// Values that keywords may not have, and texts that are no pattern: what is said of schemas, each the document at `http://a.test/r`.
use crate::tests::keywords::subject::{documents_of, options_at};
use json_schema_validator::{BuildError, Validator};
use std::alloc::Global;
use std::process::Abort;

fn build(rt: &impl Abort, alloc: Global, schema: &str) -> Result<Validator, BuildError> {
    let documents = documents_of(rt, alloc, "http://a.test/r", schema);
    let options = options_at(rt, alloc, "http://a.test/r");
    options.build(&documents, "")
}

fn assert_outcome(
    rt: &impl Abort,
    alloc: Global,
    built: &Result<Validator, BuildError>,
    schema: &str,
    want: &str,
) {
    match built {
        Ok(_) => assert_eq!(rt; "built", want, "{schema}"),
        Err(error) => {
            let why = error.to_string(alloc).expect(rt, "memory");
            assert_eq!(rt; why.as_str(), want, "{schema}");
        }
    }
}

fn assert_row(rt: &impl Abort, alloc: Global, schema: &str, want: &str) {
    assert_outcome(rt, alloc, &build(rt, alloc, schema), schema, want);
}

// Rows of a schema and why it is refused, or that it is built.
fn assert_outcomes(rt: &impl Abort, alloc: Global, rows: &str) {
    for row in rows.trim().lines() {
        let (schema, want) = row.split_once(" :: ").expect(rt, "a row");
        assert_row(rt, alloc, schema, want);
    }
}

const VALUES: &str = r##"
{"type":["string",5]} :: Keyword value at 'http://a.test/r#/type': expected type name
{"enum":1} :: Keyword value at 'http://a.test/r#/enum': expected list
{"multipleOf":0} :: Keyword value at 'http://a.test/r#/multipleOf': expected positive number
{"multipleOf":-3} :: Keyword value at 'http://a.test/r#/multipleOf': expected positive number
{"maximum":"3"} :: Keyword value at 'http://a.test/r#/maximum': expected number
{"exclusiveMaximum":"3"} :: Keyword value at 'http://a.test/r#/exclusiveMaximum': expected number
{"minimum":null} :: Keyword value at 'http://a.test/r#/minimum': expected number
{"exclusiveMinimum":true} :: Keyword value at 'http://a.test/r#/exclusiveMinimum': expected number
{"maxLength":-1} :: Keyword value at 'http://a.test/r#/maxLength': expected count
{"minProperties":null} :: Keyword value at 'http://a.test/r#/minProperties': expected count
{"maxProperties":-1} :: Keyword value at 'http://a.test/r#/maxProperties': expected count
{"uniqueItems":1} :: Keyword value at 'http://a.test/r#/uniqueItems': expected boolean
{"required":["a","a"]} :: Keyword value at 'http://a.test/r#/required': expected unique names
{"required":["a","b","a"]} :: Keyword value at 'http://a.test/r#/required': expected unique names
{"required":["a",1]} :: Keyword value at 'http://a.test/r#/required': expected unique names
{"required":"a"} :: Keyword value at 'http://a.test/r#/required': expected unique names
{"dependentRequired":[]} :: Keyword value at 'http://a.test/r#/dependentRequired': expected object
{"dependentRequired":{"x/y":5}} :: Keyword value at 'http://a.test/r#/dependentRequired/x~1y': expected list
{"dependentRequired":{"x":["a","a"]}} :: Keyword value at 'http://a.test/r#/dependentRequired/x': expected unique names
{"dependentRequired":{"x":["a",1]}} :: Keyword value at 'http://a.test/r#/dependentRequired': expected unique names
{"anyOf":{}} :: Keyword value at 'http://a.test/r#/anyOf': expected list
{"anyOf":[true,5]} :: Keyword value at 'http://a.test/r#/anyOf/1': expected schema
{"oneOf":true} :: Keyword value at 'http://a.test/r#/oneOf': expected list
{"oneOf":[[]]} :: Keyword value at 'http://a.test/r#/oneOf/0': expected schema
{"not":[]} :: Keyword value at 'http://a.test/r#/not': expected schema
{"not":{"anyOf":1}} :: Keyword value at 'http://a.test/r#/not/anyOf': expected list
{"$schema":"http://json-schema.org/draft-07/schema#","items":[],"additionalItems":1} :: Keyword value at 'http://a.test/r#/additionalItems': expected schema
{"if":5,"then":true} :: Keyword value at 'http://a.test/r#/if': expected schema
{"if":[],"else":{}} :: Keyword value at 'http://a.test/r#/if': expected schema
{"if":true,"then":null} :: Keyword value at 'http://a.test/r#/then': expected schema
{"if":{},"else":"a"} :: Keyword value at 'http://a.test/r#/else': expected schema
{"if":5,"then":6} :: Keyword value at 'http://a.test/r#/if': expected schema
{"if":{"type":5},"then":true} :: Keyword value at 'http://a.test/r#/if/type': expected type name
{"if":true,"then":{"type":5}} :: Keyword value at 'http://a.test/r#/then/type': expected type name
{"if":true,"else":{"minLength":-1}} :: Keyword value at 'http://a.test/r#/else/minLength': expected count
{"$schema":"http://json-schema.org/draft-07/schema#","if":"x","then":true} :: Keyword value at 'http://a.test/r#/if': expected schema
{"contains":[]} :: Keyword value at 'http://a.test/r#/contains': expected schema
{"contains":{},"minContains":-1} :: Keyword value at 'http://a.test/r#/minContains': expected count
{"contains":{},"maxContains":"1"} :: Keyword value at 'http://a.test/r#/maxContains': expected count
{"contains":{"maxItems":null}} :: Keyword value at 'http://a.test/r#/contains/maxItems': expected count
{"dependencies":[]} :: Keyword value at 'http://a.test/r#/dependencies': expected object
{"dependencies":{"a":["b","b"]}} :: Keyword value at 'http://a.test/r#/dependencies/a': expected unique names
{"dependencies":{"a":["b",1]}} :: Keyword value at 'http://a.test/r#/dependencies': expected unique names
{"dependencies":{"x/y":5}} :: Keyword value at 'http://a.test/r#/dependencies/x~1y': expected schema
{"dependencies":{"a":{},"b":null}} :: Keyword value at 'http://a.test/r#/dependencies/b': expected schema
{"dependencies":{"a":{"type":5}}} :: Keyword value at 'http://a.test/r#/dependencies/a/type': expected type name
{"$schema":"http://json-schema.org/draft-04/schema#","dependencies":{"a":"b"}} :: Keyword value at 'http://a.test/r#/dependencies/a': expected schema
{"prefixItems":{}} :: Keyword value at 'http://a.test/r#/prefixItems': expected list
{"$ref":5} :: Keyword value at 'http://a.test/r#/$ref': expected text
{"dependentSchemas":[]} :: Keyword value at 'http://a.test/r#/dependentSchemas': expected object
{"propertyNames":{"maxLength":-1}} :: Keyword value at 'http://a.test/r#/propertyNames/maxLength': expected count
{"propertyNames":{"items":5}} :: Keyword value at 'http://a.test/r#/propertyNames/items': expected schema
{"additionalProperties":[]} :: Keyword value at 'http://a.test/r#/additionalProperties': expected schema
{"properties":{"a":true},"additionalProperties":null} :: Keyword value at 'http://a.test/r#/additionalProperties': expected schema
{"additionalProperties":{"additionalProperties":1}} :: Keyword value at 'http://a.test/r#/additionalProperties/additionalProperties': expected schema
{"properties":3,"additionalProperties":false} :: Keyword value at 'http://a.test/r#/properties': expected object
{"pattern":3} :: Keyword value at 'http://a.test/r#/pattern': expected text
{"patternProperties":[]} :: Keyword value at 'http://a.test/r#/patternProperties': expected object
{"patternProperties":{"a":3}} :: Keyword value at 'http://a.test/r#/patternProperties/a': expected schema
"##;

// Patterns count only where a validator comes by them.
const PATTERNS: &str = r##"
{"pattern":"a("} :: Pattern at 'http://a.test/r#/pattern' is refused
{"additionalProperties":false,"patternProperties":{"a/b~(":{}}} :: Pattern at 'http://a.test/r#/patternProperties/a~1b~0(' is refused
{"properties":{"x":{"pattern":"["}}} :: Pattern at 'http://a.test/r#/properties/x/pattern' is refused
{"$defs":{"u":{"pattern":"("}}} :: built
{"$schema":"http://json-schema.org/draft-07/schema#","$ref":"#/definitions/a","pattern":"(","definitions":{"a":{}}} :: built
"##;

#[test]
fn schemas_that_are_refused(rt: HostRuntime) {
    assert_outcomes(&rt, rt.alloc(), VALUES);
    assert_outcomes(&rt, rt.alloc(), PATTERNS);
}
