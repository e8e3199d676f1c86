// In which shape compiled keywords ask: which of them ask with no list of questions, and how an `enum` is sought.
use crate::graphs::{graphs_of, prepared};
use crate::rows::assert_text;
use compiled_graphs::each::CompiledEach;
use compiled_keywords::assertion::Assertion;
use compiled_keywords::keyword::Keyword;
use schema_engine::asking::Asking;
use schema_engine::place::Place;
use schema_engine::validate::Validate;
use schema_patterns::bench::ScriptedMatcher;
use serde_json::Value;
use std::alloc::Global;
use std::process::Abort;

// Each row: a schema, a value, and for each of the schema's keywords in turn what it asks of the value.
const ASKED: &str = r##"{"rows": [
    [{"type": "integer", "minimum": 0, "pattern": "a"}, 5, "nothing; nothing; nothing; "],
    [{"$ref": "#/$defs/a", "$defs": {"a": true}}, 5, "a target; "],
    [{"items": {"type": "integer"}}, [1, 2], "2 items from 0; "],
    [{"items": {"type": "integer"}}, 5, "0 items from 0; "],
    [{"items": false, "prefixItems": [true]}, [1, 2, 3], "3 items from 1; listed; "],
    [{"allOf": [true, false]}, 5, "each of 2; "],
    [{"anyOf": [true, false, true]}, 5, "1 or more of 3; "],
    [{"oneOf": [true, false]}, 5, "1 to 1 of 2; "],
    [{"properties": {"a": true}}, {"a": 1}, "listed; "],
    [{"if": true, "then": true}, 5, "listed; "]
]}"##;

fn write_asked(rt: &impl Abort, output: &mut String, asking: Asking<'_, '_>) {
    let written = match asking {
        Asking::Nothing => write!(output, "nothing; "),
        Asking::Target(_) => write!(output, "a target; "),
        Asking::Items { start, items, .. } => write!(
            output,
            "{} items from {start}; ",
            items.len()
        ),
        Asking::Each(branches) => write!(output, "each of {}; ", branches.len()),
        Asking::Counted {
            branches,
            least,
            most,
        } => match most {
            Some(most) => write!(output, "{least} to {most} of {}; ", branches.len()),
            None => write!(output, "{least} or more of {}; ", branches.len()),
        },
        Asking::Listed => write!(output, "listed; "),
    };
    written.expect(rt, "memory");
}

fn asked_of(rt: &impl Abort, alloc: Global, keywords: &[Keyword], value: &Value) -> String {
    let mut output = String::new(alloc);
    for keyword in keywords {
        write_asked(rt, &mut output, keyword.asking(Place::Value(value)));
    }
    output
}

// The graph of a schema.
fn graph_of(rt: &impl Abort, alloc: Global, schema: &Value) -> CompiledEach<ScriptedMatcher> {
    let documents = format!(in alloc; "{{\"http://a.test/r\": {schema}}}").expect(rt, "memory");
    let documents = Value::from_str(alloc, documents.as_str()).expect(rt, "JSON");
    let registry = prepared(rt, alloc, &documents);
    let root = vec![in alloc; String::new(alloc)].expect(rt, "memory");
    graphs_of(rt, alloc, &registry, root.as_slice())
}

#[test]
fn asking_of_keywords(rt: HostRuntime) {
    let alloc = rt.alloc();
    let table = Value::from_str(alloc, ASKED).expect(&rt, "JSON");
    let rows = table.get("rows").and_then(Value::as_array);
    for row in rows.expect(&rt, "rows") {
        let [schema, value, want] = row.as_array().expect(&rt, "a row").as_slice() else {
            panic!(rt; "{row}")
        };
        let graphs = graph_of(&rt, alloc, schema);
        let root = graphs.schemas.graph.nodes.first().expect(&rt, "a node");
        let want = want.as_str().expect(&rt, "a text");
        assert_text(&rt, row, asked_of(&rt, alloc, &root.keywords, value), want);
    }
}

// Each row: how many texts an `enum` lists, and whether they are sought by halves.
const SOUGHT: [(usize, bool); 4] = [(1, false), (8, false), (9, true), (100, true)];

fn enumeration(rt: &impl Abort, alloc: Global, count: usize) -> Value {
    let mut text = String::from_str(alloc, r#"{"enum": ["t""#).expect(rt, "memory");
    for position in 1..count {
        write!(text, ", \"t{position}\"").expect(rt, "memory");
    }
    text.push_str("]}").expect(rt, "memory");
    Value::from_str(alloc, text.as_str()).expect(rt, "JSON")
}

#[test]
fn texts_of_enum_are_sought(rt: HostRuntime) {
    let alloc = rt.alloc();
    for (count, want) in SOUGHT {
        let graphs = graph_of(&rt, alloc, &enumeration(&rt, alloc, count));
        let root = graphs.schemas.graph.nodes.first().expect(&rt, "a node");
        let keyword = root.keywords.first().expect(&rt, "a keyword");
        let Keyword::Assertion {
            assertion: Assertion::Enumeration(options),
            ..
        } = keyword
        else {
            panic!(&rt; "no enum")
        };
        assert!(&rt; options.are_sought() == want, "{count}");
    }
}
