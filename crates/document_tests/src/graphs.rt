// Graphs of what is reached: how many nodes there are and how many keywords in them, and at which of them each root starts.
use crate::rows::assert_text;
use compiled_graphs::each::CompiledEach;
use compiled_graphs::several::build_each;
use document_sources::DefaultRetriever;
use schema_drafts::draft::Draft;
use schema_patterns::bench::{ScriptedMaker, ScriptedMatcher};
use schema_registries::documents::Documents;
use schema_registries::registry::SharedRegistry;
use serde_json::Value;
use std::alloc::Global;
use std::process::Abort;
use uri_references::uri::from_str;

// Each row: documents by their URIs, references from `http://a.test/r`, and what is wanted: the number of nodes and of the keywords
// in all of them, and for each reference the number of its node, or a line where it may not be read. A keyword that is compiled
// twice where it is reached once is counted twice.
const ONE_PLACE: &str = r##"{"rows": [
    [{"http://a.test/r": true}, [""], "1/0: 0"],
    [{"http://a.test/r": {"properties": {"a": true, "b": true}, "$defs": {"c": true}}}, [""], "3/1: 0"],
    [{"http://a.test/r": {"items": {"$ref": "#"}}}, [""], "2/2: 0"],
    [{"http://a.test/r": {"properties": {"a": {"$ref": "#/$defs/x"}, "b": {"$ref": "#/$defs/x"}},
        "$defs": {"x": {"items": true}}}}, [""], "5/4: 0"],
    [{"http://a.test/r": {"properties": {"a": {"$ref": "#/$defs/x"}, "b": {"$ref": "#x"}},
        "$defs": {"x": {"$anchor": "x", "items": true}}}}, [""], "7/5: 0"]
]}"##;

// Of a document that is reached by two scopes: where nothing in it depends on the scope, it is compiled once, and where a name is
// looked for in the scope, once for each outermost bearer of it.
const BY_SCOPES: &str = r##"{"rows": [
    [{"http://a.test/list": {"$id": "http://a.test/list", "type": "array", "items": {"$ref": "#/$defs/d"}, "$defs": {"d": true}},
        "http://a.test/strings": {"$id": "http://a.test/strings", "$ref": "list"},
        "http://a.test/r": {"properties": {"l": {"$ref": "list"}, "s": {"$ref": "strings"}}}}, [""], "7/7: 0"],
    [{"http://a.test/list": {"$id": "http://a.test/list", "type": "array",
            "items": {"$dynamicRef": "#item"}, "$defs": {"d": {"$dynamicAnchor": "item"}}},
        "http://a.test/strings": {"$id": "http://a.test/strings", "$ref": "list",
            "$defs": {"s": {"$dynamicAnchor": "item", "type": "string"}}},
        "http://a.test/r": {"properties": {"l": {"$ref": "list"}, "s": {"$ref": "strings"}}}}, [""], "10/11: 0"]
]}"##;

const SEVERAL_ROOTS: &str = r##"{"rows": [
    [{"http://a.test/r": {"$defs": {"a": true, "b": {"type": 5}, "c": {"$ref": "#/$defs/b"}, "d": {"items": {"$ref": "#/$defs/a"}}}}},
        ["#/$defs/a", "#/$defs/b", "#/$defs/c", "#/$defs/none", "#/$defs/a", "#/$defs/d"], "7/3: 0 - - - 0 3"],
    [{"http://a.test/r": {"properties": {"a": {"properties": {"b": true}}}}}, ["", "#/properties/a"], "5/3: 0 1"]
]}"##;

pub(crate) fn prepared(rt: &impl Abort, alloc: Global, documents: &Value) -> SharedRegistry {
    let mut added = Documents::new(alloc);
    for (uri, document) in documents.as_object().expect(rt, "documents").iter() {
        let text = format!(in alloc; "{document}").expect(rt, "memory");
        added
            .add_text(uri.as_str(), text.as_bytes())
            .expect(rt, "a document");
    }
    SharedRegistry::prepare(alloc, &added, Draft::default(), false, &DefaultRetriever, 0).expect(
        rt,
        "a registry",
    )
}

fn texts_of(rt: &impl Abort, alloc: Global, texts: &Value) -> Vec<String> {
    let mut found = Vec::new(alloc);
    for text in texts.as_array().expect(rt, "texts") {
        let text = text.as_str().expect(rt, "a text");
        found
            .push(String::from_str(alloc, text).expect(rt, "memory"))
            .expect(rt, "memory");
    }
    found
}

pub(crate) fn graphs_of(
    rt: &impl Abort,
    alloc: Global,
    registry: &SharedRegistry,
    roots: &[String],
) -> CompiledEach<ScriptedMatcher> {
    let base = from_str(alloc, "http://a.test/r").expect(rt, "a URI");
    let maker = ScriptedMaker::new(alloc);
    registry.documents_are_apart();
    build_each(alloc, registry.registry(), &base, roots, &maker, 65_536).expect(rt, "graphs")
}

fn shown(rt: &impl Abort, alloc: Global, graphs: &CompiledEach<ScriptedMatcher>) -> String {
    let nodes = &graphs.schemas.graph.nodes;
    let mut keywords: usize = 0;
    for node in nodes {
        keywords = keywords.saturating_add(node.keywords.len());
    }
    let mut output = format!(in alloc; "{}/{keywords}:", nodes.len()).expect(rt, "memory");
    for start in &graphs.starts {
        match start {
            Some(position) => write!(output, " {position}").expect(rt, "memory"),
            None => output.push_str(" -").expect(rt, "memory"),
        }
    }
    output
}

fn assert_graphs(rt: &impl Abort, alloc: Global, table: &str) {
    let table = Value::from_str(alloc, table).expect(rt, "JSON");
    let rows = table.get("rows").and_then(Value::as_array);
    for row in rows.expect(rt, "rows") {
        let [documents, roots, want] = row.as_array().expect(rt, "a row").as_slice() else {
            panic!(rt; "{row}")
        };
        let registry = prepared(rt, alloc, documents);
        let roots = texts_of(rt, alloc, roots);
        let graphs = graphs_of(rt, alloc, &registry, roots.as_slice());
        let want = want.as_str().expect(rt, "a text");
        assert_text(rt, row, shown(rt, alloc, &graphs), want);
    }
}

#[test]
fn nodes_of_roots(rt: HostRuntime) {
    for table in [ONE_PLACE, BY_SCOPES, SEVERAL_ROOTS] {
        assert_graphs(&rt, rt.alloc(), table);
    }
}

// Each row: documents, references, a value, and for each reference whether the value is valid from there on, or a line where it may
// not be read.
const ANSWERS: &str = r##"{"rows": [
    [{"http://a.test/r": {"type": "integer"}}, ["", "#/x"], 5, "yes -"],
    [{"http://a.test/r": {"type": "integer"}}, ["", ""], "5", "no no"],
    [{"http://a.test/r": {"$defs": {"a": {"minItems": 2}, "b": {"$ref": "#/$defs/a"}, "c": {"type": 5}}}},
        ["#/$defs/a", "#/$defs/b", "#/$defs/c", ""], [1], "no no - yes"],
    [{"http://a.test/r": {"$defs": {"a": {"minItems": 2}, "b": {"$ref": "#/$defs/a"}, "c": {"type": 5}}}},
        ["#/$defs/a", "#/$defs/b", "#/$defs/c", ""], [1, 2], "yes yes - yes"],
    [{"http://a.test/r": {"properties": {"next": {"$ref": "#"}}, "required": ["v"]}}, [""], {"v": 1, "next": {"v": 2, "next": {"v": 3}}}, "yes"],
    [{"http://a.test/r": {"properties": {"next": {"$ref": "#"}}, "required": ["v"]}}, [""], {"v": 1, "next": {"v": 2, "next": {}}}, "no"],
    [{"http://a.test/r": {"pattern": "^a"}}, [""], "ab", "yes"],
    [{"http://a.test/r": {"pattern": "^a"}}, [""], "ba", "no"],
    [{"http://a.test/list": {"$id": "http://a.test/list", "type": "array",
            "items": {"$dynamicRef": "#item"}, "$defs": {"d": {"$dynamicAnchor": "item"}}},
        "http://a.test/strings": {"$id": "http://a.test/strings", "$ref": "list",
            "$defs": {"s": {"$dynamicAnchor": "item", "type": "string"}}}},
        ["list", "strings"], [1], "yes no"]
]}"##;

fn answered(
    rt: &impl Abort,
    alloc: Global,
    graphs: &CompiledEach<ScriptedMatcher>,
    value: &Value,
) -> String {
    let mut output = String::new(alloc);
    for position in 0..graphs.starts.len() {
        let answer = match graphs.is_valid(alloc, position, value).expect(rt, "memory") {
            Some(true) => "yes",
            Some(false) => "no",
            None => "-",
        };
        let before = if position == 0 { "" } else { " " };
        write!(output, "{before}{answer}").expect(rt, "memory");
    }
    output
}

#[test]
fn answers_of_roots(rt: HostRuntime) {
    let alloc = rt.alloc();
    let table = Value::from_str(alloc, ANSWERS).expect(&rt, "JSON");
    let rows = table.get("rows").and_then(Value::as_array);
    for row in rows.expect(&rt, "rows") {
        let [documents, roots, value, want] = row.as_array().expect(&rt, "a row").as_slice() else {
            panic!(rt; "{row}")
        };
        let registry = prepared(&rt, alloc, documents);
        let roots = texts_of(&rt, alloc, roots);
        let graphs = graphs_of(&rt, alloc, &registry, roots.as_slice());
        let want = want.as_str().expect(&rt, "a text");
        assert_text(&rt, row, answered(&rt, alloc, &graphs, value), want);
    }
}

const WITH_PATTERNS: &str = r##"{"http://a.test/r": {
    "$defs": {"s": {"pattern": "a.c"}, "t": {"pattern": "d"}},
    "properties": {"x": {"$ref": "#/$defs/s"}, "y": {"$ref": "#/$defs/s"}},
    "patternProperties": {"b": {"pattern": "b"}, "^c": true}}}"##;

// Each text that is reached stands once in the table, wherever it is written.
#[test]
fn patterns_stand_once(rt: HostRuntime) {
    let alloc = rt.alloc();
    let documents = Value::from_str(alloc, WITH_PATTERNS).expect(&rt, "JSON");
    let registry = prepared(&rt, alloc, &documents);
    let roots = texts_of(
        &rt,
        alloc,
        &Value::from_str(alloc, r#"[""]"#).expect(&rt, "JSON"),
    );
    let graphs = graphs_of(&rt, alloc, &registry, roots.as_slice());
    assert!(rt; graphs.schemas.table.len() == 3);
    for (pattern, stands) in [("a.c", true), ("b", true), ("^c", true), ("d", false)] {
        assert!(rt;
            graphs.schemas.table.get(pattern).is_some() == stands,
            "{pattern}"
        );
    }
}
