//! A document added beside a root, retrieved for it, and put inside it: one answer.
ghost use Rattle.std.specs.Prelude.{◌≡◌, true};
ghost use Rattle.serde_json.specs.View.{view};
ghost use Rattle.json_schema_validator.specs.Numbers.{only_whole};

use crate::Failure;
use json_schema_validator::{BuildError, Moving, RegexMaker, has_only_whole, same_on_three_roads};
use serde_json::Value;
use std::alloc::{AllocError, Global};

const ROOT: &str =
    r#"{"$id":"http://a.test/root.json","$schema":"https://json-schema.org/draft/2020-12/schema","type":"array","minItems":2,"items":{"$ref":"leaf.json"}}"#;

const LEAF: &str =
    r#"{"$id":"http://a.test/leaf.json","$schema":"https://json-schema.org/draft/2020-12/schema","type":"string"}"#;

// What is said on a road: the line of the faults, or that the form is not built.
fn push_road(
    text: &mut String,
    name: &str,
    said: &Result<String, BuildError>,
) -> Result<(), AllocError> {
    text.push_str(name)?;
    text.push_str(": ")?;
    match said {
        Ok(line) => text.push_str(line.as_str().trim_end())?,
        Err(_) => text.push_str("not built")?,
    }
    text.push_str("\n")
}

/// A line for each road.
pub fn report(alloc: Global) -> Result<String, Failure> {
    let root = Value::from_str(alloc, ROOT)?;
    let leaf = Value::from_str(alloc, LEAF)?;
    let instance = Value::from_str(alloc, "[1]")?;
    if !has_only_whole(&instance) {
        return Err(Failure::Numbers);
    }
    let moving = Moving {
        root_uri: "http://a.test/root.json",
        root: &root,
        moved_uri: "http://a.test/leaf.json",
        moved: &leaf,
        fresh: "leaf",
    };
    let roads = same_on_three_roads(alloc, RegexMaker, &moving, &instance)?;
    let mut text = String::new(alloc);
    push_road(&mut text, "added", &roads.added)?;
    push_road(&mut text, "retrieved", &roads.retrieved)?;
    push_road(&mut text, "inside", &roads.inside)?;
    Ok(text)
}
