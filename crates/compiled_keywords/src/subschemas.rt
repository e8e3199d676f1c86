//! What compiled keywords own: their subschemas by the numbers of nodes, their patterns by numbers in a table.

use serde_json::Value;

/// A name with the node of its schema.
#[derive(Drop, Debug)]
pub struct NamedNode {
    pub name: String,
    pub node: usize,
}

/// A pattern: its number in the table of patterns, and its text, which a fault carries.
#[derive(Drop, Debug)]
pub struct Pattern {
    pub number: usize,
    pub text: String,
}

/// A pattern with the node of its schema.
#[derive(Drop, Debug)]
pub struct PatternNode {
    pub pattern: Pattern,
    pub node: usize,
}

/// What must hold where a name is a member's: these names are members too, or a node accepts the object.
#[derive(Drop, Debug)]
pub enum Dependency {
    Needs(Vec<String>),
    Applies(usize),
}

/// A name with its dependency.
#[derive(Drop, Debug)]
pub struct NamedDependency {
    pub name: String,
    pub dependency: Dependency,
}

/// A node with its schema's own text, which a fault carries.
#[derive(Drop, Debug)]
pub struct ShownNode {
    pub schema: Value,
    pub node: usize,
}

/// A name with the names that must be members where it is one.
#[derive(Drop, Debug)]
pub struct NeededNames {
    pub name: String,
    pub needed: Vec<String>,
}
