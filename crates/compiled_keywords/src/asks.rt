//! What compiled keywords ask of a value.

use crate::names::SortedNames;
use crate::subschemas::{NamedDependency, NamedNode, Pattern, PatternNode, ShownNode};

/// What `properties` and `patternProperties` beside `additionalProperties` declare.
#[derive(Drop, Debug)]
pub struct Declared {
    pub names: SortedNames,
    pub patterns: Vec<Pattern>,
}

/// What a compiled keyword asks of a value, by the nodes of its subschemas.
#[derive(Drop, Debug)]
pub enum Asks {
    /// Each item from `start` on, by one node.
    ItemsFrom {
        start: usize,
        node: usize,
    },
    /// Each item, by the node of its index.
    ItemByItem(Vec<usize>),
    /// Each member of these names, by its name's node.
    DeclaredMembers(Vec<NamedNode>),
    /// Each member whose name one of these patterns matches, by the pattern's node.
    MatchingMembers(Vec<PatternNode>),
    /// Each member that is not declared beside, by one node.
    OtherMembers {
        declared: Declared,
        node: usize,
    },
    /// Each member, by one node.
    Members(usize),
    /// Each member's name, by one node.
    Names(usize),
    /// The value, by the node of each of these names that is a member's.
    Triggered(Vec<NamedNode>),
    /// The same where the entry is a schema. Where it is a list, its names must be members'.
    Dependencies(Vec<NamedDependency>),
    /// The value, by each of some nodes.
    Branches(Vec<usize>),
    /// The value, by one node, whose schema is shown where it accepts.
    Value(ShownNode),
    /// The value, by the condition, and then by what stands beside its answer.
    Condition {
        condition: usize,
        then_node: Option<usize>,
        else_node: Option<usize>,
    },
}
