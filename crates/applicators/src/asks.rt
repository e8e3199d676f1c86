//! What keywords ask of a value.

use crate::declared::DeclaredOf;
use serde_json::{Map, Value};

/// What a keyword asks of a value, by its subschemas, wherever these are: `S` is one of them, `L` a list, `N` some by names, `P` some by
/// patterns, `E` the entries of `dependencies`, and `V` one together with the value that it is read from.
#[derive(Clone, Copy, Debug)]
pub enum AsksOf<S, L, N, P, E, V> {
    /// Each item from `start` on, by one schema.
    ItemsFrom {
        start: usize,
        schema: S,
    },
    /// Each item, by the schema of its index.
    ItemByItem(L),
    /// Each member of these names, by its name's schema.
    DeclaredMembers(N),
    /// Each member whose name one of these patterns matches, by the pattern's schema.
    MatchingMembers(P),
    /// Each member that is not declared beside, by one schema.
    OtherMembers {
        declared: DeclaredOf<N, P>,
        schema: S,
    },
    /// Each member, by one schema.
    Members(S),
    /// Each member's name, by one schema.
    Names(S),
    /// The value, by the schema of each of these names that is a member's.
    Triggered(N),
    /// The same where the entry is a schema. Where it is a list, its texts must be names of members.
    Dependencies(E),
    /// The value, by each schema of a list.
    Branches(L),
    /// The value, by one schema, which is shown where it accepts.
    Value(V),
    /// The value, by the first schema, and then by those beside.
    Condition {
        condition: S,
        then_schema: Option<S>,
        else_schema: Option<S>,
    },
}

/// What is asked by the subschemas of a schema that is read, which lends them.
pub type Asks<'r> = AsksOf<
    &'r Value,
    &'r [Value],
    &'r Map<String, Value>,
    &'r Map<String, Value>,
    &'r Map<String, Value>,
    &'r Value,
>;
