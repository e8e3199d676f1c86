//! Patterns by their numbers in a table.
ghost use Rattle.std.specs.Prelude.{◌≡◌, IfOk, map};
ghost use Rattle.serde_json.specs.View.{members_view};
ghost use Rattle.schema_definitions.specs.Rows.{member_names};
ghost use Rattle.schema_patterns.specs.Tables.{texts_of_table};
ghost use Rattle.applicators.specs.Sites.{names_declared, declared_by as declared_beside};
ghost use Rattle.compiled_keywords.specs.Owned.{declared_by};
ghost use Rattle.keyword_compilers.specs.Numbers.{beside};
ghost use Rattle.keyword_compilers.specs.Patterns.{number_in, numbered, seen, seen_node};

use crate::names::names_in;
use crate::nodes::{first, rest};
use applicators::declared::Declared as DeclaredBeside;
use compiled_keywords::asks::Declared;
use compiled_keywords::subschemas::{Pattern, PatternNode};
use schema_patterns::{PatternMatcher, PatternTable};
use serde_json::{Map, Value};
use std::alloc::{AllocError, Global};

// The number of a pattern, that behind the table's where it lacks the pattern.
fn number_of<M: PatternMatcher>(table: &PatternTable<M>, text: &str) -> usize
    ensures { result ≡ number_in (texts_of_table table.now) text.now }
{
    match table.number(text) {
        Some(number) => number,
        None => table.len(),
    }
}

/// A pattern with its number.
pub(crate) fn pattern<M: PatternMatcher>(
    alloc: Global,
    text: &str,
    table: &PatternTable<M>,
) -> Result<Pattern, AllocError>
    ensures { IfOk result (λ p. seen p ≡ numbered (texts_of_table table.now) text.now) }
{
    Ok(Pattern {
        number: number_of(table, text),
        text: String::from_str(alloc, text)?,
    })
}

/// Each name of an object of schemas as a pattern, with the node of its schema.
pub(crate) fn pattern_nodes<M: PatternMatcher>(
    alloc: Global,
    schemas: &Map<String, Value>,
    nodes: &[usize],
    table: &PatternTable<M>,
) -> Result<Vec<PatternNode>, AllocError>
    ensures { IfOk result (λ v. map seen_node v.items
        ≡ beside (map (numbered (texts_of_table table.now)) (member_names (members_view schemas.now.entries))) nodes.now) }
{
    let mut found = Vec::new(alloc);
    let mut left = nodes;
    for (name, _) in schemas.iter() {
        let pattern = pattern(alloc, name.as_str(), table)?;
        found.push(PatternNode {
            pattern,
            node: first(left),
        })?;
        left = rest(left);
    }
    Ok(found)
}

fn patterns_of<M: PatternMatcher>(
    alloc: Global,
    schemas: &Map<String, Value>,
    table: &PatternTable<M>,
) -> Result<Vec<Pattern>, AllocError>
    ensures { IfOk result (λ v. map seen v.items
        ≡ map (numbered (texts_of_table table.now)) (member_names (members_view schemas.now.entries))) }
{
    let mut found = Vec::new(alloc);
    for (name, _) in schemas.iter() {
        found.push(pattern(alloc, name.as_str(), table)?)?;
    }
    Ok(found)
}

fn patterns_in<M: PatternMatcher>(
    alloc: Global,
    schemas: Option<&Map<String, Value>>,
    table: &PatternTable<M>,
) -> Result<Vec<Pattern>, AllocError>
    ensures { IfOk result (λ v. map seen v.items
        ≡ map (numbered (texts_of_table table.now)) (names_declared schemas.entry)) }
{
    match schemas {
        Some(schemas) => patterns_of(alloc, schemas, table),
        None => Ok(Vec::new(alloc)),
    }
}

/// What stands beside `additionalProperties`.
pub(crate) fn declared<M: PatternMatcher>(
    alloc: Global,
    beside: DeclaredBeside<'_>,
    table: &PatternTable<M>,
) -> Result<Declared, AllocError>
    ensures declared { IfOk result (λ w. declared_by w ≡ declared_beside beside.entry) }
    ensures numbered { IfOk result (λ w. map seen w.patterns.items
        ≡ map (numbered (texts_of_table table.now)) (names_declared beside.entry.patterns)) }
{
    let names = names_in(alloc, beside.names)?;
    let patterns = patterns_in(alloc, beside.patterns, table)?;
    Ok(Declared { names, patterns })
}
