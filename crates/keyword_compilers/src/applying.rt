//! Keywords that apply subschemas.
ghost use Rattle.std.specs.Prelude.{◌≡◌, [], IfOk, map, codes};
ghost use Rattle.schema_patterns.specs.Tables.{texts_of_table};
ghost use Rattle.applicators.specs.Applied.{name_of, combining_of, asks_of};
ghost use Rattle.applicators.specs.Forms.{shape_by};
ghost use Rattle.schema_meaning.specs.Keywords.{condition};
ghost use Rattle.compiled_keywords.specs.Forms.{form_of};
ghost use Rattle.compiled_keywords.specs.Shapes.{shape_of};
ghost use Rattle.keyword_compilers.specs.Numbers.{first_in};
ghost use Rattle.keyword_compilers.specs.Patterns.{numbered, seen, patterns_asked, patterns_among, patterns_of};
ghost use Rattle.keyword_compilers.specs.Shapes.{numbered_form};

use crate::dependencies::dependencies;
use crate::names::named_nodes;
use crate::nodes::{Nodes, copied, first};
use crate::patterns::{declared, pattern_nodes};
use applicators::applicator::Applicator as Applied;
use applicators::asks::Asks as Read;
use applicators::combining::Combining;
use compiled_keywords::applicator::Applicator;
use compiled_keywords::asks::Asks;
use compiled_keywords::keyword::Keyword;
use compiled_keywords::subschemas::ShownNode;
use schema_patterns::{PatternMatcher, PatternTable};
use std::alloc::{AllocError, Global};

fn asked<M: PatternMatcher>(
    alloc: Global,
    asks: Read<'_>,
    nodes: &Nodes<'_>,
    table: &PatternTable<M>,
) -> Result<Asks, AllocError>
    ensures form { IfOk result (λ a. form_of a ≡ numbered_form nodes.now asks.entry) }
    ensures patterns { IfOk result (λ a. map seen (patterns_among a)
        ≡ map (numbered (texts_of_table table.now)) (patterns_asked asks.entry)) }
{
    let leads = nodes.leads;
    let node = first(leads);
    match asks {
        Read::ItemsFrom { start, .. } => Ok(Asks::ItemsFrom { start, node }),
        Read::ItemByItem(_) => Ok(Asks::ItemByItem(copied(alloc, leads)?)),
        Read::DeclaredMembers(schemas) => {
            Ok(Asks::DeclaredMembers(named_nodes(alloc, schemas, leads)?))
        }
        Read::MatchingMembers(schemas) => {
            Ok(Asks::MatchingMembers(pattern_nodes(alloc, schemas, leads, table)?))
        }
        Read::OtherMembers {
            declared: beside,
            ..
        } => {
            let declared = declared(alloc, beside, table)?;
            Ok(Asks::OtherMembers { declared, node })
        }
        Read::Members(_) => Ok(Asks::Members(node)),
        Read::Names(_) => Ok(Asks::Names(node)),
        Read::Triggered(schemas) => { Ok(Asks::Triggered(named_nodes(alloc, schemas, leads)?)) }
        Read::Dependencies(entries) => {
            Ok(Asks::Dependencies(dependencies(alloc, entries, leads)?))
        }
        Read::Branches(_) => Ok(Asks::Branches(copied(alloc, leads)?)),
        Read::Value(schema) => {
            let schema = schema.clone()?;
            Ok(Asks::Value(ShownNode { schema, node }))
        }
        Read::Condition { .. } => Ok(Asks::Condition {
            condition: node,
            then_node: nodes.then_node,
            else_node: nodes.else_node,
        }),
    }
}

/// A keyword that applies subschemas, by their nodes.
pub(crate) fn applied<M: PatternMatcher>(
    alloc: Global,
    read: &Applied<'_>,
    nodes: &Nodes<'_>,
    table: &PatternTable<M>,
) -> Result<Keyword, AllocError>
    ensures shape { IfOk result (λ k. shape_of k
        ≡ shape_by (name_of read.now) (combining_of read.now) (numbered_form nodes.now (asks_of read.now))) }
    ensures patterns { IfOk result (λ k. map seen (patterns_of k)
        ≡ map (numbered (texts_of_table table.now)) (patterns_asked (asks_of read.now))) }
{
    let asks = asked(alloc, read.asks(), nodes, table)?;
    Ok(Keyword::Applicator(Applicator {
        keyword: read.name(),
        asks,
        combining: read.combining(),
    }))
}

/// `if` by the nodes of its schema and of those beside.
pub(crate) fn conditional(nodes: &Nodes<'_>) -> Keyword
    ensures shape { shape_of result ≡ condition (first_in nodes.now.leads.now) nodes.now.then_node nodes.now.else_node }
    ensures patterns { patterns_of result ≡ [] }
{
    Keyword::Applicator(Applicator {
        keyword: "if",
        asks: Asks::Condition {
            condition: first(nodes.leads),
            then_node: nodes.then_node,
            else_node: nodes.else_node,
        },
        combining: Combining::Conditional,
    })
}
