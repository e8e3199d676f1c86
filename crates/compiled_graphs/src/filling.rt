//! Nodes filled by what stands at schemas.

ghost use Rattle.std.specs.Prelude.{◌≡◌, ℕ, List, IfOk, OnOk, length, slice_get, take};
ghost use Rattle.std.specs.List.{AllZip};
ghost use Rattle.schema_definitions.specs.Bearers.{Documents};
ghost use Rattle.schema_definitions.specs.Sites.{Site};
ghost use Rattle.schema_meaning.specs.Linked.{Linked};
ghost use Rattle.schema_patterns.specs.Tables.{texts_of_table};
ghost use Rattle.keyword_compilers.specs.Linking.{AreNodesOf};
ghost use Rattle.compiled_graphs.specs.Asked.{asked_by, IsAnswered};
ghost use Rattle.compiled_graphs.specs.Filled.{total, node_if, PutsCompiled, Compiled, IsRank};

use crate::asking::Asking;
use compiled_keywords::keyword::Keyword;
use compiled_keywords::together::together_in;
use keyword_compilers::compiling::compiled;
use keyword_compilers::nodes::Nodes;
use reached_sites::visit::Visit;
use schema_engine::node::Node;
use schema_patterns::{PatternMatcher, PatternTable};
use schema_reports::SchemaLocation;
use schema_sites::keyword::Keyword as Met;
use schema_steps::Path;
use std::alloc::{AllocError, Global};

// The number at a position, where one is wanted there.
fn node_at(numbers: &[usize], position: usize, is_there: bool) -> Option<usize>
    ensures { result ≡ node_if is_there (slice_get numbers.now position) }
{
    if is_there {
        numbers.get(position).copied()
    } else {
        None
    }
}

// The first of some numbers.
fn first_of(numbers: &[usize]) -> &[usize]
    ensures { result.now ≡ take 1 numbers.now }
{
    if numbers.is_empty() {
        numbers
    } else {
        &numbers[..1]
    }
}

// Those of what a keyword asks, apart: its leads, and behind an `if` what stands beside.
fn nodes_of<'n>(keyword: &Met<'_>, numbers: &'n [usize]) -> Nodes<'n>
    ensures { (docs : Documents) (s : Site) (pairs : List (Site × ℕ)) → IsAnswered keyword.now
        → AllZip (Linked pairs) (asked_by docs s keyword.now) numbers.now
        → AreNodesOf pairs docs s keyword.now result }
{
    match keyword {
        Met::If {
            then_schema,
            else_schema,
            ..
        } => {
            let has_then = then_schema.is_some();
            Nodes {
                leads: first_of(numbers),
                then_node: node_at(numbers, 1, has_then),
                else_node: node_at(numbers, 1 + has_then as usize, else_schema.is_some()),
            }
        }
        _ => Nodes {
            leads: numbers,
            then_node: None,
            else_node: None,
        },
    }
}

// Puts a compiled keyword behind others, where what was read is one.
fn push_compiled<M: PatternMatcher>(
    alloc: Global,
    keyword: &Met<'_>,
    numbers: &[usize],
    table: &PatternTable<M>,
    keywords: &mut Vec<Keyword>,
) -> Result<(), AllocError>
    ensures { OnOk result (PutsCompiled (texts_of_table table.now) keyword.now numbers.now keywords.old.items keywords.new.items) }
{
    if let Some(compiled) = compiled(alloc, keyword, &nodes_of(keyword, numbers), table)? {
        keywords.push(compiled)?;
    }
    Ok(())
}

/// The keywords of a schema, by the numbers of the visits of all that they ask, in order.
///
/// # Errors
///
/// Where memory was refused.
pub(crate) fn compile<M: PatternMatcher>(
    alloc: Global,
    askings: &[Asking<'_>],
    numbers: &[usize],
    table: &PatternTable<M>,
) -> Result<Vec<Keyword>, AllocError>
    requires { total askings.now ≡ length numbers.now }
    ensures { IfOk result (λ ks. Compiled (texts_of_table table.now) askings.now numbers.now ks.items) }
{
    let mut keywords = Vec::with_capacity(alloc, askings.len())?;
    let mut rest = numbers;
    for asking in askings {
        match asking {
            Asking::Never => keywords.push(Keyword::Never)?,
            Asking::Keyword { keyword, asks } => {
                let (mine, behind) = rest.split_at(*asks);
                push_compiled(alloc, keyword, mine, table, &mut keywords)?;
                rest = behind;
            }
        }
    }
    Ok(keywords)
}

// How high a place stands: the fewer steps lead to it, the higher.
fn rank(path: &Path) -> Result<usize, AllocError>
    ensures { IfOk result (IsRank path.now) }
{
    let mut rank = usize::MAX;
    let mut rest = path.steps();
    while let Some(_step) = rest.next() {
        if rank == 0 {
            return Err(AllocError);
        }
        rank -= 1;
    }
    Ok(rank)
}

/// The node of a schema, with these keywords.
///
/// # Errors
///
/// Where a count of owners is full, or a path is as long as numbers go.
pub(crate) fn node_of(
    visit: &Visit<'_>,
    keywords: Vec<Keyword>,
) -> Result<Node<Keyword>, AllocError>
    ensures keywords { IfOk result (λ n. n.keywords.items ≡ keywords.items) }
    ensures path { IfOk result (λ n. n.schema_path ≡ visit.now.point.schema_path.steps) }
    ensures rank { IfOk result (λ n. IsRank visit.now.point.place.path n.rank) }
    ensures document { IfOk result (λ n. n.location.document.value ≡ visit.now.point.place.document.uri.value) }
    ensures place { IfOk result (λ n. n.location.path ≡ visit.now.point.place.path) }
    ensures draft { IfOk result (λ n. n.draft ≡ visit.now.site.dialect.draft) }
{
    let place = &visit.point.place;
    let together = together_in(&keywords);
    Ok(Node {
        keywords,
        together,
        rank: rank(&place.path)?,
        schema_path: visit.point.schema_path.steps.clone()?,
        location: SchemaLocation {
            document: place.document.uri.clone()?,
            path: place.path.clone()?,
        },
        draft: visit.site.dialect.draft,
    })
}
