//! Keywords that were read, compiled.
ghost use Rattle.std.specs.Prelude.{◌≡◌, ℕ, List, Bool, IfOk, IfSome, map, length};
ghost use Rattle.std.specs.List.{AllZip};
ghost use Rattle.schema_definitions.specs.Bearers.{Documents};
ghost use Rattle.schema_definitions.specs.Sites.{Site};
ghost use Rattle.schema_meaning.specs.Linked.{Linked};
ghost use Rattle.schema_meaning.specs.Members.{In};
ghost use Rattle.linked_meanings.specs.Related.{RelatedShape};
ghost use Rattle.schema_engine.specs.Leads.{leads_of};
ghost use Rattle.schema_patterns.specs.Tables.{texts_of_table};
ghost use Rattle.schema_sites.specs.Read as read;
ghost use Rattle.schema_sites.specs.References.{kind_of};
ghost use Rattle.compiled_keywords.specs.Shapes.{shape_of, reference_of, Knows};
ghost use Rattle.keyword_compilers.specs.Linking.{AreNodesOf, IsGiven};
ghost use Rattle.keyword_compilers.specs.Patterns.{numbered, seen, patterns_needed, patterns_of, patterns_in};
ghost use Rattle.keyword_compilers.specs.Patterns.{table_texts, AreEntries, AreHeld};
ghost use Rattle.keyword_compilers.specs.Shapes.{shapes_in, numbered_shapes};

use crate::applying::{applied, conditional};
use crate::asserting::assertion;
use crate::nodes::{Nodes, first};
use crate::patterns::pattern;
use compiled_keywords::keyword::{Keyword, ReferenceKind};
use schema_patterns::{PatternMatcher, PatternTable};
use schema_sites::keyword::Keyword as Read;
use schema_sites::reference_keyword::ReferenceKeyword;
use std::alloc::{AllocError, Global};

const fn kind_read(keyword: ReferenceKeyword) -> ReferenceKind
    ensures { reference_of result ≡ kind_of keyword }
{
    match keyword {
        ReferenceKeyword::Ref => ReferenceKind::Static,
        ReferenceKeyword::DynamicRef => ReferenceKind::Dynamic,
        ReferenceKeyword::RecursiveRef => ReferenceKind::Recursive,
    }
}

fn made<'r, M: PatternMatcher>(
    alloc: Global,
    keyword: &Read<'r>,
    nodes: &Nodes<'_>,
    table: &PatternTable<M>,
) -> Result<Option<Keyword>, AllocError>
    ensures shapes { IfOk result (λ k. shapes_in k ≡ numbered_shapes nodes.now keyword.now) }
    ensures patterns { IfOk result (λ k. map seen (patterns_in k)
        ≡ map (numbered (texts_of_table table.now)) (patterns_needed keyword.now)) }
{
    match keyword {
        Read::Nothing => Ok(None),
        Read::Assertion(read) => {
            let assertion = assertion(alloc, read)?;
            Ok(Some(Keyword::Assertion { alloc, assertion }))
        }
        Read::Pattern(text) => Ok(Some(Keyword::Pattern(pattern(alloc, *text, table)?))),
        Read::If { .. } => Ok(Some(conditional(nodes))),
        Read::Consequent { .. } => Ok(None),
        Read::Applicator(read) => Ok(Some(applied(alloc, read, nodes, table)?)),
        Read::Reference { keyword, .. } => Ok(Some(Keyword::Reference {
            kind: kind_read(*keyword),
            node: first(nodes.leads),
        })),
    }
}

/// A keyword that owns what it needs, by the nodes of its subschemas; none for one that asserts nothing, and for `then` and `else`, which
/// the `if` beside applies.
///
/// A pattern that the table lacks has the number behind its last.
///
/// # Errors
///
/// Where memory was refused.
pub fn compiled<'r, M: PatternMatcher>(
    alloc: Global,
    keyword: &Read<'r>,
    nodes: &Nodes<'_>,
    table: &PatternTable<M>,
) -> Result<Option<Keyword>, AllocError>
    ensures made { IfOk result (λ k. shapes_in k ≡ numbered_shapes nodes.now keyword.now) }
    ensures shapes { IfOk result (λ k. (docs : Documents) (s : Site) (pairs : List (Site × ℕ))
        → AreNodesOf pairs docs s keyword.now nodes.now
        → AllZip (RelatedShape (Linked pairs)) (read.shapes_of docs s keyword.now) (shapes_in k)) }
    ensures entries { IfOk result (λ k. AreHeld (texts_of_table table.now) (patterns_needed keyword.now)
        → AreEntries (texts_of_table table.now) (patterns_in k)) }
    ensures knows { IfOk result (λ k. AreHeld (texts_of_table table.now) (patterns_needed keyword.now)
        → IfSome k (λ c. Knows c (table_texts (texts_of_table table.now)))) }
    ensures nodes { IfOk result (λ k. (docs : Documents) (s : Site)
        → length (read.leads_of docs s keyword.now) ≡ length nodes.now.leads.now
        → IfSome k (λ c. (follows : Bool) (m : ℕ) → In m (leads_of follows (shape_of c)) → IsGiven nodes.now m)) }
{
    made(alloc, keyword, nodes, table)
}
