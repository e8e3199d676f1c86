//! Patterns and matches that checks of faults go by.
ghost use Rattle.std.specs.Prelude.{◌≡◌, IfOk, map, option_copied, string_bytes};
ghost use Rattle.serde_json.specs.View.{view};
ghost use Rattle.schema_registries.specs.Roots.{Patterns, Root, root_on};
ghost use Rattle.schema_patterns.specs.Tables.{texts_of_table};
ghost use Rattle.reached_sites.specs.Roots.{IsPlaced};
ghost use Rattle.fault_checks.specs.Passed.{documents_in, target_in};
ghost use Rattle.fault_checks.specs.Checked.{AreReadIn, AreReached, HoldsPlaced, is_of_schemas as is_cause_of_schemas};

use crate::{Error, Resolved};
use compiled_graphs::graph::build;
use reached_sites::cause::BuildCause;
use schema_patterns::matches::Matches;
use schema_patterns::{PatternMaker, PatternMatcher, PatternTable};
use schema_registries::SchemaRegistry;
use serde_json::Value;
use std::alloc::{AllocError, Global};

/// The matches that were read of a value, and the texts of their patterns.
#[derive(Drop)]
pub struct ReadMatches {
    pub matches: Matches,
    pub patterns: Vec<String>,
}

// Whether a refusal names a cause at the schemas, and not want of memory or too many of them.
fn is_of_schemas(cause: &BuildCause) -> bool
    ensures { result ≡ is_cause_of_schemas cause.now }
{
    match cause {
        BuildCause::NodeLimit { .. } => false,
        BuildCause::Memory => false,
        _ => true,
    }
}

// The patterns that are reached from a root, and none where something is wrong there.
fn patterns_at<P: PatternMaker>(
    alloc: Global,
    root: &Resolved<'_>,
    maker: &P,
) -> Result<Option<PatternTable<P::Matcher>>, AllocError>
    requires placed { IsPlaced (documents_in root.now.resolver) (target_in root.now) }
    ensures { IfOk result (HoldsPlaced P.Matcher.finds (P.patterns maker.now) root.now) }
{
    match build(alloc, root, maker, usize::MAX) {
        Ok(compiled) => Ok(Some(compiled.schemas.table)),
        Err(cause) => {
            if is_of_schemas(&cause) {
                Ok(None)
            } else {
                Err(AllocError)
            }
        }
    }
}

/// The patterns that are reached from a root, each made once: what the matches of a value are read by, whatever the value. There are none
/// where the root leads nowhere, or where no build takes the schemas that are reached from it.
///
/// It walks what is reached once.
///
/// # Errors
///
/// Where memory was refused or a count of owners is full.
pub fn read_patterns<P: PatternMaker>(
    alloc: Global,
    registry: &SchemaRegistry,
    root: &str,
    maker: &P,
) -> Result<Option<PatternTable<P::Matcher>>, AllocError>
    ensures { IfOk result (AreReached P.Matcher.finds (P.patterns maker.now) (root_on registry.now root.now)) }
{
    let resolver = registry.registry().resolver(registry.base().clone()?)?;
    match resolver.lookup(root) {
        Ok(found) => {
            registry.own().documents_are_apart();
            registry.registry().names_rise();
            patterns_at(alloc, &found, maker)
        }
        Err(error) => match error {
            Error::Memory => Err(AllocError),
            _ => Ok(None),
        },
    }
}

// The texts of a table's patterns.
fn texts_of<M: PatternMatcher>(
    alloc: Global,
    table: &PatternTable<M>,
) -> Result<Vec<String>, AllocError>
    ensures { IfOk result (λ v. map string_bytes v.items ≡ texts_of_table table.now) }
{
    let mut texts = Vec::new(alloc);
    for number in 0..table.len() {
        if let Some((text, _compiled)) = table.at(number) {
            texts.push(String::from_str(alloc, text)?)?;
        }
    }
    Ok(texts)
}

/// The matches of patterns that were read from a root, in the texts of a value and the names of its members: what checks of the value's
/// faults go by. Without patterns there are none.
///
/// Each matcher is asked once of each text.
///
/// # Errors
///
/// Where memory was refused.
pub fn matches_by<M: PatternMatcher>(
    alloc: Global,
    patterns: Option<&PatternTable<M>>,
    value: &Value,
) -> Result<Option<ReadMatches>, AllocError>
    ensures { IfOk result (λ m. (p : Patterns) (r : Root) → AreReached M.finds p r (option_copied patterns.entry)
        → AreReadIn p r (view value.now) m) }
{
    match patterns {
        Some(table) => {
            let matches = Matches::read(alloc, table, value)?;
            let patterns = texts_of(alloc, table)?;
            Ok(Some(ReadMatches { matches, patterns }))
        }
        None => Ok(None),
    }
}

/// The matches of the patterns that are reached from a root, in the texts of a value and the names of its members: what checks of the
/// value's faults go by. There are none where the root leads nowhere, or where no build takes the schemas that are reached from it.
///
/// It walks what is reached once, makes each pattern once, and asks each matcher once of each text. For many values [`read_patterns`] walks
/// once for all.
///
/// # Errors
///
/// Where memory was refused or a count of owners is full.
pub fn read_matches<P: PatternMaker>(
    alloc: Global,
    registry: &SchemaRegistry,
    root: &str,
    maker: &P,
    value: &Value,
) -> Result<Option<ReadMatches>, AllocError>
    ensures { IfOk result (AreReadIn (P.patterns maker.now) (root_on registry.now root.now) (view value.now)) }
{
    let patterns = read_patterns(alloc, registry, root, maker)?;
    matches_by(alloc, patterns.as_ref(), value)
}
