//! The questions of members whose names patterns match.

ghost use Rattle.std.specs.Prelude.{◌≡◌, ◌++◌, List, OnOk};
ghost use Rattle.serde_json.specs.Data.{Data};
ghost use Rattle.serde_json.specs.View.{view, members_view};
ghost use Rattle.json_values.specs.Parts.{Part};
ghost use Rattle.schema_definitions.specs.Sites.{Site};
ghost use Rattle.schema_meaning.specs.Questions.{at_name, listed_members, members_of};
ghost use Rattle.applicators.specs.Shapes.{sites_of_map};
ghost use Rattle.applicators.specs.Questions.{questions_of};
ghost use Rattle.schema_patterns.specs.Read.{reads};
ghost use Rattle.applicators.specs.Matching.{matching_members, by_patterns};

use crate::question::{Asked, Question};
use crate::subschema::{Entry, Subschema};
use schema_patterns::matches::Matches;
use serde_json::{Map, Value};
use std::alloc::{AllocError, Global};

// Each member whose name the pattern matches, by the pattern's schema.
fn push_matching<'r, 'i>(
    alloc: Global,
    matches: &Matches,
    questions: &mut Vec<Question<'r, 'i>>,
    keyword: &'static str,
    pattern: &'r str,
    schema: &'r Value,
    members: &'i Map<String, Value>,
) -> Result<(), AllocError>
    ensures { OnOk result ((site : List Part → Data → Site) → questions_of site questions.new.items
        ≡ questions_of site questions.old.items ++ matching_members (reads matches.now) keyword.now (site (at_name keyword.now pattern.now) (view schema.now)) pattern.now (listed_members (members_view members.now.entries))) }
{
    for (name, member) in members.iter() {
        let name = name.as_str();
        if matches.is_match(alloc, pattern, name)? {
            questions.push(Question {
                subschema: Subschema {
                    keyword,
                    entry: Entry::Name(pattern),
                    schema,
                },
                asked: Asked::Member { name, member },
            })?;
        }
    }
    Ok(())
}

// By pattern, and then by the member's name.
fn push_by_patterns<'r, 'i>(
    alloc: Global,
    matches: &Matches,
    questions: &mut Vec<Question<'r, 'i>>,
    keyword: &'static str,
    schemas: &'r Map<String, Value>,
    value: &'i Map<String, Value>,
) -> Result<(), AllocError>
    ensures { OnOk result ((site : List Part → Data → Site) → questions_of site questions.new.items
        ≡ questions_of site questions.old.items ++ by_patterns (reads matches.now) keyword.now (listed_members (members_view value.now.entries)) (sites_of_map site keyword.now (members_view schemas.now.entries))) }
{
    for (pattern, schema) in schemas.iter() {
        push_matching(
            alloc,
            matches,
            questions,
            keyword,
            pattern.as_str(),
            schema,
            value,
        )?;
    }
    Ok(())
}

// Each member whose name a pattern matches, by the schema of that pattern (Core 10.3.2.2). Each pair of a pattern and a name is looked at
// once.
#[tactic(auto, using(crate::proofs::MatchingLemmas::members_given))]
pub(crate) fn push_patterns<'r, 'i>(
    alloc: Global,
    matches: &Matches,
    questions: &mut Vec<Question<'r, 'i>>,
    keyword: &'static str,
    schemas: &'r Map<String, Value>,
    value: &'i Value,
) -> Result<(), AllocError>
    ensures { OnOk result ((site : List Part → Data → Site) → questions_of site questions.new.items
        ≡ questions_of site questions.old.items ++ by_patterns (reads matches.now) keyword.now (members_of (view value.now)) (sites_of_map site keyword.now (members_view schemas.now.entries))) }
{
    match value.as_object() {
        Some(members) => { push_by_patterns(alloc, matches, questions, keyword, schemas, members) },
        None => Ok(()),
    }
}
