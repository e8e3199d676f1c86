//! The verdict of a schema.
ghost use Rattle.std.specs.Prelude.{◌≡◌, ◌<◌, IfOk, IfErr, IfSome};
ghost use Rattle.serde_json.specs.Data.{depth, object};
ghost use Rattle.serde_json.specs.View.{view, members_view};
ghost use Rattle.schema_meaning.specs.Members.{In};
ghost use Rattle.schema_meaning.specs.Questions.{listed_members};
ghost use Rattle.schema_sites.specs.Read.{Finds, FindsTarget};
ghost use Rattle.plain_reader.specs.Choices.{AreInside, IsInside};
ghost use Rattle.plain_reader.specs.Applied.{AsksInside};
ghost use Rattle.plain_reader.specs.Readings.{SchemaAccepts, MembersAccept, MemberAccepts, KeywordAccepts};
ghost use Rattle.plain_reader.specs.Readings.{ConditionAccepts, BesideAccepts, TargetAccepts};
ghost use Rattle.plain_reader.specs.Returns.{Stops};
ghost use Rattle.plain_reader.specs.Returning.{SchemaReturns, MembersReturn, MemberReturns, KeywordReturns};
ghost use Rattle.plain_reader.specs.Returning.{ConditionReturns, BesideReturns, TargetReturns};

use crate::applied::{accepts_applicator, accepts_question};
use crate::asking::of_value;
use crate::progress::{Progress, is_in_progress};
use crate::standing::Reading;
use crate::stop::Stop;
use schema_patterns::pattern::accepts_text;
use schema_sites::Resolved;
use schema_sites::keyword::{Keyword, Refusal};
use schema_sites::reading::keyword;
use schema_sites::reference_keyword::ReferenceKeyword;
use schema_sites::site::at_target;
use serde_json::{Map, Value};

/// Whether a schema accepts a value.
#[cycle(read)]
pub(crate) fn accepts_schema(reading: &Reading<'_, '_, '_>) -> Result<bool, Stop>
    ensures accepts { IfOk result (SchemaAccepts reading.now) }
    ensures stops { IfErr result (Stops (SchemaReturns reading.now)) }
{
    match reading.site.contents {
        Value::Bool(true) => Ok(true),
        Value::Bool(false) => Ok(false),
        Value::Object(members) => accepts_members(reading, members),
        _ => Ok(true),
    }
}

// Whether the members of a schema all accept.
#[cycle(read)]
fn accepts_members<'r>(
    reading: &Reading<'_, 'r, '_>,
    members: &'r Map<String, Value>,
) -> Result<bool, Stop>
    requires members { view reading.now.site.now.contents.now ≡ object (members_view members.now.entries) }
    ensures accepts { IfOk result (MembersAccept reading.now (members_view members.now.entries)) }
    ensures stops { IfErr result (Stops (MembersReturn reading.now (members_view members.now.entries))) }
{
    for (name, part) in members.iter() {
        if !accepts_member(reading, members, name.as_str(), part)? {
            return Ok(false);
        }
    }
    Ok(true)
}

// Whether a member of a schema accepts.
#[cycle(read)]
fn accepts_member<'r>(
    reading: &Reading<'_, 'r, '_>,
    members: &'r Map<String, Value>,
    name: &str,
    part: &'r Value,
) -> Result<bool, Stop>
    requires members { view reading.now.site.now.contents.now ≡ object (members_view members.now.entries) }
    requires listed { In (name.now, view part.now) (listed_members (members_view members.now.entries)) }
    ensures accepts { IfOk result (MemberAccepts reading.now (members_view members.now.entries) name.now (view part.now)) }
    ensures stops { IfErr result (Stops (MemberReturns reading.now (members_view members.now.entries) name.now
        (view part.now))) }
{
    match keyword(reading.alloc, reading.site, members, name, part) {
        Ok(keyword) => accepts_keyword(reading, part, keyword),
        Err(refusal) => match refusal {
            Refusal::Memory => Err(Stop::Memory),
            _ => Ok(true),
        },
    }
}

// Whether a keyword accepts.
#[cycle(read)]
fn accepts_keyword<'r>(
    reading: &Reading<'_, 'r, '_>,
    part: &'r Value,
    keyword: Keyword<'r>,
) -> Result<bool, Stop>
    requires inside { depth (view part.now) < depth (view reading.now.site.now.contents.now) }
    requires found { Finds reading.now.site.now (view part.now) keyword }
    requires asks { AsksInside reading.now.site.now keyword }
    ensures accepts { IfOk result (KeywordAccepts reading.now keyword.entry) }
    ensures stops { IfErr result (Stops (KeywordReturns reading.now keyword.entry)) }
{
    let alloc = reading.alloc;
    let value = reading.value;
    match keyword {
        Keyword::Nothing => Ok(true),
        Keyword::Assertion(assertion) => Ok(assertion.accept(alloc, value)?),
        Keyword::Pattern(pattern) => {
            Ok(accepts_text(alloc, reading.site.matches, pattern, value)?)
        }
        Keyword::If {
            condition,
            then_schema,
            else_schema,
        } => accepts_by_condition(reading, condition, then_schema, else_schema),
        Keyword::Consequent { .. } => Ok(true),
        Keyword::Applicator(applicator) => accepts_applicator(reading, &applicator),
        Keyword::Reference {
            keyword,
            text,
            target,
        } => accepts_target(reading, keyword, text, target),
    }
}

// Whether `if` accepts: as `then` does where its schema accepts, and as `else` does where it does not.
#[cycle(read)]
fn accepts_by_condition<'r>(
    reading: &Reading<'_, 'r, '_>,
    condition: &'r Value,
    then_schema: Option<&'r Value>,
    else_schema: Option<&'r Value>,
) -> Result<bool, Stop>
    requires inside { IsInside reading.now.site.now condition }
    requires beside { AreInside reading.now.site.now then_schema else_schema }
    ensures accepts { IfOk result (ConditionAccepts reading.now condition.entry then_schema.entry else_schema.entry) }
    ensures stops { IfErr result (Stops (ConditionReturns reading.now condition.entry then_schema.entry else_schema.entry)) }
{
    let question = of_value("if", condition);
    if accepts_question(reading, question)? {
        accepts_beside(reading, "then", then_schema)
    } else {
        accepts_beside(reading, "else", else_schema)
    }
}

// Whether the schema at a keyword accepts, if one stands there.
#[cycle(read)]
fn accepts_beside<'r>(
    reading: &Reading<'_, 'r, '_>,
    keyword: &'static str,
    schema: Option<&'r Value>,
) -> Result<bool, Stop>
    requires inside { IfSome schema (IsInside reading.now.site.now) }
    ensures accepts { IfOk result (BesideAccepts reading.now keyword.now schema.entry) }
    ensures stops { IfErr result (Stops (BesideReturns reading.now keyword.now schema.entry)) }
{
    match schema {
        Some(schema) => {
            let question = of_value(keyword, schema);
            accepts_question(reading, question)
        }
        None => Ok(true),
    }
}

// Whether a reference accepts: as its target does. Where it is in progress, it has come back.
#[cycle(read)]
fn accepts_target<'r>(
    reading: &Reading<'_, 'r, '_>,
    keyword: ReferenceKeyword,
    text: &str,
    target: Resolved<'r>,
) -> Result<bool, Stop>
    requires found { FindsTarget reading.now.site.now keyword text.now target }
    ensures accepts { IfOk result (TargetAccepts reading.now keyword text.now target.entry) }
    ensures stops { IfErr result (Stops (TargetReturns reading.now keyword text.now target.entry)) }
{
    let document = target.document_name();
    let path = target.path();
    if is_in_progress(reading.progress, document, path, reading.at) {
        return Err(Stop::Circular);
    }
    let inner = at_target(&target, reading.site.matches)?;
    let entered = Progress::Target {
        document,
        path,
        at: reading.at,
        before: reading.progress,
    };
    let followed = Reading {
        alloc: reading.alloc,
        whole: reading.whole,
        site: &inner,
        value: reading.value,
        at: reading.at,
        progress: &entered,
    };
    accepts_schema(&followed)
}
