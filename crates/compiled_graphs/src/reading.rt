//! What stands at a schema, read with the visits of what it asks.

ghost use Rattle.std.specs.Prelude.{◌≡◌, [], ℕ, List, Bool, None, IfOk, IfSome, OnOk};
ghost use Rattle.serde_json.specs.Find.{as_object};
ghost use Rattle.serde_json.specs.View.{view, members_view};
ghost use Rattle.schema_meaning.specs.Members.{In};
ghost use Rattle.schema_definitions.specs.Rows as rows;
ghost use Rattle.schema_definitions.specs.Sites.{Site};
ghost use Rattle.schema_definitions.specs.Words.{or_else};
ghost use Rattle.applicators.specs.Made.{is_made_by};
ghost use Rattle.schema_patterns.specs.Tables.{texts_of_table};
ghost use Rattle.reached_sites.specs.Patterns.{text_of, texts_of, written, Holds, IsFront};
ghost use Rattle.reached_sites.specs.Visits.{site_of, Met};
ghost use Rattle.reached_sites.specs.declared.pattern.Pattern.{Pattern};
ghost use Rattle.compiled_graphs.specs.Read.{StaysFilled, IsMisnamed, IsUnmade, IsCounted, MemberReads};
ghost use Rattle.compiled_graphs.specs.Read.{MembersRead, OtherReads, VisitReads, HoldsMember, HoldsMembers};

use crate::asking::{Asking, push_asked};
use reached_sites::cause::BuildCause;
use reached_sites::identifying::check_identifier;
use reached_sites::making::add_patterns;
use reached_sites::pattern::{Pattern, push_patterns};
use reached_sites::refusing::{refused, shown};
use reached_sites::visit::Visit;
use schema_patterns::{PatternMaker, PatternTable};
use schema_sites::reading::keyword;
use serde_json::{Map, Value};
use std::alloc::{AllocError, Global};

/// What stands at a schema, and the visits of all that it asks, in order.
#[derive(Drop)]
pub(crate) struct Found<'r> {
    pub(crate) askings: Vec<Asking<'r>>,
    pub(crate) visits: Vec<Visit<'r>>,
}

// Puts patterns into a table, and answers the first that is not made, if any is not.
fn unmade<P: PatternMaker>(
    alloc: Global,
    maker: &P,
    patterns: &[Pattern<'_>],
    table: &mut PatternTable<P::Matcher>,
) -> Result<Option<BuildCause>, AllocError>
    ensures filled { StaysFilled P.Matcher.finds (P.patterns maker.now) table.old table.new }
    ensures kept { Holds table.new (texts_of_table table.old) }
    ensures grows { IsFront (texts_of_table table.old) (texts_of_table table.new) }
    ensures made { IfOk result (λ o. o ≡ None → Holds table.new (texts_of patterns.now)) }
    ensures unmade { IfOk result (λ o. IfSome o (IsUnmade (P.patterns maker.now).makes patterns.now)) }
{
    match add_patterns(alloc, maker, patterns, table) {
        Ok(()) => Ok(None),
        Err(BuildCause::Memory) => Err(AllocError),
        Err(cause) => Ok(Some(cause)),
    }
}

/// What is wrong with the identifier of a schema, if anything is.
#[tactic(auto, using(crate::proofs::Others::told_wrong))]
pub(crate) fn misnamed(alloc: Global, visit: &Visit<'_>) -> Result<Option<BuildCause>, AllocError>
    ensures right { IfOk result (λ o. o ≡ None → (s : Site) → Met visit.now s → rows.identifier_causes s ≡ []) }
    ensures wrong { IfOk result (λ o. IfSome o (IsMisnamed visit.now)) }
{
    match check_identifier(alloc, visit) {
        Ok(()) => Ok(None),
        Err(BuildCause::Memory) => Err(AllocError),
        Err(cause) => Ok(Some(cause)),
    }
}

/// A member of a schema, among all of them.
#[derive(Clone, Copy)]
pub(crate) struct Member<'m, 'r> {
    pub(crate) members: &'r Map<String, Value>,
    pub(crate) name: &'m str,
    pub(crate) value: &'r Value,
}

/// Puts a member's keyword behind others, where it has no cause, and else answers the first.
pub(crate) fn push_member<'r, P: PatternMaker>(
    alloc: Global,
    visit: &Visit<'r>,
    member: Member<'_, 'r>,
    maker: &P,
    found: &mut Found<'r>,
    table: &mut PatternTable<P::Matcher>,
) -> Result<Option<BuildCause>, AllocError>
    ensures read { IfOk result (λ o. MemberReads P.Matcher.finds
        (P.patterns maker.now) table.old visit.now member.entry found.old found.new o) }
    ensures filled { OnOk result (StaysFilled P.Matcher.finds (P.patterns maker.now) table.old table.new) }
    ensures kept { OnOk result (Holds table.new (texts_of_table table.old)) }
    ensures grows { OnOk result (IsFront (texts_of_table table.old) (texts_of_table table.new)) }
    ensures written { IfOk result (λ o. HoldsMember table.new visit.now member.entry o) }
    ensures counts { OnOk result (IsCounted found.old → IsCounted found.new) }
{
    let name = member.name;
    match keyword(alloc, &visit.site, member.members, name, member.value) {
        Ok(keyword) => {
            let mut patterns = Vec::new(alloc);
            push_patterns(alloc, &visit.point.place, name, &keyword, &mut patterns)?;
            if let Some(cause) = unmade(alloc, maker, patterns.as_slice(), table)? {
                return Ok(Some(cause));
            }
            let asks = push_asked(alloc, visit, &keyword, &mut found.visits)?;
            found.askings.push(Asking::Keyword { keyword, asks })?;
            Ok(None)
        }
        Err(refusal) => {
            let place = &visit.point.place;
            Ok(Some(refused(alloc, place, name, member.value, refusal)?))
        }
    }
}

fn first_cause(one: Option<BuildCause>, other: Option<BuildCause>) -> Option<BuildCause>
    ensures { result ≡ or_else one other }
{
    match one {
        Some(cause) => Some(cause),
        None => other,
    }
}

fn read_members<'r, P: PatternMaker>(
    alloc: Global,
    visit: &Visit<'r>,
    members: &'r Map<String, Value>,
    maker: &P,
    found: &mut Found<'r>,
    table: &mut PatternTable<P::Matcher>,
) -> Result<Option<BuildCause>, AllocError>
    ensures read { IfOk result (λ o. MembersRead P.Matcher.finds (P.patterns maker.now) table.old visit.now
        (members_view members.now.entries) found.old found.new o) }
    ensures filled { OnOk result (StaysFilled P.Matcher.finds (P.patterns maker.now) table.old table.new) }
    ensures kept { OnOk result (Holds table.new (texts_of_table table.old)) }
    ensures grows { OnOk result (IsFront (texts_of_table table.old) (texts_of_table table.new)) }
    ensures written { IfOk result (λ o. HoldsMembers table.new visit.now (members_view members.now.entries) o) }
    ensures counts { OnOk result (IsCounted found.old → IsCounted found.new) }
{
    let mut cause = None;
    for (name, value) in members.iter() {
        let name = name.as_str();
        let member = Member {
            members,
            name,
            value,
        };
        let wrong = push_member(alloc, visit, member, maker, found, table)?;
        cause = first_cause(cause, wrong);
    }
    Ok(cause)
}

/// What is no object: a boolean, or no schema.
pub(crate) fn read_other<'r>(
    alloc: Global,
    visit: &Visit<'r>,
    found: &mut Found<'r>,
) -> Result<Option<BuildCause>, AllocError>
    requires { as_object (view visit.now.site.contents.now) ≡ None }
    ensures read { IfOk result (λ o. (makes : List ℕ → Bool) → OtherReads makes visit.now found.old found.new o) }
    ensures written { IfOk result (λ o. o ≡ None → written (site_of visit.now) ≡ []) }
    ensures counts { OnOk result (IsCounted found.old → IsCounted found.new) }
{
    match visit.site.contents.as_bool() {
        Some(true) => Ok(None),
        Some(false) => {
            found.askings.push(Asking::Never)?;
            Ok(None)
        }
        None => Ok(Some(BuildCause::KeywordValue {
            place: visit.point.place.shared()?,
            expected: "schema",
            found: shown(alloc, visit.site.contents)?,
        })),
    }
}

/// What stands at a schema and has no cause, with the visits of what it asks, and the first cause, if there is one: its identifier's before
/// those of its keywords. The patterns of what has none are put into the table.
///
/// It reads each member once, and looks its references up.
///
/// # Errors
///
/// Where memory was refused or a count of owners is full.
pub(crate) fn read<'r, P: PatternMaker>(
    alloc: Global,
    visit: &Visit<'r>,
    maker: &P,
    table: &mut PatternTable<P::Matcher>,
) -> Result<(Found<'r>, Option<BuildCause>), AllocError>
    ensures read { IfOk result (λ f. VisitReads P.Matcher.finds (P.patterns maker.now) table.old visit.now f.0 f.1) }
    ensures filled { OnOk result (StaysFilled P.Matcher.finds (P.patterns maker.now) table.old table.new) }
    ensures kept { OnOk result (Holds table.new (texts_of_table table.old)) }
    ensures grows { OnOk result (IsFront (texts_of_table table.old) (texts_of_table table.new)) }
    ensures written { IfOk result (λ f. f.1 ≡ None → Holds table.new (written (site_of visit.now))) }
    ensures counts { IfOk result (λ f. IsCounted f.0) }
{
    let mut found = Found {
        askings: Vec::new(alloc),
        visits: Vec::new(alloc),
    };
    let named = misnamed(alloc, visit)?;
    if let Some(members) = visit.site.contents.as_object() {
        let cause = read_members(alloc, visit, members, maker, &mut found, table)?;
        return Ok((found, first_cause(named, cause)));
    }
    let cause = read_other(alloc, visit, &mut found)?;
    Ok((found, first_cause(named, cause)))
}
