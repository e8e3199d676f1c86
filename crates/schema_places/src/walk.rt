//! Walks along a pointer, one part at a time.

ghost use Rattle.std.specs.Prelude.{◌≡◌, IfOk, IfErr};
ghost use Rattle.serde_json.specs.View.{view};
ghost use Rattle.serde_json.specs.Find.{at};
ghost use Rattle.json_values.specs.Pointers.{index_of, step_from};
ghost use Rattle.json_pointers.specs.Lent.{stop_of};
ghost use Rattle.schema_steps.specs.Steps.{step_part};
ghost use Rattle.schema_drafts.specs.Subschemas.{holds_of};
ghost use Rattle.uri_grammar.specs.Texts.{pieces};
ghost use Rattle.schema_definitions.specs.Lookup as spec;
ghost use Rattle.schema_dialects.specs.Dialects.{dialects_in};
ghost use Rattle.schema_places.specs.Seen.{place_of};
ghost use Rattle.schema_places.specs.Causes.{Refuses};
ghost use Rattle.schema_places.specs.Held.{IsList};

use crate::error::{WalkError, array_index, nowhere};
use crate::place::{Place, enter};
use crate::within::{Within, holds_schema};
use json_pointers::{PointerError, parse_index, step, unescape_segment};
use schema_dialects::MetaSchemas;
use schema_drafts::subschemas::Subschemas;
use schema_steps::{Path, Step};
use serde_json::Value;
use std::alloc::{AllocError, Global};
use std::rc::RcStr;

/// Where a walk along a pointer stands.
#[derive(Drop)]
pub struct Walk<'d> {
    pub path: Path,
    pub contents: &'d Value,
    /// The schema place that was passed last.
    pub last: Place<'d>,
    pub within: Within,
}

impl<'d> Walk<'d> {
    ghost use Rattle.schema_places.specs.Walks.{walk_of, begun, to_member};

    /// A walk at its begin.
    pub fn begin(from: &Place<'d>) -> Result<Self, AllocError>
        ensures { IfOk result (λ w. walk_of w ≡ begun (place_of from.now)) }
    {
        Ok(Walk {
            path: from.path.clone()?,
            contents: from.contents,
            last: from.clone()?,
            within: Within::AtPlace,
        })
    }

    // One part further, to a value that what is held makes a schema place, where it is a schema.
    fn arrive(
        self,
        alloc: Global,
        known: &MetaSchemas,
        held: Subschemas,
        step: Step,
        contents: &'d Value,
    ) -> Result<Self, AllocError>
        ensures { IfOk result (λ w. walk_of w ≡ spec.arrived (dialects_in known.now) (walk_of self.entry) (holds_of held) (step_part step) (view contents.now)) }
    {
        let path = self.path.push(alloc, step)?;
        if !holds_schema(held, contents) {
            return Ok(Walk {
                path,
                contents,
                within: Within::PartOf(held),
                ..self
            });
        }
        let outer = self.last;
        let last = enter(
            alloc,
            known,
            &outer.base,
            outer.dialect,
            path.clone()?,
            contents,
        )?;
        Ok(Walk {
            path,
            contents,
            last,
            within: Within::AtPlace,
        })
    }

    fn to_member(
        self,
        alloc: Global,
        known: &MetaSchemas,
        token: &str,
        written: &str,
    ) -> Result<Self, WalkError>
        ensures reached { IfOk result (λ w. to_member (dialects_in known.now) written.now token.now (walk_of self.entry) ≡ Ok (walk_of w)) }
        ensures refused { IfErr result (Refuses (to_member (dialects_in known.now) written.now token.now (walk_of self.entry))) }
    {
        let name = unescape_segment(alloc, token)?;
        let Some(contents) = self.contents.get(name.as_str()) else {
            return Err(nowhere(alloc, written));
        };
        let held = self.within.in_member(&self.last, name.as_str());
        let step = Step::Name(RcStr::from_str(alloc, name.as_str())?);
        Ok(self.arrive(alloc, known, held, step, contents)?)
    }

    fn to_item(
        self,
        alloc: Global,
        known: &MetaSchemas,
        token: &str,
        written: &str,
    ) -> Result<Self, WalkError>
        requires { IsList (view self.contents.now) }
        ensures reached { IfOk result (λ w. spec.step_to (dialects_in known.now) written.now token.now (walk_of self.entry) (view self.entry.contents.now) ≡ Ok (walk_of w)) }
        ensures refused { IfErr result (Refuses (spec.step_to (dialects_in known.now) written.now token.now (walk_of self.entry) (view self.entry.contents.now))) }
    {
        match item(self.contents, token) {
            Ok((index, contents)) => {
                let held = self.within.in_element();
                Ok(self.arrive(alloc, known, held, Step::Item(index), contents)?)
            }
            Err(PointerError::InvalidArrayIndex(_)) => Err(array_index(alloc, token, written)),
            Err(_) => Err(nowhere(alloc, written)),
        }
    }

    fn step(
        self,
        alloc: Global,
        known: &MetaSchemas,
        token: &str,
        written: &str,
    ) -> Result<Self, WalkError>
        ensures reached { IfOk result (λ w. spec.step_to (dialects_in known.now) written.now token.now (walk_of self.entry) (view self.entry.contents.now) ≡ Ok (walk_of w)) }
        ensures refused { IfErr result (Refuses (spec.step_to (dialects_in known.now) written.now token.now (walk_of self.entry) (view self.entry.contents.now))) }
    {
        match self.contents {
            Value::Object(_) => self.to_member(alloc, known, token, written),
            Value::Array(_) => self.to_item(alloc, known, token, written),
            _ => Err(nowhere(alloc, written)),
        }
    }

    fn along(
        self,
        alloc: Global,
        known: &MetaSchemas,
        tokens: &str,
        written: &str,
    ) -> Result<Self, WalkError>
        ensures reached { IfOk result (λ w. spec.walk (dialects_in known.now) written.now (pieces 47 tokens.now) (walk_of self.entry) ≡ Ok (walk_of w)) }
        ensures refused { IfErr result (Refuses (spec.walk (dialects_in known.now) written.now (pieces 47 tokens.now) (walk_of self.entry))) }
    {
        let mut walk = self;
        for token in tokens.split('/') {
            walk = walk.step(alloc, known, token, written)?;
        }
        Ok(walk)
    }

    /// The walk by the parts behind the slashes of a pointer, as they are escaped. A refusal names the pointer as it is written.
    pub fn by_pointer(
        self,
        alloc: Global,
        known: &MetaSchemas,
        pointer: &str,
        written: &str,
    ) -> Result<Self, WalkError>
        ensures reached { IfOk result (λ w. spec.walk (dialects_in known.now) written.now (spec.behind_first (pieces 47 pointer.now)) (walk_of self.entry) ≡ Ok (walk_of w)) }
        ensures refused { IfErr result (Refuses (spec.walk (dialects_in known.now) written.now (spec.behind_first (pieces 47 pointer.now)) (walk_of self.entry))) }
    {
        match pointer.split_once('/') {
            Some((_, tokens)) => self.along(alloc, known, tokens, written),
            None => Ok(self),
        }
    }
}

// The item of a list that a part of a pointer leads to, with its index.
fn item<'d, 't>(list: &'d Value, token: &'t str) -> Result<(usize, &'d Value), PointerError<'t>>
    requires { IsList (view list.now) }
    ensures found { IfOk result (λ r. (index_of token.now ≡ Some r.0) × (at r.0 (view list.now) ≡ Some (view r.1.now))) }
    ensures stopped { IfErr result (λ e. step_from (view list.now) token.now ≡ Err (stop_of e)) }
{
    let item = step(list, token)?;
    match parse_index(token) {
        Some(index) => Ok((index, item)),
        None => Err(PointerError::Nowhere),
    }
}
