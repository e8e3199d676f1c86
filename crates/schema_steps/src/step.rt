//! The steps of paths.
ghost use Rattle.std.specs.Prelude.{◌≡◌, ◌++◌, ◌<◌, ◌≤◌, ◌+◌, length, string_bytes, string_len, OnOk, OnErr, option_map};
ghost use Rattle.std.specs.String.{string_capacity};
ghost use Rattle.serde_json.specs.View.{view};
ghost use Rattle.json_values.specs.Pointers as spec;

use json_pointers::{write_escaped_str, write_index};
use serde_json::Value;
use std::alloc::AllocError;
use std::hash::{Hash, Hasher};
use std::rc::RcStr;

/// One step of a path: the name of a member, or the index of an item.
#[derive(Debug, Drop)]
pub enum Step {
    /// The name, as it is, with no escapes. Clones share its text.
    Name(RcStr),
    /// The index, from 0.
    Item(usize),
}

impl Step {
    ghost use Rattle.schema_steps.specs.Steps.{step_part};

    /// The value that this step leads to: a name leads to a member alone, an index to an item alone.
    pub fn find_in<'v>(&self, value: &'v Value) -> Option<&'v Value>
        ensures { option_map (λ v. view v.now) result ≡ spec.value_in (step_part self.now) (view value.now) }
    {
        match self {
            Step::Name(name) => value.get(name.as_str()),
            Step::Item(index) => value.get(*index),
        }
    }

    /// Appends this step as a part of a pointer, without the `/` before it.
    ///
    /// It is linear in the name, and allocates only where the buffer has to grow.
    pub fn write_to(&self, buffer: &mut String) -> Result<(), AllocError>
        ensures ok { OnOk result (string_bytes buffer.new ≡ string_bytes buffer.old ++ spec.part_text (step_part self.now)) }
        ensures err { OnErr result (string_bytes buffer.new ≡ string_bytes buffer.old) }
        ensures full { OnErr result (string_capacity buffer.old < string_len buffer.old + length (spec.part_text (step_part self.now))) }
        ensures capacity { string_capacity buffer.old ≤ string_capacity buffer.new }
        ensures fits { OnOk result (spec.PartFits (step_part self.now)) }
    {
        match self {
            Step::Name(name) => write_escaped_str(buffer, name.as_str()),
            Step::Item(index) => write_index(buffer, *index),
        }
    }
}

/// A clone shares the text of a name. The error comes where the text's count of owners is full.
impl Clone for Step {
    ghost use Rattle.schema_steps.specs.Steps.{step_part};

    ghost is_clone = { λ step copy. step_part copy ≡ step_part step };

    fn clone(&self) -> Result<Step, AllocError> {
        match self {
            Step::Name(name) => Ok(Step::Name(name.clone()?)),
            Step::Item(index) => Ok(Step::Item(*index)),
        }
    }
}

/// Steps are equal where they have the same name or the same index: a name never equals an index.
impl PartialEq for Step {
    ghost use Rattle.std.specs.Bool.{Decides};
    ghost use Rattle.std.specs.Cmp.{on_per};
    ghost use Rattle.schema_steps.specs.Parts.{part_eq, part_eq_per};
    ghost use Rattle.schema_steps.specs.Steps.{step_part};

    ghost eq = { λ x y. part_eq (step_part x) (step_part y) };

    ghost laws = { on_per step_part part_eq_per };

    fn eq(&self, other: &Step) -> bool
        ensures value { result ≡ part_eq (step_part self.now) (step_part other.now) }
        ensures same { Decides result (step_part self.now ≡ step_part other.now) }
    {
        match (self, other) {
            (Step::Name(mine), Step::Name(theirs)) => mine == theirs,
            (Step::Item(mine), Step::Item(theirs)) => mine == theirs,
            _ => false,
        }
    }
}

impl Eq for Step {
    ghost use Rattle.std.specs.Cmp.{on_equiv};
    ghost use Rattle.schema_steps.specs.Parts.{part_eq_equiv};
    ghost use Rattle.schema_steps.specs.Steps.{step_part};

    ghost laws = { on_equiv step_part part_eq_equiv };
}

/// What is fed tells a name from an index.
impl Hash for Step {
    ghost use Rattle.schema_steps.specs.Parts.{part_fed, part_fed_alike};
    ghost use Rattle.schema_steps.specs.Steps.{step_part};

    ghost hash_input = { λ step. part_fed (step_part step) };

    ghost respects_eq = { λ x y h. part_fed_alike (step_part x) (step_part y) h };

    fn hash<H: Hasher>(&self, state: &mut H) {
        match self {
            Step::Name(name) => {
                state.write_u8(0);
                name.as_str().hash(state);
            }
            Step::Item(index) => {
                state.write_u8(1);
                index.hash(state);
            }
        }
    }
}
