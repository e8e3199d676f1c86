//! Paths.
ghost use Rattle.std.specs.Prelude.{◌≡◌, ◌==◌, [], ◌∷◌, ◌++◌, ◌<◌, ◌≤◌, ◌+◌, length, map, string_bytes, string_len, OnOk, OnErr, IfOk, option_map, reverse};
ghost use Rattle.std.specs.String.{string_capacity};
ghost use Rattle.serde_json.specs.View.{view};
ghost use Rattle.json_values.specs.Parts.{name, index};
ghost use Rattle.json_values.specs.Pointers as spec;
ghost use Rattle.json_pointers.specs.Buffers.{Grows};
ghost use Rattle.schema_steps.specs.Steps.{step_part};

use crate::step::Step;
use serde_json::Value;
use shared_lists::{Iter, List};
use std::alloc::{AllocError, Global};
use std::hash::{Hash, Hasher};
use std::marker::Model;
use std::rc::RcStr;

/// A path from a place in a document up to the document's root. A contract sees it as the list of its parts, the last first.
#[derive(Drop)]
pub struct Path {
    steps: List<Step>,
}

impl Model for Path {
    ghost use Rattle.std.specs.Prelude.{List, map};
    ghost use Rattle.json_values.specs.Parts.{Part};

    ghost Value = { List Part };

    ghost use Rattle.schema_steps.specs.Steps.{step_part};

    ghost view = { λ a. map step_part a.steps };
}

impl Path {
    /// The path of a whole document. It allocates nothing.
    pub const fn root() -> Self
        ensures { result ≡ [] }
    {
        Path { steps: List::new() }
    }

    /// Whether this is the path of a whole document.
    pub fn is_root(&self) -> bool
        ensures { result ≡ (length self.now == 0) }
    {
        self.steps.is_empty()
    }

    /// The steps, the last first.
    pub fn steps(&self) -> Iter<'_, Step>
        ensures { map step_part result ≡ self.now }
    {
        self.steps.iter()
    }

    /// This path with one more step at its end, in constant time. It shares the steps of this path, which stays as it is.
    ///
    /// The error comes where memory is out or the count of owners of this path's last step is full.
    pub fn push(&self, alloc: Global, step: Step) -> Result<Path, AllocError>
        ensures { IfOk result (λ path. path ≡ step_part step ∷ self.now) }
    {
        Ok(Path {
            steps: self.steps.push_front(alloc, step)?,
        })
    }

    /// This path with a step to a member at its end. It copies the name, and costs and fails as [`Self::push`] beside that.
    pub fn push_name(&self, alloc: Global, text: &str) -> Result<Path, AllocError>
        ensures { IfOk result (λ path. path ≡ name text.now ∷ self.now) }
    {
        self.push(alloc, Step::Name(RcStr::from_str(alloc, text)?))
    }

    /// This path with a step to an item at its end. It costs and fails as [`Self::push`].
    pub fn push_item(&self, alloc: Global, position: usize) -> Result<Path, AllocError>
        ensures { IfOk result (λ path. path ≡ index position ∷ self.now) }
    {
        self.push(alloc, Step::Item(position))
    }

    /// The value at this path in a document: a name leads to a member alone, an index to an item alone.
    ///
    /// A look-up and a stack frame for each step, and no allocation.
    pub fn find_in<'v>(&self, document: &'v Value) -> Option<&'v Value>
        ensures { option_map (λ v. view v.now) result ≡ spec.value_at (reverse self.now) (view document.now) }
    {
        find_behind(self.steps.iter(), document)
    }

    /// Appends this path as a pointer's text, from the root on: a `/` and the part for each step (RFC 6901, section 3).
    ///
    /// It is linear in the text, takes a stack frame for each step, and allocates only where the buffer has to grow.
    pub fn write_to(&self, buffer: &mut String) -> Result<(), AllocError>
        ensures ok { OnOk result (string_bytes buffer.new ≡ string_bytes buffer.old ++ spec.pointer_text (reverse self.now)) }
        ensures err { OnErr result (string_bytes buffer.new ≡ string_bytes buffer.old) }
        ensures full { OnErr result (string_capacity buffer.old < string_len buffer.old + length (spec.pointer_text (reverse self.now))) }
        ensures capacity { string_capacity buffer.old ≤ string_capacity buffer.new }
        ensures fits { OnOk result (spec.PathFits (reverse self.now)) }
    {
        let start = buffer.len();
        if let Err(error) = push_behind(self.steps.iter(), buffer) {
            buffer.truncate(start);
            return Err(error);
        }
        Ok(())
    }

    /// This path as a pointer's text, in a new `String`. It costs what [`Self::write_to`] costs.
    pub fn to_pointer(&self, alloc: Global) -> Result<String, AllocError>
        ensures text { IfOk result (λ text. string_bytes text ≡ spec.pointer_text (reverse self.now)) }
        ensures fits { OnOk result (spec.PathFits (reverse self.now)) }
    {
        let mut text = String::new(alloc);
        self.write_to(&mut text)?;
        Ok(text)
    }
}

/// The value that the steps lead to, of which the last comes first.
fn find_behind<'s, 'v>(mut steps: Iter<'s, Step>, document: &'v Value) -> Option<&'v Value>
    ensures { option_map (λ v. view v.now) result ≡ spec.value_at (reverse (map step_part steps.entry)) (view document.now) }
{
    let Some(step) = steps.next() else {
        return Some(document);
    };
    let value = find_behind(steps, document)?;
    step.find_in(value)
}

/// Appends the steps, of which the last comes first, from the root on. What it has appended stays where it fails.
fn push_behind<'s>(mut steps: Iter<'s, Step>, buffer: &mut String) -> Result<(), AllocError>
    ensures ok { OnOk result (string_bytes buffer.new ≡ string_bytes buffer.old ++ spec.pointer_text (reverse (map step_part steps.entry))) }
    ensures grows { Grows buffer.old buffer.new }
    ensures full { OnErr result (string_capacity buffer.old < string_len buffer.old + length (spec.pointer_text (reverse (map step_part steps.entry)))) }
    ensures fits { OnOk result (spec.PathFits (reverse (map step_part steps.entry))) }
{
    let Some(step) = steps.next() else {
        return Ok(());
    };
    push_behind(steps, buffer)?;
    buffer.push('/')?;
    step.write_to(buffer)
}

/// A clone shares the steps, in constant time. The error comes where the count of owners of the last step is full, so never
/// for the path of a whole document.
impl Clone for Path {
    ghost is_clone = { λ path copy. copy ≡ path };

    ghost is_infallible = { λ path. path ≡ [] };

    fn clone(&self) -> Result<Path, AllocError> {
        Ok(Path {
            steps: self.steps.clone()?,
        })
    }
}

/// The path of a whole document.
impl Default for Path {
    ghost is_default = { λ path. path ≡ [] };

    fn default() -> Path {
        Path::root()
    }
}

/// Paths are equal where their steps are, pair by pair. It is linear in the shorter path.
impl PartialEq for Path {
    ghost use Rattle.std.specs.Bool.{Decides};
    ghost use Rattle.std.specs.Cmp.Lexicographic.{pointwise, lists_per};
    ghost use Rattle.schema_steps.specs.Parts.{part_eq, part_eq_per};

    ghost eq = { pointwise part_eq };

    ghost laws = { lists_per part_eq_per };

    fn eq(&self, other: &Path) -> bool
        ensures value { result ≡ pointwise part_eq self.now other.now }
        ensures same { Decides result (self.now ≡ other.now) }
    {
        self.steps == other.steps
    }
}

impl Eq for Path {
    ghost use Rattle.std.specs.Cmp.Lexicographic.{lists_equiv};
    ghost use Rattle.schema_steps.specs.Parts.{part_eq_equiv};

    ghost laws = { lists_equiv part_eq_equiv };
}

/// It is linear in the path.
impl Hash for Path {
    ghost use Rattle.shared_lists.specs.Hashes.{marked, marked_alike};
    ghost use Rattle.schema_steps.specs.Parts.{part_eq, part_fed, part_fed_alike};

    ghost hash_input = { marked part_fed };

    ghost respects_eq = { marked_alike part_eq part_fed part_fed_alike };

    fn hash<H: Hasher>(&self, state: &mut H) {
        self.steps.hash(state);
    }
}
