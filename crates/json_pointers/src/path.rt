//! Paths as linked, borrowed steps.
ghost use Rattle.std.specs.Prelude.{◌≡◌, ◌++◌, ◌∷◌, [], ◌<◌, ◌≤◌, ◌+◌, length, string_bytes, string_len, OnOk, OnErr, IfOk, MatchOption, Some, option_map};
ghost use Rattle.std.specs.String.{string_capacity};
ghost use Rattle.std.specs.Cow.{cow_str_bytes};
ghost use Rattle.std.specs.Result.{result_ok};
ghost use Rattle.serde_json.specs.Data.{Data};
ghost use Rattle.serde_json.specs.View.{view};
ghost use Rattle.json_values.specs.Parts.{name, index};
ghost use Rattle.json_values.specs.Pointers as spec;
ghost use Rattle.json_pointers.specs.Buffers.{Grows};

use crate::escapes::{write_escaped_str, write_index};
use crate::pointers::pointer;
use serde_json::Value;
use std::alloc::{AllocError, Global};
use std::borrow::CowStr;

/// One step of a path: the name of a member, or the index of an item.
#[derive(Debug, Drop)]
pub enum JsonPointerSegment<'a> {
    /// The name, as it is, with no escapes.
    Key(CowStr<'a>),
    /// The index, from 0.
    Index(usize),
}

impl<'a> From<usize> for JsonPointerSegment<'a> {
    ghost use Rattle.json_pointers.specs.Lent.{part_of};

    ghost from_gives = { λ n segment. part_of segment ≡ index n };

    fn from(value: usize) -> Self {
        JsonPointerSegment::Index(value)
    }
}

impl<'a> From<&'a str> for JsonPointerSegment<'a> {
    ghost use Rattle.json_pointers.specs.Lent.{part_of};

    ghost from_gives = { λ text segment. part_of segment ≡ name text.now };

    fn from(value: &'a str) -> Self {
        JsonPointerSegment::Key(CowStr::Borrowed(value))
    }
}

impl<'a> From<&'a String> for JsonPointerSegment<'a> {
    ghost use Rattle.json_pointers.specs.Lent.{part_of};

    ghost from_gives = { λ text segment. part_of segment ≡ name (string_bytes text.now) };

    fn from(value: &'a String) -> Self {
        JsonPointerSegment::Key(CowStr::Borrowed(value.as_str()))
    }
}

impl<'a> From<CowStr<'a>> for JsonPointerSegment<'a> {
    ghost use Rattle.json_pointers.specs.Lent.{part_of};

    ghost from_gives = { λ text segment. part_of segment ≡ name (cow_str_bytes text) };

    fn from(value: CowStr<'a>) -> Self {
        JsonPointerSegment::Key(value)
    }
}

impl JsonPointerSegment<'_> {
    ghost use Rattle.json_pointers.specs.Lent.{part_of};

    /// Appends this step as a part of a pointer, without the `/` before it.
    ///
    /// It is linear in the name, and allocates only where the buffer has to grow.
    pub fn write_to(&self, buffer: &mut String) -> Result<(), AllocError>
        ensures ok { OnOk result
            (string_bytes buffer.new ≡ string_bytes buffer.old ++ spec.part_text (part_of self.now)) }
        ensures err { OnErr result (string_bytes buffer.new ≡ string_bytes buffer.old) }
        ensures full { OnErr result
            (string_capacity buffer.old < string_len buffer.old + length (spec.part_text (part_of self.now))) }
        ensures capacity { string_capacity buffer.old ≤ string_capacity buffer.new }
        ensures fits { OnOk result (spec.PartFits (part_of self.now)) }
    {
        match self {
            JsonPointerSegment::Key(text) => write_escaped_str(buffer, text.as_str()),
            JsonPointerSegment::Index(index) => write_index(buffer, *index),
        }
    }
}

/// A path from the root of a document, as a list of steps that is linked by borrows, the last step first.
///
/// A walk makes one on the stack at each step that it takes, and nothing is allocated until the path is written.
#[derive(Drop)]
pub struct JsonPointerNode<'a, 'b> {
    segment: JsonPointerSegment<'a>,
    parent: Option<&'b JsonPointerNode<'a, 'b>>,
}

impl<'a, 'b> JsonPointerNode<'a, 'b> {
    ghost use Rattle.json_pointers.specs.Lent.{part_of, path_of, last_of};

    /// The path of a whole document. Its segment is none of its steps.
    pub const fn new() -> Self
        ensures { path_of result ≡ [] }
    {
        JsonPointerNode {
            segment: JsonPointerSegment::Index(0),
            parent: None,
        }
    }

    /// This path with one more step, in constant time.
    pub fn push<'next, S: Into<JsonPointerSegment<'a>>>(
        &'next self,
        segment: S,
    ) -> JsonPointerNode<'a, 'next>
        ensures { (step : JsonPointerSegment) × (S.Into.converts segment step) × (path_of result ≡ path_of self.now ++ part_of step ∷ []) }
    {
        JsonPointerNode {
            segment: segment.into(),
            parent: Some(self),
        }
    }

    /// The last step. At the root it is an index with no meaning.
    pub const fn segment(&self) -> &JsonPointerSegment<'a>
        ensures { part_of result.now ≡ last_of self.now }
    {
        &self.segment
    }

    /// The path without its last step, and none at the root.
    pub const fn parent(&self) -> Option<&'b JsonPointerNode<'a, 'b>>
        ensures { MatchOption result (path_of self.now ≡ []) (λ above. path_of self.now ≡ path_of above.now ++ last_of self.now ∷ []) }
    {
        self.parent
    }

    /// Appends this path as a pointer's text: a `/` and the part for each step (RFC 6901, section 3).
    ///
    /// It is linear in the text, takes a stack frame for each step, and allocates only where the buffer has to grow.
    pub fn write_to(&self, buffer: &mut String) -> Result<(), AllocError>
        ensures ok { OnOk result
            (string_bytes buffer.new ≡ string_bytes buffer.old ++ spec.pointer_text (path_of self.now)) }
        ensures err { OnErr result (string_bytes buffer.new ≡ string_bytes buffer.old) }
        ensures full { OnErr result
            (string_capacity buffer.old < string_len buffer.old + length (spec.pointer_text (path_of self.now))) }
        ensures capacity { string_capacity buffer.old ≤ string_capacity buffer.new }
        ensures fits { OnOk result (spec.PathFits (path_of self.now)) }
    {
        let start = buffer.len();
        if let Err(error) = self.push_to(buffer) {
            buffer.truncate(start);
            return Err(error);
        }
        Ok(())
    }

    fn push_to(&self, buffer: &mut String) -> Result<(), AllocError>
        ensures ok { OnOk result
            (string_bytes buffer.new ≡ string_bytes buffer.old ++ spec.pointer_text (path_of self.now)) }
        ensures grows { Grows buffer.old buffer.new }
        ensures full { OnErr result
            (string_capacity buffer.old < string_len buffer.old + length (spec.pointer_text (path_of self.now))) }
        ensures fits { OnOk result (spec.PathFits (path_of self.now)) }
    {
        let Some(parent) = self.parent else {
            return Ok(());
        };
        parent.push_to(buffer)?;
        buffer.push('/')?;
        self.segment.write_to(buffer)
    }

    /// This path as a pointer's text, in a new `String`. It costs what [`Self::write_to`] costs.
    pub fn to_pointer(&self, alloc: Global) -> Result<String, AllocError>
        ensures text { IfOk result (λ text. string_bytes text ≡ spec.pointer_text (path_of self.now)) }
        ensures fits { OnOk result (spec.PathFits (path_of self.now)) }
    {
        let mut text = String::new(alloc);
        self.write_to(&mut text)?;
        Ok(text)
    }

    /// The value at this path in a document: a name leads to a member alone, an index to an item alone.
    ///
    /// A look-up and a stack frame for each step, and no allocation.
    pub fn find_in<'v>(&self, document: &'v Value) -> Option<&'v Value>
        ensures { option_map (λ v. view v.now) result
            ≡ spec.value_at (path_of self.now) (view document.now) }
    {
        let Some(parent) = self.parent else {
            return Some(document);
        };
        let value = parent.find_in(document)?;
        match &self.segment {
            JsonPointerSegment::Key(name) => value.get(name.as_str()),
            JsonPointerSegment::Index(index) => value.get(*index),
        }
    }

    /// The value that this path's text leads to in a document, by writing the text and following it.
    ///
    /// Where the path has a value, it is that value. A text does not tell a name from an index, so it may lead on where
    /// the path has none: the name `0` to an item, the index 0 to a member.
    pub fn find_by_text<'v>(
        &self,
        alloc: Global,
        document: &'v Value,
    ) -> Result<Option<&'v Value>, AllocError>
        ensures text { IfOk result (λ found. option_map (λ v. view v.now) found
            ≡ result_ok (spec.locate (spec.pointer_text (path_of self.now)) (view document.now))) }
        ensures same { IfOk result (λ found. (d : Data)
            → spec.value_at (path_of self.now) (view document.now) ≡ Some d
            → option_map (λ v. view v.now) found ≡ Some d) }
    {
        let text = self.to_pointer(alloc)?;
        Ok(pointer(document, text.as_str()))
    }
}

/// The path of a whole document.
impl Default for JsonPointerNode<'_, '_> {
    ghost use Rattle.json_pointers.specs.Lent.{path_of};

    ghost is_default = { λ node. path_of node ≡ [] };

    fn default() -> Self {
        JsonPointerNode::new()
    }
}
