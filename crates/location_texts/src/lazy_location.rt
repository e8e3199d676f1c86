//! Paths as linked, borrowed parts.
ghost use Rattle.std.specs.Prelude.{◌≡◌, ◌++◌, ◌∷◌, [], reverse, string_bytes, IfOk, OnOk};
ghost use Rattle.json_values.specs.Parts.{name, index};
ghost use Rattle.json_values.specs.Pointers.{pointer_text};
ghost use Rattle.schema_meaning.specs.Cut.{same_part, same_path};
ghost use Rattle.location_texts.specs.Locations.{part_of};

use json_pointers::{write_escaped_str, write_index};
use schema_steps::Path;
use std::alloc::{AllocError, Global};

// The name of a member, or the index of an item.
#[derive(Clone, Copy)]
enum LazyPart<'a> {
    Name(&'a str),
    Index(usize),
}

/// A path as a list of parts that is linked by borrows, the last part first.
///
/// A walk makes one on the stack at each step that it takes, and nothing is allocated until the path is asked for.
#[derive(Drop)]
pub struct LazyLocation<'a, 'b> {
    part: LazyPart<'a>,
    above: Option<&'b LazyLocation<'a, 'b>>,
}

impl<'a, 'b> LazyLocation<'a, 'b> {
    ghost use Rattle.location_texts.specs.Locations.{location_of};

    /// The empty path.
    pub const fn new() -> Self
        ensures { location_of result ≡ [] }
    {
        LazyLocation {
            part: LazyPart::Index(0),
            above: None,
        }
    }

    /// This path with a name at its end, in constant time.
    pub fn push_name<'next>(&'next self, text: &'a str) -> LazyLocation<'a, 'next>
        ensures { location_of result ≡ name text.now ∷ location_of self.now }
    {
        LazyLocation {
            part: LazyPart::Name(text),
            above: Some(self),
        }
    }

    /// This path with an index at its end, in constant time.
    pub fn push_index<'next>(&'next self, position: usize) -> LazyLocation<'a, 'next>
        ensures { location_of result ≡ index position ∷ location_of self.now }
    {
        LazyLocation {
            part: LazyPart::Index(position),
            above: Some(self),
        }
    }

    /// This path, written out.
    ///
    /// It takes a stack frame and a push for each part, and copies the names. The error comes where memory is out or a count
    /// of owners is full.
    pub fn to_path(&self, alloc: Global) -> Result<Path, AllocError>
        ensures { IfOk result (λ path. path ≡ location_of self.now) }
    {
        let Some(above) = self.above else {
            return Ok(Path::root());
        };
        let path = above.to_path(alloc)?;
        match self.part {
            LazyPart::Name(text) => path.push_name(alloc, text),
            LazyPart::Index(position) => path.push_item(alloc, position),
        }
    }

    /// Appends this path as a pointer's text, from the root on: a `/` and the part for each step (RFC 6901, section 3).
    ///
    /// It is linear in the text, takes a stack frame for each part, and allocates only where the text has to grow. The error
    /// comes where memory is out; what was appended till then may stay.
    pub fn write_to(&self, text: &mut String) -> Result<(), AllocError>
        ensures { OnOk result (string_bytes text.new
            ≡ string_bytes text.old ++ pointer_text (reverse (location_of self.now))) }
    {
        let Some(above) = self.above else {
            return Ok(());
        };
        above.write_to(text)?;
        text.push('/')?;
        match self.part {
            LazyPart::Name(name) => write_escaped_str(text, name),
            LazyPart::Index(position) => write_index(text, position),
        }
    }

    /// Whether two paths have the same parts. It compares pair by pair, the last parts first.
    pub fn is_same(&self, other: &LazyLocation<'_, '_>) -> bool
        ensures { result ≡ same_path (location_of self.now) (location_of other.now) }
    {
        match (self.above, other.above) {
            (None, None) => true,
            (Some(above), Some(other_above)) => {
                is_same_part(self.part, other.part) && above.is_same(other_above)
            }
            _ => false,
        }
    }
}

fn is_same_part(left: LazyPart<'_>, right: LazyPart<'_>) -> bool
    ensures { result ≡ same_part (part_of left.entry) (part_of right.entry) }
{
    match (left, right) {
        (LazyPart::Name(name), LazyPart::Name(other)) => name == other,
        (LazyPart::Index(position), LazyPart::Index(other)) => position == other,
        _ => false,
    }
}
