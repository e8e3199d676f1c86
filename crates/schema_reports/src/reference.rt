//! Where a schema's path begins.
ghost use Rattle.std.specs.Prelude.{◌≡◌, true, IfOk};
ghost use Rattle.schema_definitions.specs.Sites.{path_of_reference};
ghost use Rattle.schema_reports.specs.Readable.{reads_as_path};

use crate::pointer_path::pointer_path;
use schema_steps::Path;
use std::alloc::{AllocError, Global};
use uri_grammar::components::split_fragment;

/// The reference that was followed last: the schema's path begins with its pointer.
#[derive(Clone, Copy)]
pub struct Reference<'r> {
    text: &'r str,
    ghost readable: { reads_as_path text.now ≡ true },
}

impl<'r> Reference<'r> {
    ghost use Rattle.schema_reports.specs.References.{text_of};

    /// The reference that was followed.
    pub const fn followed(text: &'r str) -> Self
        requires { reads_as_path text.now ≡ true }
        ensures { text_of result ≡ text.now }
    {
        Reference { text }
    }

    /// The path that the reference's pointer names, percent-decoded, with names alone; the root where it has no pointer.
    ///
    /// It takes a push for each part. The error comes where memory is out or a count of owners is full.
    pub fn path(&self, alloc: Global) -> Result<Path, AllocError>
        ensures { IfOk result (λ path. path ≡ path_of_reference (text_of self.now)) }
    {
        match split_fragment(self.text) {
            (_, Some(fragment)) => pointer_path(alloc, fragment),
            (_, None) => Ok(Path::root()),
        }
    }
}
