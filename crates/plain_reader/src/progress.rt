//! The references in progress.
ghost use Rattle.std.specs.Prelude.{◌≡◌, ◌==◌, bytes_eq};
ghost use Rattle.document_index.specs.Seen.{name_of};
ghost use Rattle.schema_meaning.specs.Cut.{is_in_progress as is_among, same_path};
ghost use Rattle.location_texts.specs.Locations.{location_of};
ghost use Rattle.plain_reader.specs.Keys.{key, keys_in};

use document_index::document::DocumentName;
use schema_reports::LazyLocation;
use schema_steps::Path;

/// The references in progress, the last one first, each the place of its target with the place of the value that it is asked of. They
/// are linked through the calls that follow them.
#[derive(Clone, Copy)]
pub enum Progress<'p> {
    Nothing,
    Target {
        document: &'p DocumentName,
        path: &'p Path,
        at: &'p LazyLocation<'p, 'p>,
        before: &'p Progress<'p>,
    },
}

// Whether two names are the same.
fn same_documents(left: &DocumentName, right: &DocumentName) -> bool
    ensures { result ≡ bytes_eq (name_of left.now) (name_of right.now) }
{
    left == right
}

// Whether two paths in documents are the same.
fn same_paths(left: &Path, right: &Path) -> bool
    ensures { result ≡ same_path left.now right.now }
{
    left == right
}

/// Whether a reference is in progress.
///
/// It compares with each one in progress until it is found: first the targets, then the places of the value.
pub fn is_in_progress(
    progress: &Progress<'_>,
    document: &DocumentName,
    path: &Path,
    at: &LazyLocation<'_, '_>,
) -> bool
    ensures { result ≡ is_among (key (name_of document.now) path.now (location_of at.now)) (keys_in progress.now) }
{
    match progress {
        Progress::Nothing => false,
        Progress::Target {
            document: other,
            path: other_path,
            at: other_at,
            before,
        } => {
            (same_documents(document, other)
                && same_paths(path, other_path)
                && at.is_same(other_at))
                || is_in_progress(before, document, path, at)
        }
    }
}
