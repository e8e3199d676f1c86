//! The schema places of several documents.

ghost use Rattle.std.specs.Prelude.{◌≡◌, ◌++◌, map, IfOk, OnOk};
ghost use Rattle.schema_definitions.specs.Bearers as bearers;
ghost use Rattle.schema_dialects.specs.Dialects.{dialects_in};
ghost use Rattle.document_index.specs.Located.{located_standings, standings_at};
ghost use Rattle.document_index.specs.Seen.{document_of, standing_of, located_of};

use crate::document::{Document, DocumentName};
use schema_dialects::MetaSchemas;
use schema_places::document::places;
use schema_places::place::Place;
use std::alloc::{AllocError, Global};

/// A schema place of one of several documents.
#[derive(Drop)]
pub struct Standing<'d> {
    /// The document's position among them.
    pub document: usize,
    /// The document's name.
    pub name: DocumentName,
    /// The place in the document.
    pub place: Place<'d>,
}

fn push_standings<'d>(
    alloc: Global,
    known: &MetaSchemas,
    found: &mut Vec<Standing<'d>>,
    position: usize,
    document: &'d Document<'_>,
) -> Result<(), AllocError>
    ensures { OnOk result (map located_of found.new.items ≡ map located_of found.old.items
        ++ standings_at (dialects_in known.now) (position, document_of document.now)) }
{
    let own = places(
        alloc,
        known,
        &document.name.uri,
        document.default,
        document.contents.value(),
    )?;
    found.reserve(own.len())?;
    for place in own {
        found.push(Standing {
            document: position,
            name: document.name.clone()?,
            place,
        })?;
    }
    Ok(())
}

/// The schema places of the documents in their order, those of each by levels from its root.
///
/// It costs what the places of each document cost. The standings of a document share its URI.
///
/// # Errors
///
/// Where memory was refused, or a count of owners is full.
pub fn standings<'d>(
    alloc: Global,
    known: &MetaSchemas,
    documents: &'d [Document<'_>],
) -> Result<Vec<Standing<'d>>, AllocError>
    ensures stand { IfOk result (λ v. map standing_of v.items
        ≡ bearers.standings (dialects_in known.now) (map document_of documents.now)) }
    ensures located { IfOk result (λ v. map located_of v.items
        ≡ located_standings (dialects_in known.now) (map document_of documents.now)) }
{
    let mut found = Vec::new(alloc);
    for (position, document) in documents.iter().enumerate() {
        push_standings(alloc, known, &mut found, position, document)?;
    }
    Ok(found)
}
