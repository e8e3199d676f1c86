//! The schema places of a document as JSON Pointers, and the references that lead to them.

ghost use Rattle.std.specs.Prelude.{◌≡◌, [], true, None, map, option_map, IfOk, string_bytes, bytes_eq};
ghost use Rattle.std.specs.List.{IsDistinct};
ghost use Rattle.schema_definitions.specs.Bearers as bearers;
ghost use Rattle.schema_dialects.specs.Dialects.{dialects_in};
ghost use Rattle.json_values.specs.Rising.{rises};
ghost use Rattle.document_index.specs.Seen.{document_of};
ghost use Rattle.referencing.specs.Seen.{documents_of};
ghost use Rattle.schema_registries.specs.Pointers as spec;

use document_index::document::Document;
use json_pointers::fragments::FragmentBuffer;
use referencing::Registry;
use schema_dialects::MetaSchemas;
use schema_places::document::places;
use std::alloc::{AllocError, Global};
use uri_references::uri::Uri;

/// The last of some documents with a URI.
pub fn document_at<'d, 'a>(documents: &'d [Document<'a>], uri: &Uri) -> Option<&'d Document<'a>>
    ensures { option_map (λ d. document_of d.now) result ≡ spec.document_at (map document_of documents.now) uri.now }
{
    documents
        .iter()
        .rev()
        .find(|document| document.name.uri.as_str() == uri.as_str())
}

fn pointers_under(
    alloc: Global,
    known: &MetaSchemas,
    document: &Document<'_>,
) -> Result<Vec<String>, AllocError>
    requires { rises (document_of document.now).contents ≡ true }
    ensures pointers { IfOk result (λ v. map string_bytes v.items
        ≡ spec.pointers_under (dialects_in known.now) (document_of document.now)) }
    ensures distinct { IfOk result (λ v. IsDistinct bytes_eq (map string_bytes v.items)) }
{
    let places = places(
        alloc,
        known,
        &document.name.uri,
        document.default,
        document.contents.value(),
    )?;
    let mut pointers = Vec::new(alloc);
    for place in &places {
        pointers.push(place.path.to_pointer(alloc)?)?;
    }
    Ok(pointers)
}

/// The pointers of the schema places of a registry's document, by levels from its root, whose pointer is empty. No pointer stands twice.
/// Of several documents of the URI the last counts, an own one before a parent's, and where there is none there are no pointers.
///
/// It finds the document by comparing the URIs in turn, from the last on, costs what [`places`] costs, and writes a text for each place.
///
/// # Errors
///
/// Where memory was refused, or a count of owners is full.
pub fn pointers_in(
    alloc: Global,
    registry: &Registry<'_>,
    document: &Uri,
) -> Result<Vec<String>, AllocError>
    ensures pointers { IfOk result (λ v. (d : bearers.Document)
        → spec.IsDocumentAt (documents_of registry.now) document.now d
        → map string_bytes v.items ≡ spec.pointers_of (documents_of registry.now) d) }
    ensures distinct { IfOk result (λ v. IsDistinct bytes_eq (map string_bytes v.items)) }
    ensures none { IfOk result (λ v. spec.document_at (documents_of registry.now) document.now ≡ None → v.items ≡ []) }
{
    let Some(found) = document_at(registry.documents(), document) else {
        return Ok(Vec::new(alloc));
    };
    registry.names_rise();
    let resolver = registry.resolver(document.clone()?)?;
    pointers_under(alloc, resolver.meta_schemas(), found)
}

/// The reference by which a pointer is looked up from its document's URI: `#`, and the pointer percent-encoded as a fragment (RFC 6901,
/// section 6). It is linear in the pointer.
///
/// # Errors
///
/// Where memory was refused.
pub fn reference_to(alloc: Global, pointer: &str) -> Result<String, AllocError>
    ensures { IfOk result (λ t. string_bytes t ≡ spec.reference_to pointer.now) }
{
    let mut fragment = FragmentBuffer::new(alloc);
    fragment.push(pointer)?;
    let mut reference = String::from_str(alloc, "#")?;
    reference.push_str(fragment.as_str())?;
    Ok(reference)
}
