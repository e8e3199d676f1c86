//! What documents tell alone, where no schema place in them awaits its meta-schema. The functions cost nothing to call.
ghost use Rattle.document_laws.specs.PlaceLaws.{DocumentsAloneTell, LookupsAloneTell};

/// Where no schema place of the documents awaits its meta-schema, their places, and the bearers of URIs and anchors among them, are the same
/// whatever is told of meta-schemas, by the documents themselves or otherwise.
pub fn documents_alone_tell()
    ensures { DocumentsAloneTell }
{}

/// Where no schema place of the documents awaits its meta-schema, a reference leads from every base to the same target, or fails for the same
/// cause, whatever is told of meta-schemas.
pub fn lookups_alone_tell()
    ensures { LookupsAloneTell }
{}
