//! What documents have under two that tell the same of meta-schemas. The functions cost nothing to call.
ghost use Rattle.document_laws.specs.Agreeing.{AgreeingTellPlaces, AlikeTell};

/// Where two tell the same of all meta-schemas that are named at the schema places of documents, the places under both are the same.
pub fn agreeing_tell_places()
    ensures { AgreeingTellPlaces }
{}

/// Under two that tell the same of every meta-schema, documents have the same schema places, the same bearers of URIs and of anchors, and a
/// reference leads to the same target, or fails for the same cause.
pub fn alike_tell()
    ensures { AlikeTell }
{}
