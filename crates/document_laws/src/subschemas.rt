//! The schemas directly inside a schema, and its children among the places.
ghost use Rattle.document_laws.specs.Subschemas.{ChildrenAreSubschemas};

/// The places directly below a place have the schemas directly inside its contents, in their order.
pub fn children_are_subschemas()
    ensures { ChildrenAreSubschemas }
{}
