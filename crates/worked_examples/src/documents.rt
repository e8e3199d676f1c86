//! Documents, roots and instances whose faults are known, computed from the definitions.

ghost use Rattle.std.specs.List.{AllByRecursion};
ghost use Rattle.worked_examples.specs.Dialects.{Gives, meta_schemas};
ghost use Rattle.worked_examples.specs.Entries.{IsEntry, entries};
ghost use Rattle.worked_examples.specs.Identifiers.{IsNamed, named};
ghost use Rattle.worked_examples.specs.Lines.{Written, lines, InputsAreCut};
ghost use Rattle.worked_examples.specs.Lookups.{Answers, lookups, Refuses, refusals};
ghost use Rattle.worked_examples.specs.Pointers.{HasPointers, pointed};
ghost use Rattle.worked_examples.specs.Rows.{Holds, references, scopes, vocabularies, neighbours};
ghost use Rattle.worked_examples.specs.Siblings.{IsRead, besides, LeadsTo, layered};

/// References within a document and between documents.
pub fn references_hold()
    ensures { AllByRecursion Holds references }
{}

/// Dynamic and recursive references.
pub fn scopes_hold()
    ensures { AllByRecursion Holds scopes }
{}

/// Drafts and vocabularies.
pub fn vocabularies_hold()
    ensures { AllByRecursion Holds vocabularies }
{}

/// Vocabularies of the dialects that meta-schemas give: those that the drafts know, each once and in one order.
pub fn dialects_hold()
    ensures { AllByRecursion Gives meta_schemas }
{}

/// Keywords that read their neighbours.
pub fn neighbours_hold()
    ensures { AllByRecursion Holds neighbours }
{}

/// What stands beside `$ref` in Drafts 4, 6 and 7, ignored, and read by the option.
pub fn siblings_hold()
    ensures { AllByRecursion IsRead besides }
{}

/// Documents of two layers: an own one counts before a parent's, and both are there.
pub fn layers_hold()
    ensures { AllByRecursion LeadsTo layered }
{}

/// References looked up: pointers, anchors, bases, and why others lead nowhere.
pub fn lookups_hold()
    ensures { AllByRecursion Answers lookups }
{}

/// The JSON Pointers of schema places, and the references by which they are looked up.
pub fn pointers_hold()
    ensures { AllByRecursion HasPointers pointed }
{}

/// Entries of a map of validators, read behind their document's own resource.
pub fn entries_hold()
    ensures { AllByRecursion IsEntry entries }
{}

/// Documents that are no registry, and why.
pub fn refusals_hold()
    ensures { AllByRecursion Refuses refusals }
{}

/// Identifiers that are no URI references: behind a reference they are causes of a build, where they are reached and count.
pub fn identifiers_hold()
    ensures { AllByRecursion IsNamed named }
{}

/// Lines and the texts that are written for them.
pub fn lines_are_written()
    ensures { AllByRecursion Written lines }
{}

/// Inputs cut into lines.
pub fn inputs_are_cut()
    ensures { InputsAreCut }
{}
