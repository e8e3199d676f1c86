//! Where the targets of references lie. The functions cost nothing to call.
ghost use Rattle.document_laws.specs.Awaiting.{LeadsBelow};
ghost use Rattle.document_laws.specs.ListedLaws.{CauselessAwaitNothing, TargetsAreListed};
ghost use Rattle.document_laws.specs.TargetLaws.{ContentsAreOne, DynamicLookupsLie, LookupsLie, LookupsRead, RecursiveLookupsLie};

/// A reference leads to a place of the documents, which nests no deeper than they do.
pub fn lookups_lie()
    ensures { LookupsLie }
{}

/// So does a reference by dynamic scope.
pub fn dynamic_lookups_lie()
    ensures { DynamicLookupsLie }
{}

/// So does a recursive reference.
pub fn recursive_lookups_lie()
    ensures { RecursiveLookupsLie }
{}

/// Among documents whose names are apart, where members' names rise, two references that lead to one place lead to one value.
pub fn contents_are_one()
    ensures { ContentsAreOne }
{}

/// A reference by a pointer that leads somewhere is, percent-decoded, a text.
pub fn lookups_read()
    ensures { LookupsRead }
{}

/// Where members' names rise, what a reference leads to counts as a schema place only where the list of the schema places of its document has
/// one there, with the same contents, base and dialect, as long as no schema place above it awaits its meta-schema. Where the list has one,
/// among documents whose names are apart, the target is that place. In documents without a cause to be refused two targets at one path are one.
pub fn targets_are_listed()
    ensures { TargetsAreListed }
{}

/// In documents that have no cause to be refused no schema place awaits its meta-schema.
pub fn causeless_await_nothing()
    ensures { CauselessAwaitNothing }
{}

/// There is a document in which a pointer leads through a schema place that awaits its meta-schema, to what counts as one and is not listed.
pub fn walk_leads_below()
    ensures { LeadsBelow }
{}
