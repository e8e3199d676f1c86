//! Laws on the dialects of meta-schemas: each is the contract of a function.

ghost use Rattle.document_laws.specs.Alternating.{Alternates};
ghost use Rattle.document_laws.specs.Stages.{RestStays, RestIsFixed, ToldAlikeIsSame, OnlyRestTellsNoneAnew, RestIsTold, MetaIsFixed};

/// Where one stage more tells the same of all meta-schemas that are named at schema places, no later stage tells another dialect of any URI
/// than the next one does.
pub fn rest_stays()
    ensures { RestStays }
{}

/// Where stages are at rest, what any later stage tells of a meta-schema is the dialect by the schema that bears its URI under what that stage
/// tells: its draft, and the vocabularies that it requires.
pub fn rest_is_fixed()
    ensures { RestIsFixed }
{}

/// Two dialects count as alike where they are the same.
pub fn told_alike_is_same()
    ensures { ToldAlikeIsSame }
{}

/// A stage is at rest where the next tells no meta-schema anew that is named at a schema place, and only there.
pub fn only_rest_tells_none_anew()
    ensures { OnlyRestTellsNoneAnew }
{}

/// Where one of the stages that are counted is at rest, documents tell what the next stage does, and no meta-schema is told anew.
pub fn rest_is_told()
    ensures { RestIsTold }
{}

/// Where no meta-schema is told anew, documents tell of each meta-schema the dialect by the schema that bears its URI.
pub fn meta_is_fixed()
    ensures { MetaIsFixed }
{}

/// There are documents whose stages never come to rest, and they are refused as circular: the draft of a schema changes with each stage,
/// since its meta-schema is borne by a schema inside itself that one draft reads and the other does not.
pub fn stages_alternate()
    ensures { Alternates }
{}
