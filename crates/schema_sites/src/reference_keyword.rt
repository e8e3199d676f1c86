//! The keywords of references.

ghost use Rattle.std.specs.Prelude.{◌≡◌};
ghost use Rattle.schema_sites.specs.References as references;

/// A keyword whose value is a reference (Core 8.2.3; 2019-09, Core 8.2.4).
#[derive(Copy, Clone, Debug, PartialEq, Eq)]
pub enum ReferenceKeyword {
    Ref,
    DynamicRef,
    RecursiveRef,
}

impl ReferenceKeyword {
    /// The keyword's name.
    pub fn as_str(self) -> &'static str
        ensures { result.now ≡ references.name_of self }
    {
        match self {
            ReferenceKeyword::Ref => "$ref",
            ReferenceKeyword::DynamicRef => "$dynamicRef",
            ReferenceKeyword::RecursiveRef => "$recursiveRef",
        }
    }

    /// The keyword of that name, where it is one.
    pub fn named(name: &str) -> Option<ReferenceKeyword>
        ensures { result ≡ references.named name.now }
    {
        if name == "$ref" {
            Some(ReferenceKeyword::Ref)
        } else if name == "$dynamicRef" {
            Some(ReferenceKeyword::DynamicRef)
        } else if name == "$recursiveRef" {
            Some(ReferenceKeyword::RecursiveRef)
        } else {
            None
        }
    }
}
