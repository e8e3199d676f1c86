//! What the members of schemas are.

use crate::reference_keyword::ReferenceKeyword;
use applicators::applicator::Applicator;
use assertions::assertion::Assertion;
use referencing::{Error, Resolved};
use serde_json::Value;
use std::alloc::AllocError;

/// What a member of a schema is: nothing that asserts, or a keyword read from its value and its neighbours.
#[derive(Drop)]
pub enum Keyword<'r> {
    Nothing,
    /// A keyword that only asserts.
    Assertion(Assertion<'r>),
    /// `pattern`, whose text a maker has to make.
    Pattern(&'r str),
    /// `if`, with the schemas of `then` and `else` where they stand beside.
    If {
        condition: &'r Value,
        then_schema: Option<&'r Value>,
        else_schema: Option<&'r Value>,
    },
    /// `then` or `else`, whose schema the `if` beside applies.
    Consequent {
        name: &'static str,
        schema: &'r Value,
    },
    /// Another keyword that applies the schemas in its value, whose verdict is by how many of them accept.
    Applicator(Applicator<'r>),
    /// A reference with what it leads to, which for those by the dynamic scope depends on the site's.
    Reference {
        keyword: ReferenceKeyword,
        text: &'r str,
        target: Resolved<'r>,
    },
}

/// Why a member is refused.
#[derive(Drop)]
pub enum Refusal<'r> {
    /// The keyword's own value.
    Value {
        expected: &'static str,
    },
    /// A member of the keyword's value.
    Entry {
        name: &'r str,
        expected: &'static str,
    },
    /// An item of the keyword's value.
    Element {
        index: usize,
        expected: &'static str,
    },
    /// The target of a reference is no schema.
    Target {
        target: Resolved<'r>,
    },
    /// The reference leads nowhere.
    Reference(Error),
    /// The keyword is left out.
    LeftOut,
    /// Memory was refused, or a count of owners is full.
    Memory,
}

impl<'r> From<AllocError> for Refusal<'r> {
    ghost use Rattle.std.specs.Prelude.{◌≡◌};
    ghost use Rattle.schema_sites.specs.declared.keyword.Refusal.TheVariants as refusal;

    ghost from_gives = { λ _ r. r ≡ refusal.Memory };

    fn from(_error: AllocError) -> Refusal<'r> {
        Refusal::Memory
    }
}

impl<'r> From<Error> for Refusal<'r> {
    ghost use Rattle.schema_sites.specs.Errors.{IsRefusalOf};

    ghost from_gives = { IsRefusalOf };

    fn from(error: Error) -> Refusal<'r> {
        match error {
            Error::Memory => Refusal::Memory,
            error => Refusal::Reference(error),
        }
    }
}
