//! The names of the keywords that only assert.
ghost use Rattle.std.specs.Prelude.{◌≡◌, IfSome, IfNone, false};
ghost use Rattle.schema_meaning.specs.Members.{is_listed};
ghost use Rattle.assertions.specs.Names.{name_of, count_name, limit_name, assertion_names};

/// What is counted, and from which side.
#[derive(Clone, Copy, Debug, PartialEq, Eq)]
pub enum Count {
    MaxLength,
    MinLength,
    MaxItems,
    MinItems,
    MaxProperties,
    MinProperties,
}

/// A limit that a number may reach.
#[derive(Clone, Copy, Debug, PartialEq, Eq)]
pub enum Limit {
    Maximum,
    Minimum,
}

/// A keyword that only asserts (Validation 6), `pattern` left aside.
#[derive(Clone, Copy, Debug, PartialEq, Eq)]
pub enum AssertionKeyword {
    Type,
    Enum,
    Const,
    MultipleOf,
    Limit(Limit),
    ExclusiveLimit(Limit),
    Count(Count),
    UniqueItems,
    Required,
    DependentRequired,
}

impl AssertionKeyword {
    /// The keyword of a name, if it is one.
    pub fn from_name(name: &str) -> Option<AssertionKeyword>
        ensures some { IfSome result (λ k. name.now ≡ name_of k) }
        ensures none { IfNone result (is_listed name.now assertion_names ≡ false) }
    {
        match name {
            "type" => Some(AssertionKeyword::Type),
            "enum" => Some(AssertionKeyword::Enum),
            "const" => Some(AssertionKeyword::Const),
            "multipleOf" => Some(AssertionKeyword::MultipleOf),
            "maximum" => Some(AssertionKeyword::Limit(Limit::Maximum)),
            "minimum" => Some(AssertionKeyword::Limit(Limit::Minimum)),
            "exclusiveMaximum" => Some(AssertionKeyword::ExclusiveLimit(Limit::Maximum)),
            "exclusiveMinimum" => Some(AssertionKeyword::ExclusiveLimit(Limit::Minimum)),
            "maxLength" => Some(AssertionKeyword::Count(Count::MaxLength)),
            "minLength" => Some(AssertionKeyword::Count(Count::MinLength)),
            "maxItems" => Some(AssertionKeyword::Count(Count::MaxItems)),
            "minItems" => Some(AssertionKeyword::Count(Count::MinItems)),
            "maxProperties" => Some(AssertionKeyword::Count(Count::MaxProperties)),
            "minProperties" => Some(AssertionKeyword::Count(Count::MinProperties)),
            "uniqueItems" => Some(AssertionKeyword::UniqueItems),
            "required" => Some(AssertionKeyword::Required),
            "dependentRequired" => Some(AssertionKeyword::DependentRequired),
            _ => None,
        }
    }
}
