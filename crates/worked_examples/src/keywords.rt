//! Examples of every keyword of the five drafts: what the standard says of a value, and what the definitions compute.

ghost use Rattle.std.specs.List.{AllByRecursion};
ghost use Rattle.worked_examples.specs.Forms.{Holds};
ghost use Rattle.worked_examples.specs.AnyType.{any_type_examples};
ghost use Rattle.worked_examples.specs.Numbers.{numbers_examples};
ghost use Rattle.worked_examples.specs.DraftFourLimits.{draft_four_limits_examples};
ghost use Rattle.worked_examples.specs.Texts.{texts_examples};
ghost use Rattle.worked_examples.specs.Matches.{matches_examples};
ghost use Rattle.worked_examples.specs.Lists.{lists_examples};
ghost use Rattle.worked_examples.specs.Objects.{objects_examples};
ghost use Rattle.worked_examples.specs.ItemSchemas.{item_schemas_examples};
ghost use Rattle.worked_examples.specs.ItemCounts.{item_counts_examples};
ghost use Rattle.worked_examples.specs.MemberSchemas.{member_schemas_examples};
ghost use Rattle.worked_examples.specs.NoOtherMembers.{no_other_members_examples};
ghost use Rattle.worked_examples.specs.MemberNames.{member_names_examples};
ghost use Rattle.worked_examples.specs.Dependencies.{dependent_schemas_and_names_examples};
ghost use Rattle.worked_examples.specs.Logic.{combinations_examples};
ghost use Rattle.worked_examples.specs.Nested.{nested_combinations_examples};
ghost use Rattle.worked_examples.specs.Conditions.{conditions_examples};
ghost use Rattle.worked_examples.specs.Booleans.{boolean_schemas_examples};
ghost use Rattle.worked_examples.specs.References.{static_references_examples};
ghost use Rattle.worked_examples.specs.DynamicReferences.{dynamic_references_examples};
ghost use Rattle.worked_examples.specs.Values.{IsSo, IsRead, value_examples, code_point_examples, literal_examples};

/// `type`, `enum` and `const` (Validation 6.1).
pub fn any_type()
    ensures { AllByRecursion Holds any_type_examples }
{}

/// The keywords for numbers (Validation 6.2).
pub fn numbers()
    ensures { AllByRecursion Holds numbers_examples }
{}

/// The limits of Draft 4 with the booleans beside them.
pub fn draft_four_limits()
    ensures { AllByRecursion Holds draft_four_limits_examples }
{}

/// `maxLength` and `minLength` (Validation 6.3).
pub fn texts()
    ensures { AllByRecursion Holds texts_examples }
{}

/// `pattern`, in its four literal forms and by given matches (Validation 6.3.3).
pub fn matches()
    ensures { AllByRecursion Holds matches_examples }
{}

/// `maxItems`, `minItems` and `uniqueItems` (Validation 6.4).
pub fn lists()
    ensures { AllByRecursion Holds lists_examples }
{}

/// `maxProperties`, `minProperties`, `required` and `dependentRequired` (Validation 6.5).
pub fn objects()
    ensures { AllByRecursion Holds objects_examples }
{}

/// `items`, `prefixItems` and `additionalItems`.
pub fn item_schemas()
    ensures { AllByRecursion Holds item_schemas_examples }
{}

/// `contains`, `minContains` and `maxContains`.
pub fn item_counts()
    ensures { AllByRecursion Holds item_counts_examples }
{}

/// `properties`, `patternProperties` and `additionalProperties` as a schema.
pub fn member_schemas()
    ensures { AllByRecursion Holds member_schemas_examples }
{}

/// `additionalProperties` as `false`.
pub fn no_other_members()
    ensures { AllByRecursion Holds no_other_members_examples }
{}

/// `propertyNames`.
pub fn member_names()
    ensures { AllByRecursion Holds member_names_examples }
{}

/// `dependentSchemas` and `dependencies`.
pub fn dependent_schemas_and_names()
    ensures { AllByRecursion Holds dependent_schemas_and_names_examples }
{}

/// `allOf`, `anyOf`, `oneOf` and `not` (Core 10.2.1).
pub fn combinations()
    ensures { AllByRecursion Holds combinations_examples }
{}

/// `allOf`, `anyOf`, `oneOf` and `not` inside one another.
pub fn nested_combinations()
    ensures { AllByRecursion Holds nested_combinations_examples }
{}

/// `if`, `then` and `else` (Core 10.2.2).
pub fn conditions()
    ensures { AllByRecursion Holds conditions_examples }
{}

/// The schemas `true` and `false` (Core 4.3.2).
pub fn boolean_schemas()
    ensures { AllByRecursion Holds boolean_schemas_examples }
{}

/// `$ref` (Core 8.2.3.1).
pub fn static_references()
    ensures { AllByRecursion Holds static_references_examples }
{}

/// `$dynamicRef` and `$recursiveRef`.
pub fn dynamic_references()
    ensures { AllByRecursion Holds dynamic_references_examples }
{}

/// Equality of values (Core 4.2.2), and the range of whole numbers.
pub fn equality_and_numbers()
    ensures { AllByRecursion IsSo value_examples }
{}

/// Code points of a text (Validation 6.3.1), and the white space of ECMA-262.
pub fn code_points_and_spaces()
    ensures { AllByRecursion IsSo code_point_examples }
{}

/// The patterns that are literal forms, and others.
pub fn literal_patterns()
    ensures { AllByRecursion IsRead literal_examples }
{}
