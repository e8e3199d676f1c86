//! What dynamic and recursive references read of a scope. The functions cost nothing to call.
ghost use Rattle.document_laws.specs.ScopeLaws.{KeysDecide, EnteredIsPresent};

/// From one base, scopes with one scope key, in which the base is the present resource, answer every dynamic and every recursive reference
/// alike, and have one key again after one more entry.
pub fn keys_decide()
    ensures { KeysDecide }
{}

/// A base that is entered is the present resource of the scope.
pub fn entered_is_present()
    ensures { EnteredIsPresent }
{}
