//! What of a site the schemas reached from it depend on. The functions cost nothing to call.
ghost use Rattle.reading_laws.specs.SiteLaws.{AlikeIsEquivalence, AlikeReadAlike, AlikeReachAlike, AlikeHaveCauses, AlikeHaveKeywords};

/// Being alike is an equivalence of sites whose base is the present resource of their scope.
pub fn alike_is_equivalence()
    ensures { AlikeIsEquivalence }
{}

/// Sites that are alike have the same causes, lead to sites that are alike and have the same keywords over such sites, row by row.
pub fn alike_read_alike()
    ensures { AlikeReadAlike }
{}

/// What is reached from one of two sites that are alike is alike to something reached from the other.
pub fn alike_reach_alike()
    ensures { AlikeReachAlike }
{}

/// A cause of a build from one of two sites that are alike is one from the other.
pub fn alike_have_causes()
    ensures { AlikeHaveCauses }
{}

/// At two sites that are alike stand the same keywords, in their order, over sites that are alike.
pub fn alike_have_keywords()
    ensures { AlikeHaveKeywords }
{}
