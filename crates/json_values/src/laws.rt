//! What follows from the definitions, for proofs to cite. These functions do nothing.
ghost use Rattle.json_values.specs.Laws.{EqualityIsReflexive, EqualityIsSymmetric, EqualityIsTransitive, ObjectsAreEqualByName, EqualKeptTreesAreTheSame, KeptTreesAreTrees, AmongMeansEqualToAnItem, DistinctMeansNoTwoEqual, MultiplesAreProducts, CodePointsAreCounted, SpacesAreCodePoints};

/// A tree equals itself.
#[tactic(auto, using(crate::proofs::LawProofs::equality_is_reflexive))]
pub fn equality_is_reflexive()
    ensures { EqualityIsReflexive }
{}

/// Of two trees each equals the other or neither does.
#[tactic(auto, using(crate::proofs::LawProofs::equality_is_symmetric))]
pub fn equality_is_symmetric()
    ensures { EqualityIsSymmetric }
{}

/// What equals an equal is equal.
#[tactic(auto, using(crate::proofs::LawProofs::equality_is_transitive))]
pub fn equality_is_transitive()
    ensures { EqualityIsTransitive }
{}

/// Objects are equal where they have the same names with equal values, in whatever order.
#[tactic(auto, using(crate::proofs::LawProofs::objects_are_equal_by_name))]
pub fn objects_are_equal_by_name()
    ensures { ObjectsAreEqualByName }
{}

/// Trees as `serde_json` keeps them are equal just where they are the same.
#[tactic(auto, using(crate::proofs::LawProofs::equal_kept_trees_are_the_same))]
pub fn equal_kept_trees_are_the_same()
    ensures { EqualKeptTreesAreTheSame }
{}

/// What `serde_json` keeps names each member once.
#[tactic(auto, using(crate::proofs::LawProofs::kept_trees_are_trees))]
pub fn kept_trees_are_trees()
    ensures { KeptTreesAreTrees }
{}

/// A value is among items where it equals the one at some index.
#[tactic(auto, using(crate::proofs::LawProofs::among_means_equal_to_an_item))]
pub fn among_means_equal_to_an_item()
    ensures { AmongMeansEqualToAnItem }
{}

/// Items are distinct where those at no two indexes are equal.
#[tactic(auto, using(crate::proofs::LawProofs::distinct_means_no_two_equal))]
pub fn distinct_means_no_two_equal()
    ensures { DistinctMeansNoTwoEqual }
{}

/// A multiple of a positive number is that number times some whole number.
#[tactic(auto, using(crate::proofs::LawProofs::multiples_are_products))]
pub fn multiples_are_products()
    ensures { MultiplesAreProducts }
{}

/// A text written out of code points is as long as they are many.
#[tactic(auto, using(crate::proofs::LawProofs::code_points_are_counted))]
pub fn code_points_are_counted()
    ensures { CodePointsAreCounted }
{}

/// A text written out of code points has white space where one of them is.
#[tactic(auto, using(crate::proofs::LawProofs::spaces_are_code_points))]
pub fn spaces_are_code_points()
    ensures { SpacesAreCodePoints }
{}
