//! What follows from the definition of the order, for proofs to cite. These functions do nothing.
ghost use Rattle.value_checks.specs.Laws.{OrderIsTotal, TiesAreEqual};

/// Of two values one comes first or they tie, and the order goes on from one to the next.
#[tactic(auto, using(crate::proofs::Keys::order_is_total))]
pub fn order_is_total()
    ensures { OrderIsTotal }
{}

/// Where names rise, values of whole numbers tie just where they are equal; a value with another number equals none.
#[tactic(auto, using(crate::proofs::Ties::ties_are_equal))]
pub fn ties_are_equal()
    ensures { TiesAreEqual }
{}
