//! The kind of what is wrong with a value; whether two errors tell the same, and which of several errors others tell too.
#![tactic(auto)]

mod errors;
mod kinds;
mod shared;
mod values;
mod wrong_kinds;

pub use errors::is_same;
pub use shared::keep_shared;
pub use wrong_kinds::kind_of_wrong;
