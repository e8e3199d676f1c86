//! Compiled keywords that apply subschemas.
ghost use Rattle.std.specs.Prelude.{◌≡◌, true};
ghost use Rattle.applicators.specs.Forms.{stands};
ghost use Rattle.compiled_keywords.specs.Forms.{form_of};

use crate::asks::Asks;
use applicators::combining::Combining;

/// A compiled keyword that applies subschemas: its name, what it asks of a value, and how it combines the answers.
#[derive(Drop, Debug)]
pub struct Applicator {
    pub keyword: &'static str,
    pub asks: Asks,
    pub combining: Combining,
    /// There is a keyword of this name that asks and combines so.
    pub ghost stands: { stands keyword.now combining (form_of asks) ≡ true },
}
