//! Keywords that apply subschemas.
ghost use Rattle.std.specs.Prelude.{◌≡◌, true};
ghost use Rattle.applicators.specs.Forms.{stands};
ghost use Rattle.applicators.specs.Bare.{bare};

use crate::asks::AsksOf;
use crate::combining::Combining;
use serde_json::{Map, Value};

/// A keyword that applies subschemas, wherever these are: its name, what it asks of a value, and how it combines the answers.
#[derive(Drop, Debug)]
pub struct ApplicatorOf<S, L, N, P, E, V> {
    pub keyword: &'static str,
    pub asks: AsksOf<S, L, N, P, E, V>,
    pub combining: Combining,
    /// There is a keyword of this name that asks and combines so.
    pub ghost stands: { stands keyword.now combining (bare asks) ≡ true },
}

/// A keyword of a schema that is read, whose values it lends.
pub type Applicator<'r> = ApplicatorOf<
    &'r Value,
    &'r [Value],
    &'r Map<String, Value>,
    &'r Map<String, Value>,
    &'r Map<String, Value>,
    &'r Value,
>;
