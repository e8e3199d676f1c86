//! Whole numbers that keywords have.
ghost use Rattle.std.specs.Prelude.{◌≡◌, Some, option_map};
ghost use Rattle.serde_json.specs.Find.{as_integer};
ghost use Rattle.serde_json.specs.View.{view, number_view};
ghost use Rattle.json_values.specs.Numbers.{whole};

use serde_json::{Number, Value};

/// A whole number, with the number of a value that it was read from.
#[derive(Clone, Copy, Debug)]
pub struct WholeNumber {
    number: Number,
    integer: i128,
    ghost read: { as_integer (number_view number) ≡ Some integer },
}

impl WholeNumber {
    ghost use Rattle.assertions.specs.Shapes.{integer_of};

    /// The whole number that a value is; nothing for any other value, a number with a fraction or an exponent among them.
    pub fn of(value: &Value) -> Option<WholeNumber>
        ensures { option_map integer_of result ≡ whole (view value.now) }
    {
        let number = *value.as_number()?;
        let integer = number.as_i128()?;
        Some(WholeNumber { number, integer })
    }

    /// The number.
    pub const fn get(self) -> i128
        ensures { result ≡ integer_of self }
    {
        self.integer
    }

    /// A value that is the number. It takes no memory.
    pub fn to_value(self) -> Value
        ensures { whole (view result) ≡ Some (integer_of self) }
    {
        Value::Number(self.number)
    }
}
