//! Whole numbers.
ghost use Rattle.std.specs.Prelude.{◌≡◌, ◌<◌, ℕ};
ghost use Rattle.json_values.specs.Numbers.{whole as whole_of, is_multiple as is_whole_multiple};
ghost use Rattle.serde_json.specs.View.{view};

use serde_json::Value;

/// The value of a whole number; nothing for any other value, a number with a fraction or an exponent among them.
pub fn whole(value: &Value) -> Option<i128>
    ensures { result ≡ whole_of (view value.now) }
{
    value.as_number()?.as_i128()
}

/// Whether `number` is a whole multiple of `divisor` (Validation 6.2.1).
pub fn is_multiple(divisor: u64, number: i128) -> bool
    requires { 0 < divisor }
    ensures { result ≡ is_whole_multiple divisor number }
{
    number.unsigned_abs() % u128::from(divisor) == 0
}
