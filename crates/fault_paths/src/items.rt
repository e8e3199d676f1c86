//! The indexes of items.
ghost use Rattle.serde_json.specs.View.{view};
ghost use Rattle.fault_paths.specs.Found.{IsIndexed};

use serde_json::Value;

/// The indexes of items fit in memory. It does nothing.
pub fn indexes_fit(value: &Value)
    ensures { IsIndexed (view value.now) }
{
    if let Value::Array(items) = value {
        let _count = items.len();
    }
}
