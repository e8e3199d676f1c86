//! The value of which an error tells.
ghost use Rattle.std.specs.Prelude.{◌≡◌, IfOk};
ghost use Rattle.serde_json.specs.View.{view};
ghost use Rattle.schema_reports.specs.Instances.{value_in};

use serde_json::Value;
use std::alloc::AllocError;
use std::fmt;

// The value of which an error tells: of the instance, or the error's own.
#[derive(Drop)]
pub(crate) enum Instance<'i> {
    Lent(&'i Value),
    Owned(Value),
}

impl Instance<'_> {
    pub(crate) const fn value(&self) -> &Value
        ensures { view result.now ≡ value_in self.now }
    {
        match self {
            Instance::Lent(value) => value,
            Instance::Owned(value) => value,
        }
    }

    // A value that was lent is copied.
    pub(crate) fn into_owned<'o>(self) -> Result<Instance<'o>, AllocError>
        ensures { IfOk result (λ instance. value_in instance ≡ value_in self.entry) }
    {
        match self {
            Instance::Lent(value) => Ok(Instance::Owned(value.clone()?)),
            Instance::Owned(value) => Ok(Instance::Owned(value)),
        }
    }
}

impl fmt::Debug for Instance<'_> {
    fn fmt<W: fmt::Write>(&self, f: &mut fmt::Formatter<W>) -> fmt::Result {
        fmt::Debug::fmt(self.value(), f)
    }
}
