//! Schema paths.

ghost use Rattle.std.specs.Prelude.{◌≡◌, ◌∷◌, [], true, IfOk};
ghost use Rattle.std.specs.Bool.{Decides};
ghost use Rattle.std.specs.Rc.{rc_str_bytes};
ghost use Rattle.json_values.specs.Parts.{name as name_part, index as index_part};
ghost use Rattle.schema_definitions.specs.Sites.{path_of_reference};
ghost use Rattle.schema_reports.specs.Readable.{reads_as_path};
ghost use Rattle.reading_laws.specs.Spelled.{by_name, spelled};

use schema_reports::Reference;
use schema_steps::{Path, Step};
use std::alloc::{AllocError, Global};
use std::rc::RcStr;

/// The path to a schema from the root, or from the reference that was followed last. Its steps are names alone, as those of a pointer
/// are: an item's index is the name of its digits.
#[derive(Drop)]
pub struct SchemaPath {
    pub steps: Path,
    ghost named: { spelled steps ≡ steps },
}

impl SchemaPath {
    /// The path of a root.
    pub const fn root() -> SchemaPath
        ensures { result.steps ≡ [] }
    {
        SchemaPath {
            steps: Path::root(),
        }
    }

    /// The path that begins with a reference.
    ///
    /// # Errors
    ///
    /// Where memory was refused or a count of owners is full.
    pub fn of_reference(alloc: Global, text: &str) -> Result<SchemaPath, AllocError>
        requires { reads_as_path text.now ≡ true }
        ensures { IfOk result (λ p. p.steps ≡ path_of_reference text.now) }
    {
        Ok(SchemaPath {
            steps: Reference::followed(text).path(alloc)?,
        })
    }

    /// The path of a member.
    ///
    /// # Errors
    ///
    /// Where memory was refused or a count of owners is full.
    pub fn member(&self, alloc: Global, name: &str) -> Result<SchemaPath, AllocError>
        ensures { IfOk result (λ p. p.steps ≡ name_part name.now ∷ self.now.steps) }
    {
        self.named(alloc, RcStr::from_str(alloc, name)?)
    }

    /// The path of a member by its name, which is not copied.
    ///
    /// # Errors
    ///
    /// Where memory was refused or a count of owners is full.
    pub fn named(&self, alloc: Global, name: RcStr) -> Result<SchemaPath, AllocError>
        ensures { IfOk result (λ p. p.steps ≡ name_part (rc_str_bytes name) ∷ self.now.steps) }
    {
        Ok(SchemaPath {
            steps: self.steps.push(alloc, Step::Name(name))?,
        })
    }

    /// The path of an item.
    ///
    /// # Errors
    ///
    /// Where memory was refused or a count of owners is full.
    pub fn item(&self, alloc: Global, index: usize) -> Result<SchemaPath, AllocError>
        ensures { IfOk result (λ p. p.steps ≡ by_name (index_part index) ∷ self.now.steps) }
    {
        let mut digits = String::new(alloc);
        Step::Item(index).write_to(&mut digits)?;
        self.member(alloc, digits.as_str())
    }

    /// The same path, shared.
    ///
    /// # Errors
    ///
    /// Where a count of owners is full.
    pub fn shared(&self) -> Result<SchemaPath, AllocError>
        ensures { IfOk result (λ p. p.steps ≡ self.now.steps) }
    {
        Ok(SchemaPath {
            steps: self.steps.clone()?,
        })
    }

    /// Whether both are the same path.
    pub fn is(&self, other: &SchemaPath) -> bool
        ensures { Decides result (self.now.steps ≡ other.now.steps) }
    {
        self.steps == other.steps
    }
}
