//! What gives the bytes of files.

ghost use Rattle.std.specs.Prelude.{ℕ, List};
ghost use Rattle.program_inputs.specs.Held.{Held, Unknown, IsReadOf};

use std::alloc::Global;

/// Why a file was not read.
#[derive(Clone, Copy, Debug, PartialEq, Eq, Drop)]
pub enum FileError {
    /// There is no such file, or it does not let itself be read.
    Unreadable,
    /// Memory was refused.
    Memory,
}

/// What gives the bytes of files.
pub trait SchemaFiles {
    // What a name holds, where it is known.
    ghost held: { Self → List ℕ → Held } = { λ _ _. Unknown };

    /// All the bytes of a file.
    ///
    /// # Errors
    ///
    /// Where the file is not there or does not let itself be read, or memory was refused.
    fn read(&self, alloc: Global, name: &str) -> Result<Vec<u8>, FileError>
        ensures { IsReadOf (held self.now name.now) result };
}
