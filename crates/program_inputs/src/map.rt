//! Files in a map.

ghost use Rattle.std.specs.Prelude.{◌≡◌, ℕ, List, OnOk, OnErr, if◌then◌else◌, bytes_eq};
ghost use Rattle.program_inputs.specs.Held.{Held, Missing, Holds};
ghost use Rattle.program_inputs.specs.Maps.{held_in};

use crate::files::{FileError, SchemaFiles};
use std::alloc::{AllocError, Global};
use std::collections::BTreeMap;

/// Files in memory, by their names. No other file is readable.
#[derive(Debug, Drop)]
pub struct MapFiles {
    files: BTreeMap<String, Vec<u8>>,
}

impl MapFiles {
    /// No files.
    pub fn new(alloc: Global) -> MapFiles
        ensures { (name : List ℕ) → held_in result name ≡ Missing }
    {
        MapFiles {
            files: BTreeMap::new(alloc),
        }
    }

    /// Adds a file, in the place of the one of its name. It takes a copy of both texts.
    ///
    /// # Errors
    ///
    /// Where memory was refused. The files are then as they were.
    pub fn add(&mut self, alloc: Global, name: &str, bytes: &[u8]) -> Result<(), AllocError>
        ensures ok { OnOk result ((other : List ℕ) → held_in self.new other ≡ (if bytes_eq name.now other then Holds bytes.now else held_in self.old other)) }
        ensures unchanged { OnErr result ((other : List ℕ) → held_in self.new other ≡ held_in self.old other) }
    {
        let name = String::from_str(alloc, name)?;
        let bytes = Vec::from_slice(alloc, bytes)?;
        self.files.insert(name, bytes)?;
        Ok(())
    }
}

impl SchemaFiles for MapFiles {
    ghost held = { held_in };

    fn read(&self, alloc: Global, name: &str) -> Result<Vec<u8>, FileError> {
        let Some(bytes) = self.files.get(name) else {
            return Err(FileError::Unreadable);
        };
        Vec::from_slice(alloc, bytes.as_slice()).map_err(|_| FileError::Memory)
    }
}
