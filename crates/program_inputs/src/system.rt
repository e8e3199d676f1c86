//! The files of the system.

use crate::files::{FileError, SchemaFiles};
use std::alloc::Global;
use std::fs;
use std::io::{self, ErrorKind, Read};
use std::rt::Files;

/// The files of the system. A name is a path, from where the program runs.
#[derive(Drop)]
pub struct SystemFiles<'r, R> {
    runtime: &'r R,
}

impl<'r, R: Files> SystemFiles<'r, R> {
    /// The files that a runtime reaches.
    pub fn new(runtime: &'r R) -> SystemFiles<'r, R> {
        SystemFiles { runtime }
    }

    fn bytes_of(&self, alloc: Global, name: &str) -> io::Result<Vec<u8>> {
        let mut file = fs::open(self.runtime, name)?;
        let mut bytes = Vec::new(alloc);
        file.read_to_end(&mut bytes)?;
        Ok(bytes)
    }
}

impl<'r, R: Files> SchemaFiles for SystemFiles<'r, R> {
    fn read(&self, alloc: Global, name: &str) -> Result<Vec<u8>, FileError> {
        match self.bytes_of(alloc, name) {
            Ok(bytes) => Ok(bytes),
            Err(error) if error.kind() == ErrorKind::OutOfMemory => Err(FileError::Memory),
            Err(_) => Err(FileError::Unreadable),
        }
    }
}
