//! Texts, of which it is asked whether they are there.

ghost use Rattle.std.specs.Prelude.{◌≡◌, ℕ, List, OnOk, false, bytes_eq, ◌||◌};

use std::alloc::{AllocError, Global};
use std::collections::BTreeMap;

/// Texts, each once.
#[derive(Drop)]
pub struct Names {
    texts: BTreeMap<String, ()>,
}

impl Names {
    ghost use Rattle.document_retrieval.specs.Known.{has_name};

    /// No texts.
    pub fn new(alloc: Global) -> Names
        ensures { (q : List ℕ) → has_name result q ≡ false }
    {
        Names {
            texts: BTreeMap::new(alloc),
        }
    }

    /// Whether a text is there.
    pub fn has(&self, text: &str) -> bool
        ensures { result ≡ has_name self.now text.now }
    {
        self.texts.contains_key(text)
    }

    /// Puts a copy of a text.
    pub fn put(&mut self, alloc: Global, text: &str) -> Result<(), AllocError>
        ensures { OnOk result ((q : List ℕ) → has_name self.new q ≡ (has_name self.old q || bytes_eq text.now q)) }
    {
        self.texts.insert(String::from_str(alloc, text)?, ())?;
        Ok(())
    }
}
