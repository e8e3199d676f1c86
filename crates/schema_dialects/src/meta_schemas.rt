//! Meta-schemas of one's own that are known.

ghost use Rattle.std.specs.Prelude.{◌≡◌, ℕ, List, Some, None, option_map, OnOk, OnErr, if◌then◌else◌, bytes_eq};
ghost use Rattle.schema_dialects.specs.Dialects.{dialect_of, dialects_in};

use crate::dialect::Dialect;
use std::alloc::{AllocError, Global};
use std::collections::BTreeMap;

/// The dialects that meta-schemas of one's own give to the schemas that name them, by their URIs.
#[derive(Debug, Drop)]
pub struct MetaSchemas {
    by_uri: BTreeMap<String, Dialect>,
}

impl MetaSchemas {
    /// No meta-schemas but the drafts' own.
    pub fn none(alloc: Global) -> MetaSchemas
        ensures { (uri : List ℕ) → dialects_in result uri ≡ None }
    {
        MetaSchemas {
            by_uri: BTreeMap::new(alloc),
        }
    }

    /// The dialect that the meta-schema of a URI gives. It takes a look-up in an ordered map.
    pub fn get(&self, uri: &str) -> Option<Dialect>
        ensures { option_map dialect_of result ≡ dialects_in self.now uri.now }
    {
        self.by_uri.get(uri).copied()
    }

    /// Puts a meta-schema under a URI, in place of what stood there. It takes a look-up in an ordered map, and a copy of the URI.
    ///
    /// # Errors
    ///
    /// Where memory was refused; what was known stays.
    pub fn insert(&mut self, alloc: Global, uri: &str, dialect: Dialect) -> Result<(), AllocError>
        ensures put { OnOk result ((q : List ℕ) → dialects_in self.new q ≡ (if bytes_eq uri.now q then Some (dialect_of dialect) else dialects_in self.old q)) }
        ensures unchanged { OnErr result ((q : List ℕ) → dialects_in self.new q ≡ dialects_in self.old q) }
    {
        self.by_uri.insert(String::from_str(alloc, uri)?, dialect)?;
        Ok(())
    }
}
