//! Visits, each of another compile key.

ghost use Rattle.std.specs.Prelude.{◌≡◌, [], map, IfOk, OnOk};
ghost use Rattle.std.specs.List.{IsDistinct};
ghost use Rattle.std.proofs.Props.{props};
ghost use Rattle.reached_sites.specs.Growing.{AddsOne, StandsAt};
ghost use Rattle.reached_sites.specs.Keyed.{key_in, keys_equal};
ghost use Rattle.reached_sites.specs.Visits.{key_at};

use crate::compile_key::CompileKey;
use crate::visit::Visit;
use indexmap::IndexSet;
use std::alloc::{AllocError, Global};

/// Visits, each of another compile key, in first-seen order.
#[derive(Drop)]
pub struct Visits<'r> {
    pub list: Vec<Visit<'r>>,
    keys: IndexSet<CompileKey>,
    ghost filed: { map key_in keys.keys ≡ map key_at list.items },
    ghost apart: { IsDistinct keys_equal keys.keys } by { Prim.hlevel props },
}

impl<'r> Visits<'r> {
    /// No visits. It allocates nothing.
    pub fn new(alloc: Global) -> Visits<'r>
        ensures { result.list.items ≡ [] }
    {
        Visits {
            list: Vec::new(alloc),
            keys: IndexSet::new(alloc),
        }
    }

    /// Puts a visit behind the others, unless one of its key is among them, and answers where it stands. One look-up by its key.
    ///
    /// # Errors
    ///
    /// Where memory was refused or a count of owners is full.
    pub fn put(&mut self, visit: Visit<'r>) -> Result<usize, AllocError>
        ensures grows { OnOk result (AddsOne self.old.list.items self.new.list.items visit.entry) }
        ensures stands { IfOk result (λ i. StandsAt self.new.list.items i visit.entry) }
    {
        let key = visit.compile_key()?;
        self.list.reserve(1)?;
        match self.keys.insert_full(key) {
            Ok((position, is_new)) => {
                if is_new {
                    self.list.push_reserved(visit);
                }
                Ok(position)
            }
            Err(_) => Err(AllocError),
        }
    }
}
