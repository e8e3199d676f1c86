//! The names that schema places bear as dynamic anchors.

ghost use Rattle.std.specs.Prelude.{◌≡◌, ◌||◌, ℕ, List, map, IfOk, OnOk, bytes_eq, string_bytes};
ghost use Rattle.std.specs.BTreeSet.{contains_text};
ghost use Rattle.document_index.specs.Seen.{standing_of};
ghost use Rattle.document_index.specs.Indexes.{dynamic_names_among};

use crate::standing::Standing;
use std::alloc::{AllocError, Global};
use std::collections::BTreeSet;

fn note(alloc: Global, seen: &mut BTreeSet<String>, text: &str) -> Result<(), AllocError>
    ensures { OnOk result ((q : List ℕ) → contains_text seen.new q ≡ (bytes_eq q text.now || contains_text seen.old q)) }
{
    seen.insert(String::from_str(alloc, text)?)?;
    Ok(())
}

/// The names that schema places bear as dynamic anchors, each once, by their first occurrence.
///
/// It takes a look-up in an ordered set for each dynamic anchor, and copies each name twice, one of them freed again.
///
/// # Errors
///
/// Where memory was refused.
pub fn dynamic_names(alloc: Global, standings: &[Standing<'_>]) -> Result<Vec<String>, AllocError>
    ensures { IfOk result (λ names. map string_bytes names.items ≡ dynamic_names_among (map standing_of standings.now)) }
{
    let mut seen = BTreeSet::new(alloc);
    let mut names = Vec::new(alloc);
    for standing in standings {
        if let Some(name) = standing.place.dynamic_anchor() {
            if !seen.contains(name) {
                note(alloc, &mut seen, name)?;
                names.push(String::from_str(alloc, name)?)?;
            }
        }
    }
    Ok(names)
}
