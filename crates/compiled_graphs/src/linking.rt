//! Visits that others ask for.

ghost use Rattle.std.specs.Prelude.{OnOk, IfOk};
ghost use Rattle.std.specs.List.{AllZip};
ghost use Rattle.compiled_graphs.specs.Linked.{Links, StandsFor};

use marked_nodes::Edge;
use reached_sites::seen::Visits;
use reached_sites::visit::Visit;
use std::alloc::{AllocError, Global};

/// Puts the visits that the one at a position asks for behind others, unless they are among these, and an edge to each behind other edges. It
/// answers where each stands.
///
/// # Errors
///
/// Where memory was refused or a count of owners is full.
pub(crate) fn link<'r>(
    alloc: Global,
    visits: &mut Visits<'r>,
    edges: &mut Vec<Edge>,
    from: usize,
    leads: Vec<Visit<'r>>,
) -> Result<Vec<usize>, AllocError>
    ensures links { OnOk result (Links from visits.old.list.items visits.new.list.items leads.entry.items edges.old.items edges.new.items) }
    ensures stand { IfOk result (λ ns. AllZip
        (StandsFor from visits.new.list.items edges.new.items) leads.entry.items ns.items) }
{
    let mut numbers = Vec::with_capacity(alloc, leads.len())?;
    for lead in leads {
        let to = visits.put(lead)?;
        edges.push(Edge { from, to })?;
        numbers.push(to)?;
    }
    Ok(numbers)
}
