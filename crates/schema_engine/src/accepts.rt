//! Whether a compiled schema accepts a value.
ghost use Rattle.std.specs.Prelude.{◌≡◌, ◌<◌, ℕ, List, [], Bool, Some, length, OnOk, OnErr, IfOk};
ghost use Rattle.serde_json.specs.View.{view};
ghost use Rattle.schema_meaning.specs.Places.{Key, whole};
ghost use Rattle.schema_meaning.specs.Readings.{Reading, verdicts, unfolded};
ghost use Rattle.schema_meaning.specs.Cut.{cut, AreAll};
ghost use Rattle.schema_engine.specs.Graphs.{reading_of, IsReadingOf, AreKnown};
ghost use Rattle.schema_engine.specs.Led.{BeginAt};
ghost use Rattle.schema_engine.specs.Matches.{InEach};

use crate::graph::Graph;
use crate::matching::Matching;
use crate::place::{Place, Question};
use crate::progress::Progress;
use crate::validate::Validate;
use crate::verdict::accepts_node;
use serde_json::Value;
use std::alloc::AllocError;

/// Whether a node accepts a value.
///
/// Where references come back to where they were, a return is accepted: the answer is that of the cut reading. Where the schema decides
/// by however many unfoldings, it is the decided answer.
///
/// # Errors
///
/// Where memory was refused.
pub fn accepts<'q, 'i: 'q, K: Validate, T: Matching>(
    graph: &'q Graph<K>,
    node: usize,
    value: &'i Value,
    matching: &mut T,
    questions: &mut Vec<Question<'q, 'i>>,
) -> Result<bool, AllocError>
    requires known { AreKnown K.knows (T.matches matching.old).pattern graph.now.nodes.items }
    requires there { node < length graph.now.nodes.items }
    requires begin { BeginAt K.shape (T.matches matching.old) graph.now.nodes.items node (view value.now) }
    ensures matches { OnOk result (T.matches matching.new ≡ T.matches matching.old) }
    ensures stays { OnErr result (T.matches matching.new ≡ T.matches matching.old) }
    ensures questions { OnOk result (questions.new.items ≡ questions.old.items) }
    ensures cut { IfOk result (λ b. InEach (T.matches matching.old) (λ m.
        let r = reading_of K.shape m graph.now.nodes.items in
        (all : List Key) → AreAll r node (whole (view value.now)) all
        → b ≡ cut verdicts r all [] node (whole (view value.now)))) }
    ensures decided { IfOk result (λ b. InEach (T.matches matching.old) (λ m.
        (r : Reading ℕ) (n : ℕ) (answer : Bool) → IsReadingOf K.shape m graph.now.nodes.items r
        → unfolded verdicts r n node (whole (view value.now)) ≡ Some answer → b ≡ answer)) }
{
    accepts_node(
        graph,
        node,
        Place::Value(value),
        &Progress::Nothing,
        matching,
        questions,
    )
}
