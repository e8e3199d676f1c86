//! What a compiled schema tells of a value.
ghost use Rattle.std.specs.Prelude.{◌≡◌, ◌<◌, ℕ, List, [], length, OnOk, OnErr};
ghost use Rattle.serde_json.specs.View.{view};
ghost use Rattle.schema_engine.specs.Graphs.{AreKnown};
ghost use Rattle.engine_faults.specs.Told.{TellsCut, TellsDecided};
ghost use Rattle.schema_engine.specs.Led.{BeginAt};
ghost use Rattle.schema_engine.specs.Matches.{InEach};

use crate::telling::tell_value;
use schema_engine::graph::Graph;
use schema_engine::matching::Matching;
use schema_engine::place::Question;
use schema_engine::situation::Situation;
use schema_engine::validate::Validate;
use schema_reports::{LazyLocation, Observer};
use serde_json::Value;
use std::alloc::{AllocError, Global};

/// Tells an observer of the faults of a value by a node, in the order of the keywords and of what they ask.
///
/// Where references come back to where they were, a return tells nothing: the faults are those of the cut reading. Where the schema
/// decides by however many unfoldings, they are the decided ones.
///
/// # Errors
///
/// Where memory was refused or a count of owners is full. The observer may have been told of some faults then.
pub fn tell<'q, 'i: 'q, K: Validate, T: Matching>(
    alloc: Global,
    graph: &'q Graph<K>,
    node: usize,
    value: &'i Value,
    matching: &mut T,
    questions: &mut Vec<Question<'q, 'i>>,
    observer: &mut Observer<'i>,
) -> Result<(), AllocError>
    requires known { AreKnown K.knows (T.matches matching.old).pattern graph.now.nodes.items }
    requires there { node < length graph.now.nodes.items }
    requires begin { BeginAt K.shape (T.matches matching.old) graph.now.nodes.items node (view value.now) }
    ensures matches { OnOk result (T.matches matching.new ≡ T.matches matching.old) }
    ensures stays { OnErr result (T.matches matching.new ≡ T.matches matching.old) }
    ensures questions { OnOk result (questions.new.items ≡ questions.old.items) }
    ensures cut { OnOk result (InEach (T.matches matching.old) (λ m.
        TellsCut K.shape m graph.now.nodes.items node (view value.now) observer.old observer.new)) }
    ensures decided { OnOk result (InEach (T.matches matching.old) (λ m.
        TellsDecided K.shape m graph.now.nodes.items node (view value.now) observer.old observer.new)) }
{
    let start = LazyLocation::new();
    let situation = Situation {
        alloc,
        value,
        instance: &start,
        evaluation: &start,
        schema: &graph.nodes[node].schema_path,
        location: &graph.nodes[node].location,
    };
    tell_value(graph, node, situation, matching, questions, observer)
}
