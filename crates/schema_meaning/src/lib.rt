//! What the keywords of JSON Schema mean: definitions alone, in `specs/`.
#![tactic(auto)]
