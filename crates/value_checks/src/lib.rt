//! What JSON Schema asks of a value by itself, as code: its type, equality, whole numbers, code points, patterns that need no matcher;
//! a total order of values, by which they are told apart and sought.
#![tactic(auto)]

pub mod distinct;
pub mod equality;
pub mod json_types;
pub mod laws;
pub mod numbers;
pub mod order;
pub mod patterns;
pub mod rising;
pub mod sorted_values;
pub mod texts;
