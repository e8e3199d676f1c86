//! Keywords that apply subschemas: where their subschemas stand, and the questions that they ask of a value.
#![tactic(auto)]

pub mod applicator;
pub mod asks;
pub mod combined;
pub mod combining;
pub mod declared;
mod patterns;
pub mod question;
pub mod questions;
pub mod subschema;
pub mod subschemas;
