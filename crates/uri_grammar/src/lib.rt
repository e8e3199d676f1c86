//! The grammar of URIs (RFC 3986): IP addresses in the host, the five components of a text, which texts and components are URI
//! references, and how components are written.
//!
//! Texts are cut and tested in time linear in their length, without an allocation.
#![tactic(auto)]

pub mod addresses;
pub mod character_classes;
pub mod characters;
pub mod components;
pub mod grammar;
