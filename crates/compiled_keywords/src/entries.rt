//! Where in a compiled keyword the schemas of its questions stand.
ghost use Rattle.std.specs.Prelude.{◌≡◌, map};
ghost use Rattle.schema_engine.specs.Entries.{parts_of};
ghost use Rattle.compiled_keywords.specs.Forms.{form_of, added_in, condition_at, name_at};
ghost use Rattle.compiled_keywords.specs.Owned.{named, by_pattern, depending};

use crate::asks::Asks;
use crate::subschemas::{NamedDependency, NamedNode, PatternNode};
use schema_engine::entry::Entry;

fn named_entry<'k>(keyword: &'k str, nodes: &'k [NamedNode], entry: usize) -> Entry<'k>
    ensures { parts_of result ≡ name_at keyword.now (map named nodes.now) entry }
{
    match nodes.get(entry) {
        Some(node) => Entry::Name {
            keyword,
            name: node.name.as_str(),
        },
        None => Entry::Whole { keyword },
    }
}

fn pattern_entry<'k>(keyword: &'k str, nodes: &'k [PatternNode], entry: usize) -> Entry<'k>
    ensures { parts_of result ≡ name_at keyword.now (map by_pattern nodes.now) entry }
{
    match nodes.get(entry) {
        Some(node) => Entry::Name {
            keyword,
            name: node.pattern.text.as_str(),
        },
        None => Entry::Whole { keyword },
    }
}

fn dependency_entry<'k>(keyword: &'k str, entries: &'k [NamedDependency], entry: usize) -> Entry<'k>
    ensures { parts_of result ≡ name_at keyword.now (map depending entries.now) entry }
{
    match entries.get(entry) {
        Some(dependency) => Entry::Name {
            keyword,
            name: dependency.name.as_str(),
        },
        None => Entry::Whole { keyword },
    }
}

fn condition_entry<'k>(keyword: &'k str, entry: usize) -> Entry<'k>
    ensures { parts_of result ≡ condition_at keyword.now entry }
{
    match entry {
        0 => Entry::Whole { keyword },
        1 => Entry::Whole { keyword: "then" },
        _ => Entry::Whole { keyword: "else" },
    }
}

/// Where the schema of a question of this entry stands in what a keyword asks.
pub(crate) fn entry_of<'k>(keyword: &'k str, asks: &'k Asks, entry: usize) -> Entry<'k>
    ensures { parts_of result ≡ added_in keyword.now (form_of asks.now) entry }
{
    match asks {
        Asks::ItemByItem(_) => Entry::Index {
            keyword,
            index: entry,
        },
        Asks::Branches(_) => Entry::Index {
            keyword,
            index: entry,
        },
        Asks::DeclaredMembers(nodes) => named_entry(keyword, nodes, entry),
        Asks::MatchingMembers(nodes) => pattern_entry(keyword, nodes, entry),
        Asks::Triggered(nodes) => named_entry(keyword, nodes, entry),
        Asks::Dependencies(entries) => dependency_entry(keyword, entries, entry),
        Asks::Condition { .. } => condition_entry(keyword, entry),
        _ => Entry::Whole { keyword },
    }
}
