//! Where in a keyword a subschema stands.

/// Where in a keyword a subschema stands: under the keyword's name alone, under a name in it, or at an index.
#[derive(Clone, Copy)]
pub enum Entry<'k> {
    Whole { keyword: &'k str },
    Name { keyword: &'k str, name: &'k str },
    Index { keyword: &'k str, index: usize },
}
