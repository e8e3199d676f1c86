//! The values of `enum`, to be searched.
ghost use Rattle.std.specs.Prelude.{◌≡◌, IfOk, is_some};
ghost use Rattle.std.specs.Option.{ForSome};
ghost use Rattle.serde_json.specs.View.{view, items_view};
ghost use Rattle.json_values.specs.Equality.{is_among as is_equal_to_some};
ghost use Rattle.compiled_keywords.specs.Options.{AreTexts};

use serde_json::Value;
use std::alloc::{AllocError, Global};
use std::collections::BTreeSet;
use value_checks::equality::equal;

/// With no more options than these, a value is compared with one after another.
const FEW_OPTIONS: usize = 8;

/// The values of `enum`, in the schema's order. Where they are many, a text is sought among their texts by halves.
#[derive(Drop)]
pub struct Options {
    /// The values.
    pub list: Vec<Value>,
    texts: Option<BTreeSet<String>>,
    ghost told: { ForSome texts (λ set. AreTexts set list.items) },
}

impl Options {
    /// Options of these values. The texts among many are copied.
    ///
    /// # Errors
    ///
    /// Where memory was refused.
    pub fn of(alloc: Global, list: Vec<Value>) -> Result<Options, AllocError>
        ensures { IfOk result (λ options. options.list ≡ list) }
    {
        let texts = if list.len() > FEW_OPTIONS {
            Some(texts_of(alloc, list.as_slice())?)
        } else {
            None
        };
        Ok(Options { list, texts })
    }

    /// Whether a text is sought by halves: where there are more than eight values.
    pub fn are_sought(&self) -> bool
        ensures { result ≡ is_some self.now.texts }
    {
        self.texts.is_some()
    }

    /// Whether a value equals one of them (Validation 6.1.2). A text is compared with as many of many texts as their number can be halved, and
    /// another value with one option after another.
    pub fn contains(&self, value: &Value) -> bool
        ensures { result ≡ is_equal_to_some (view value.now) (items_view self.now.list.items) }
    {
        match (&self.texts, value.as_str()) {
            (Some(texts), Some(text)) => texts.contains(text),
            _ => is_among(self.list.as_slice(), value),
        }
    }
}

// The texts among some values, copied.
fn texts_of(alloc: Global, list: &[Value]) -> Result<BTreeSet<String>, AllocError>
    ensures { IfOk result (λ set. AreTexts set list.now) }
{
    let mut texts = BTreeSet::new(alloc);
    for value in list {
        if let Some(text) = value.as_str() {
            texts.insert(String::from_str(alloc, text)?)?;
        }
    }
    Ok(texts)
}

// Whether a value equals one of these.
#[inline(never)]
fn is_among(options: &[Value], value: &Value) -> bool
    ensures { result ≡ is_equal_to_some (view value.now) (items_view options.now) }
{
    for option in options {
        if equal(value, option) {
            return true;
        }
    }
    false
}
