//! Documents.

ghost use Rattle.std.specs.Prelude.{◌≡◌, IfOk};
ghost use Rattle.serde_json.specs.View.{view};

use schema_drafts::draft::Draft;
use serde_json::Value;
use std::alloc::AllocError;
use std::rc::Rc;
use uri_references::uri::Uri;

/// What a document holds: lent, owned or shared.
#[derive(Drop)]
pub enum Contents<'a> {
    Lent(&'a Value),
    Owned(Value),
    Shared(Rc<Value>),
}

impl<'a> Contents<'a> {
    ghost use Rattle.document_sources.specs.Seen.{contents_view};

    /// The value. It copies nothing.
    pub fn value(&self) -> &Value
        ensures { view result.now ≡ contents_view self.now }
    {
        match self {
            Contents::Lent(value) => value,
            Contents::Owned(value) => value,
            Contents::Shared(value) => value,
        }
    }

    /// The same contents once more: what is lent is lent again, what is shared has one more owner, and what is owned is copied.
    ///
    /// # Errors
    ///
    /// Where memory is out or the count of owners is full.
    pub fn share(&self) -> Result<Contents<'a>, AllocError>
        ensures { IfOk result (λ c. contents_view c ≡ contents_view self.now) }
    {
        match self {
            Contents::Lent(value) => Ok(Contents::Lent(*value)),
            Contents::Owned(value) => Ok(Contents::Owned(value.clone()?)),
            Contents::Shared(value) => Ok(Contents::Shared(value.clone()?)),
        }
    }
}

/// A document.
#[derive(Drop)]
pub struct Document<'a> {
    /// The URI under which it was added, which is its base where its root has no identifier (RFC 3986, section 5.1.3).
    pub uri: Rc<Uri>,
    /// What it holds.
    pub contents: Contents<'a>,
    /// The draft by which it is read where its root names none, if one was given with it.
    pub draft: Option<Draft>,
}
