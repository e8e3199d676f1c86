//! Where schemas and keywords stand in their documents.
ghost use Rattle.std.specs.Prelude.{◌≡◌, IfOk, Some, option_map, string_bytes};
ghost use Rattle.schema_reports.specs.KeywordLocations.{keyword_path, absolute_text};
ghost use Rattle.schema_reports.specs.Told.{fault_of, error_is_proper};

use crate::error::ValidationError;
use json_pointers::fragments::FragmentBuffer;
use schema_steps::{Path, Step};
use std::alloc::{AllocError, Global};
use std::rc::Rc;
use uri_references::uri::Uri;

/// The document of a schema, by its URI, and the path of the schema in it.
#[derive(Debug, Drop)]
pub struct SchemaLocation {
    pub document: Rc<Uri>,
    pub path: Path,
}

/// A clone shares both. The error comes where a count of owners is full.
impl Clone for SchemaLocation {
    ghost use Rattle.schema_reports.specs.KeywordLocations.{AreOneLocation};

    ghost is_clone = { AreOneLocation };

    fn clone(&self) -> Result<SchemaLocation, AllocError> {
        Ok(SchemaLocation {
            document: self.document.clone()?,
            path: self.path.clone()?,
        })
    }
}

/// A schema, and whether an error is told of a keyword in it or of the schema itself.
#[derive(Debug, Drop)]
pub struct KeywordLocation {
    pub schema: SchemaLocation,
    pub is_keyword: bool,
}

impl KeywordLocation {
    // The path in the document, with the keyword at the end of an error's schema path.
    fn path(&self, alloc: Global, schema_path: &Path) -> Result<Path, AllocError>
        ensures { IfOk result (λ path. path ≡ keyword_path schema_path.now self.now) }
    {
        if !self.is_keyword {
            return self.schema.path.clone();
        }
        match schema_path.steps().next() {
            Some(Step::Name(name)) => self.schema.path.push_name(alloc, name.as_str()),
            Some(Step::Item(index)) => self.schema.path.push_item(alloc, *index),
            None => self.schema.path.clone(),
        }
    }

    // The document's URI with the path in its fragment.
    fn text(&self, alloc: Global, schema_path: &Path) -> Result<String, AllocError>
        ensures { IfOk result (λ text. string_bytes text ≡ absolute_text schema_path.now self.now) }
    {
        let path = self.path(alloc, schema_path)?;
        let pointer = path.to_pointer(alloc)?;
        let mut fragment = FragmentBuffer::new(alloc);
        fragment.push(pointer.as_str())?;
        let mut text = String::from_str(alloc, self.schema.document.as_str())?;
        text.push('#')?;
        text.push_str(fragment.as_str())?;
        Ok(text)
    }
}

impl<'i> ValidationError<'i> {
    /// This error, told of a keyword of a schema that stands there, or of the schema itself. Nothing is allocated.
    pub fn standing_in(mut self, schema: SchemaLocation, is_keyword: bool) -> ValidationError<'i>
        ensures told { fault_of result ≡ fault_of self.entry }
        ensures proper { error_is_proper result ≡ error_is_proper self.entry }
        ensures standing { result.standing ≡ Some (record { schema = schema; is_keyword = is_keyword }) }
    {
        self.standing = Some(KeywordLocation { schema, is_keyword });
        self
    }

    /// Where the keyword stands, whatever references led there: the URI of its document, and in the fragment the pointer of the keyword in that
    /// document (RFC 6901, section 6); for a schema `false`, of the schema. `None` where no validator told the error.
    ///
    /// It is linear in the text. The error comes where memory is out or a count of owners is full.
    pub fn absolute_keyword_location(&self, alloc: Global) -> Result<Option<String>, AllocError>
        ensures { IfOk result (λ t. option_map string_bytes t ≡ option_map (absolute_text self.now.schema_path) self.now.standing) }
    {
        match &self.standing {
            Some(standing) => Ok(Some(standing.text(alloc, &self.schema_path)?)),
            None => Ok(None),
        }
    }
}
