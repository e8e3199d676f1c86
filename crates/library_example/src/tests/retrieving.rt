// Documents retrieved by a retriever of one's own.
use crate::tests::answers::outcome;
use crate::tests::given::{documents_of, options_of};
use json_schema_validator::{Retrieve, RetrieveError, Uri};
use serde_json::Value;
use std::alloc::Global;
use std::process::Abort;

// It has one document.
#[derive(Drop)]
struct Leaf;

impl Retrieve for Leaf {
    fn retrieve(&self, alloc: Global, uri: &Uri) -> Result<Value, RetrieveError> {
        if uri.as_str() != "http://a.test/leaf" {
            return Err(RetrieveError::Refused);
        }
        match Value::from_str(alloc, r##"{"type":"string"}"##) {
            Ok(document) => Ok(document),
            Err(_) => Err(RetrieveError::Memory),
        }
    }
}

fn assert_outcome(rt: &impl Abort, alloc: Global, case: &str, input: &str, want: &str) {
    let options = options_of(rt, alloc, "").with_retriever(Leaf);
    let documents = documents_of(rt, alloc, case, "document <");
    let found = outcome(rt, alloc, options.build(&documents, ""), input);
    assert_eq!(rt; found.as_str(), want);
}

const LEAF: &str = r##"document <> {"$ref":"http://a.test/leaf"}"##;

const OTHER: &str = r##"document <> {"$ref":"http://a.test/other"}"##;

const REFUSED: &str = "Resource 'http://a.test/other' is not present and retrieving it failed";

#[test]
fn by_a_retriever_of_ones_own(rt: HostRuntime) {
    assert_outcome(&rt, rt.alloc(), LEAF, "\"a\"", "true");
    assert_outcome(&rt, rt.alloc(), LEAF, "1", "false");
    assert_outcome(&rt, rt.alloc(), OTHER, "1", REFUSED);
}
