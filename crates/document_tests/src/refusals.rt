// Documents that are no registry, and why.
use crate::registries::{assert_asked, assert_topics};
use crate::scripts::{set_by, topics};
use referencing::registry::Registry;
use std::alloc::Global;
use std::process::Abort;

const DOCUMENTS: &str = r##"
document http://a.test/d {"$id":"#%zz"}
refused :: Invalid URI '#%zz'

document http://a.test/d {"$id":"a b"}
refused :: Invalid URI 'a b'

document http://a.test/d {"$ref":"a b#/c"}
refused :: Invalid URI 'a b'

document http://a.test/d {"items":{"$ref":"x#/y"}}
refused :: Resource 'http://a.test/x' is not present and retrieving it failed

document http://a.test/d {"$schema":"http://A.test/m"}
refused :: Unknown meta-schema 'http://a.test/m'

document http://a.test/d {"const":{"$ref":"x"}}
refused :: nothing

document http://a.test/d {"$ref":"#/nowhere"}
refused :: nothing

document http://a.test/a {"$schema":"http://a.test/b"}
document http://a.test/b {"$schema":"http://a.test/nowhere"}
refused :: Unknown meta-schema 'http://a.test/nowhere'

document http://a.test/a {"$schema":"http://a.test/b"}
document http://a.test/b {"$schema":"http://a.test/a"}
refused :: Circular meta-schema 'http://a.test/a'

document http://a.test/a {"$schema":"http://a.test/a"}
document http://a.test/b {}
refused :: Circular meta-schema 'http://a.test/a'

document http://a.test/a {"$schema":"http://a.test/b","items":{"$ref":"c"}}
document http://a.test/b {}
refused :: Resource 'http://a.test/c' is not present and retrieving it failed

document http://a.test/m {"$schema":"https://json-schema.org/draft/2020-12/schema"}
document http://a.test/b {"$schema":"http://a.test/m","$defs":{"x":{"$schema":"http://json-schema.org/draft-04/schema#","id":"http://a.test/m"}}}
refused :: Circular meta-schema 'http://a.test/m'
"##;

#[test]
fn documents_refused(rt: HostRuntime) {
    assert_topics(&rt, rt.alloc(), DOCUMENTS);
}

const META_SCHEMAS: &str = r##"
document http://a.test/m {"$schema":"http://a.test/m7"}
document http://a.test/m7 {"$schema":"http://json-schema.org/draft-07/schema#"}
documents :: 2
retrieved ::
child http://a.test/d {"$schema":"http://a.test/m"} :: Draft7 items type

document http://a.test/m#x {}
refused :: Invalid URI 'http://a.test/m#x'

document http://a.test/m {"$ref":"n"}
refused :: Resource 'http://a.test/n' is not present and retrieving it failed

document http://a.test/m {"$schema":"http://a.test/n"}
refused :: Unknown meta-schema 'http://a.test/n'
"##;

// What is asked of the registry that the documents of a topic are the meta-schemas of.
fn assert_specified(rt: &impl Abort, alloc: Global, topic: &'static str) {
    let documents = set_by(rt, alloc, topic, "document");
    assert_asked(
        rt,
        alloc,
        &Registry::from_meta_schemas(alloc, documents),
        topic,
    );
}

#[test]
fn registries_of_meta_schemas(rt: HostRuntime) {
    for topic in topics(META_SCHEMAS) {
        assert_specified(&rt, rt.alloc(), topic);
    }
}
