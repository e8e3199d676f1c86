// Documents over those of the meta-schemas: both are there, and an own one counts before one handed in.
use crate::tests::cases::assert_cases;

const HANDED_IN: &str = r##"base http://m/r
meta <http://m/a> {"$defs":{"x":{"$id":"http://m/x","type":"string"}}}
meta <http://m/b> {"type":"string"}
"##;

const OWN: &str = r##"
# a document of the meta-schemas is reached behind an own one of its URI
document <http://m/a> true
document <http://m/r> {"$ref":"http://m/x"}
told "a" => valid
told 1 => # #/$ref/type

document <http://m/a> true
document <http://m/r> {"$ref":"http://m/a"}
told 1 => valid

# of two that bear one URI the own one counts, wherever it stands
document <http://m/b> {"type":"integer"}
document <http://m/r> {"$ref":"http://m/b"}
told 1 => valid
told "a" => # #/$ref/type

document <http://m/x> {"type":"integer"}
document <http://m/r> {"$ref":"http://m/x"}
told 1 => valid
told "a" => # #/$ref/type

document <http://m/r> {"$ref":"http://m/x","$defs":{"y":{"$id":"http://m/x","type":"integer"}}}
told 1 => valid
told "a" => # #/$ref/type

document <http://m/c> {"$id":"http://m/b","type":"integer"}
document <http://m/r> {"$ref":"http://m/b"}
told 1 => valid
told "a" => # #/$ref/type

# and one of theirs where there is no own one
document <http://m/r> {"$ref":"http://m/b"}
told 1 => # #/$ref/type
told "a" => valid

# the two have two names: what is found in one is not taken for what is found in the other
document <http://m/a> {"$defs":{"x":{"type":"integer"}}}
document <http://m/r> {"anyOf":[{"$ref":"http://m/a#/$defs/x"},{"$ref":"http://m/x"}]}
told 1 => valid
told "a" => valid
told null => # #/anyOf

# the map is of the own one
document <http://m/a> {"$defs":{"z":{"type":"integer"}}}
document <http://m/r> true
root http://m/a
keys => <> </$defs/z>
"##;

#[test]
fn own_documents_count_first(rt: HostRuntime) {
    assert_cases(&rt, rt.alloc(), HANDED_IN, OWN);
}
