// How many items a schema accepts (Core 10.3.1.3, Validation 6.4.4 and 6.4.5; Draft 7, Validation 6.4.6).
use crate::tests::keywords::subject::assert_told;

const COUNTED: &str = r##"
- {"contains":{"type":"integer"}}
    [] :: # #/contains;
    ["a",1] :: valid
    {"a":"b"} :: valid
- {"contains":false}
    [] :: # #/contains;
- {"contains":{"type":"integer"},"minContains":0}
    [] :: valid
- {"contains":{"type":"integer"},"minContains":2,"maxContains":2}
    [1] :: # #/minContains;
    [1,2] :: valid
    [1,2,3] :: # #/maxContains;
    "a" :: valid
- {"contains":{"type":"integer"},"minContains":3,"maxContains":1}
    [1,2] :: # #/maxContains;
- {"contains":{"type":"integer"},"minContains":3,"maxContains":2}
    [1,2] :: # #/minContains;
- {"contains":{"type":"integer"},"maxContains":1}
    ["a"] :: # #/maxContains;
    [1,"a"] :: valid
- {"contains":{"type":"integer"},"minContains":1}
    ["a"] :: # #/minContains;
- {"minContains":2,"maxContains":0}
    [1] :: valid
- {"$schema":"https://json-schema.org/draft/2019-09/schema","contains":{"type":"integer"},"minContains":2}
    [1] :: # #/minContains;
- {"$schema":"http://json-schema.org/draft-07/schema#","contains":{"type":"integer"},"minContains":2,"maxContains":2}
    [1] :: valid
    ["a"] :: # #/contains;
- {"$schema":"http://json-schema.org/draft-06/schema#","contains":{"type":"integer"},"maxContains":0}
    [1] :: valid
- {"$schema":"http://json-schema.org/draft-04/schema#","contains":{"type":"integer"}}
    ["a"] :: valid
- {"items":{"contains":{"minimum":2},"maxContains":1}}
    [[2],[2,3],[1]] :: #/1 #/items/maxContains; #/2 #/items/maxContains;
"##;

#[test]
fn items_that_are_counted(rt: HostRuntime) {
    assert_told(&rt, rt.alloc(), COUNTED);
}
