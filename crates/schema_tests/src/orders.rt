// The order of values, and lists that are sorted by it.
use crate::asserted_rows::{cut, json};
use serde_json::Value;
use std::alloc::Global;
use std::cmp::Ordering;
use std::fmt::Write;
use std::process::Abort;
use value_checks::distinct::all_distinct;
use value_checks::order::compare;
use value_checks::sorted_values::SortedValues;

// What a value is to another, which items a list holds and lacks, and whether they are distinct.
const ROWS: &str = r#"
null :: less :: false
false :: less :: true
-1 :: greater :: -2
9 :: less :: 10
18446744073709551615 :: greater :: -9223372036854775808
"a" :: less :: "ab"
[1,2] :: greater :: [1]
[] :: less :: {}
{"a":1,"b":2} :: equal :: {"b":2,"a":1}
{"a":1} :: less :: {"b":0}
{"a":1} :: less :: {"a":1,"b":2}
[1,[2]] :: equal :: [1,[2]]
[] :: distinct :: true
[1] :: distinct :: true
[1,true] :: distinct :: true
[0,false] :: distinct :: true
[1,2,1] :: distinct :: false
[[1],[1]] :: distinct :: false
[[1],[true]] :: distinct :: true
[{"a":1,"b":2},{"b":2,"a":1}] :: distinct :: false
[{"a":{"b":[1]}},{"a":{"b":[2]}}] :: distinct :: true
["a","b","c","a"] :: distinct :: false
[null,{},[],"",0,false] :: distinct :: true
[1.5,1.5] :: distinct :: true
[3,"a",null,{"b":2,"a":[1]},[true],-7,false] :: holds :: [3,-7,{"a":[1],"b":2},[true],false,null]
[3,"a",null,{"b":2,"a":[1]},[true],-7,false] :: lacks :: [7,{"a":[1]},true,"b"]
[] :: lacks :: [[3,"a",null,{"b":2,"a":[1]},[true],-7,false]]
"#;

fn items<'v>(rt: &impl Abort, list: &'v Value) -> &'v [Value] {
    list.as_array().expect(rt, "a list").as_slice()
}

fn are_distinct(rt: &impl Abort, alloc: Global, list: &Value) -> bool {
    all_distinct(alloc, items(rt, list)).expect(rt, "memory")
}

// Whether a list holds all of the others, or none.
fn are_held(rt: &impl Abort, alloc: Global, list: &[Value], others: &[Value], want: bool) -> bool {
    let options = SortedValues::of(alloc, list).expect(rt, "memory");
    assert!(rt; options.as_slice().len() == list.len());
    for other in others {
        if options.contains(other) != want {
            return false;
        }
    }
    true
}

fn order(one: &Value, other: &Value) -> &'static str {
    match compare(one, other) {
        Ordering::Less => "less",
        Ordering::Equal => "equal",
        Ordering::Greater => "greater",
    }
}

fn is_so(rt: &impl Abort, alloc: Global, one: &Value, question: &str, other: &Value) -> bool {
    if question == "distinct" {
        other.as_bool() == Some(are_distinct(rt, alloc, one))
    } else if question == "holds" {
        are_held(rt, alloc, items(rt, one), items(rt, other), true)
    } else if question == "lacks" {
        are_held(rt, alloc, items(rt, one), items(rt, other), false)
    } else {
        order(one, other) == question
    }
}

fn assert_row(rt: &impl Abort, alloc: Global, row: &str) {
    let (one, rest) = cut(rt, row);
    let (question, other) = cut(rt, rest);
    let one = json(rt, alloc, one);
    let other = json(rt, alloc, other);
    assert!(rt; is_so(rt, alloc, &one, question, &other), "{row}");
}

#[test]
fn orders_values(rt: HostRuntime) {
    for row in ROWS.trim().lines() {
        assert_row(&rt, rt.alloc(), row);
    }
}

// The texts or the numbers from 1 on, and the last behind them.
fn write_items(rt: &impl Abort, alloc: Global, quote: &str, last: u32) -> String {
    let mut text = String::new(alloc);
    write!(text, "[").expect(rt, "memory");
    for number in 1..10000 {
        write!(text, "{quote}{number}{quote},").expect(rt, "memory");
    }
    write!(text, "{quote}{last}{quote}]").expect(rt, "memory");
    text
}

fn assert_many(rt: &impl Abort, alloc: Global, quote: &str, last: u32, want: bool) {
    let text = write_items(rt, alloc, quote, last);
    let list = json(rt, alloc, text.as_str());
    assert!(rt; are_distinct(rt, alloc, &list) == want, "{last}");
}

#[test]
fn tells_many_items_apart(rt: HostRuntime) {
    for quote in ["", "\""] {
        assert_many(&rt, rt.alloc(), quote, 1, false);
        assert_many(&rt, rt.alloc(), quote, 10000, true);
    }
}
