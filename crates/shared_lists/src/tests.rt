// Lists that share their ends, and what their nodes' counts say.
use crate::{Iter, List};
use std::alloc::Global;
use std::hash::{DefaultHasher, Hash, Hasher};
use std::process::Abort;
use std::rc::Rc;

// How many lists and nodes own the first node.
fn owners(list: &List<u32>) -> usize {
    list.head.as_ref().map_or(0, |node| Rc::strong_count(node))
}

fn shown(rt: &impl Abort, alloc: Global, lists: &[&List<u32>]) -> String {
    format!(in alloc; "{lists:?}").expect(rt, "memory")
}

#[test]
fn push_front_leaves_the_old_list(rt: HostRuntime) {
    let empty: List<u32> = List::default();
    let old = empty.push_front(rt.alloc(), 7).expect(&rt, "memory");
    let left = old.push_front(rt.alloc(), 8).expect(&rt, "memory");
    let right = old.push_front(rt.alloc(), 9).expect(&rt, "memory");
    assert!(rt; empty.is_empty() && !old.is_empty());
    assert_eq!(rt; old.first().copied(), Some(7));
    assert_eq!(rt;
        shown(&rt, rt.alloc(), &[&empty, &old, &left, &right]).as_str(),
        "[[], [7], [8, 7], [9, 7]]"
    );
    assert_eq!(rt; owners(&old), 3);
}

fn rest_shown(rt: &impl Abort, alloc: Global, rest: &Iter<'_, &str>) -> String {
    let copy = rest.clone().expect(rt, "memory");
    format!(in alloc; "{copy:?}").expect(rt, "memory")
}

fn joined(rt: &impl Abort, alloc: Global, list: &List<&str>) -> String {
    let mut text = String::new(alloc);
    for word in list {
        text.push_str(word).expect(rt, "memory");
    }
    text
}

// The list of the words, the last at the front.
fn pushed(rt: &impl Abort, alloc: Global, words: [&'static str; 3]) -> List<&'static str> {
    let mut list = List::new();
    for word in words {
        list = list.push_front(alloc, word).expect(rt, "memory");
    }
    list
}

#[test]
fn iter_goes_from_the_front(rt: HostRuntime) {
    let list = pushed(&rt, rt.alloc(), ["c", "b", "a"]);
    let mut rest = list.iter();
    assert_eq!(rt; rest.next().copied(), Some("a"));
    assert_eq!(rt;
        rest_shown(&rt, rt.alloc(), &rest).as_str(),
        "[\"b\", \"c\"]"
    );
    assert_eq!(rt; joined(&rt, rt.alloc(), &list).as_str(), "abc");
}

// The list of 1 with 2 before it.
fn two(rt: &impl Abort, alloc: Global) -> List<u8> {
    let one = List::new().push_front(alloc, 1).expect(rt, "memory");
    one.push_front(alloc, 2).expect(rt, "memory")
}

fn is_shared(one: &List<u8>, other: &List<u8>) -> bool {
    match (&one.head, &other.head) {
        (Some(mine), Some(theirs)) => Rc::ptr_eq(mine, theirs),
        _ => false,
    }
}

fn hash_of(list: &List<u8>) -> u64 {
    let mut state = DefaultHasher::new();
    list.hash(&mut state);
    state.finish()
}

#[test]
fn clone_shares(rt: HostRuntime) {
    let list = two(&rt, rt.alloc());
    let copy = list.clone().expect(&rt, "memory");
    for (other, shared, equal) in [
        (&copy, true, true),
        (&two(&rt, rt.alloc()), false, true),
        (&List::new(), false, false),
    ] {
        assert_eq!(rt; is_shared(&list, other), shared);
        assert_eq!(rt; list == *other, equal);
        assert_eq!(rt; hash_of(&list) == hash_of(other), equal);
    }
}
