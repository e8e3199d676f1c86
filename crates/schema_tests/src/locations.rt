// Locations.
use crate::rows::assert_text;
use location_texts::{LazyLocation, Location};
use schema_steps::Path;
use std::alloc::Global;
use std::hash::{DefaultHasher, Hash, Hasher};
use std::process::Abort;

fn assert_shown(rt: &impl Abort, alloc: Global, location: &Location, want: &str) {
    let text = String::from_str(alloc, location.as_str()).expect(rt, "memory");
    assert_text(rt, "the text", text, want);
    let shown = format!(in alloc; "{location} {location:?}").expect(rt, "memory");
    let both = format!(in alloc; "{want} {want:?}").expect(rt, "memory");
    assert_text(rt, "as it is printed", shown, both.as_str());
}

// A name with a tilde or a slash in it is escaped (RFC 6901, section 3).
#[test]
fn steps_are_joined(rt: HostRuntime) {
    let root = Location::new(rt.alloc());
    assert_shown(&rt, rt.alloc(), &root, "");
    let name = root.join("a/b~c").expect(&rt, "memory");
    assert_shown(&rt, rt.alloc(), &name, "/a~1b~0c");
    let item = name.join(10).expect(&rt, "memory");
    assert_shown(&rt, rt.alloc(), &item, "/a~1b~0c/10");
    let unnamed = root.join("").expect(&rt, "memory");
    assert_shown(&rt, rt.alloc(), &unnamed, "/");
}

#[test]
fn roads_have_locations(rt: HostRuntime) {
    let root = LazyLocation::new();
    let location = Location::from_road(rt.alloc(), &root).expect(&rt, "memory");
    assert_shown(&rt, rt.alloc(), &location, "");
    let member = root.push_name("m~n");
    let item = member.push_index(0);
    let location = Location::from_road(rt.alloc(), &item).expect(&rt, "memory");
    assert_shown(&rt, rt.alloc(), &location, "/m~0n/0");
}

#[test]
fn paths_have_locations(rt: HostRuntime) {
    let location = Location::from_path(rt.alloc(), &Path::root()).expect(&rt, "memory");
    assert_shown(&rt, rt.alloc(), &location, "");
    let member = Path::root()
        .push_name(rt.alloc(), "m~n")
        .expect(&rt, "memory");
    let item = member.push_item(rt.alloc(), 0).expect(&rt, "memory");
    let location = Location::from_path(rt.alloc(), &item).expect(&rt, "memory");
    assert_shown(&rt, rt.alloc(), &location, "/m~0n/0");
}

fn hash_of(location: &Location) -> u64 {
    let mut hasher = DefaultHasher::new();
    location.hash(&mut hasher);
    hasher.finish()
}

// They compare and hash as their texts, which do not tell an index from a name of its digits.
#[test]
fn locations_compare_as_texts(rt: HostRuntime) {
    let root = Location::new(rt.alloc());
    let item = root.join(0).expect(&rt, "memory");
    let name = root.join("0").expect(&rt, "memory");
    assert!(rt; item == name);
    assert!(rt; hash_of(&item) == hash_of(&name));
    let copy = item.clone().expect(&rt, "memory");
    assert_shown(&rt, rt.alloc(), &copy, "/0");
    assert!(rt; root < item);
    assert!(rt; root != item);
}
