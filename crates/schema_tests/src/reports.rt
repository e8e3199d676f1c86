// Paths, references, and what each observer hears.
use crate::rows::{assert_answer, assert_text};
use assertions::read;
use error_texts::write_paths;
use schema_reports::heard::pairs_heard;
use schema_reports::{
    AllFaults, ErrorIterator, FirstFault, LazyLocation, Observation, Observer, PathPairs,
    Reference, ValidationError, ValidationErrorKind, Verdict,
};
use schema_steps::Path;
use serde_json::Value;
use std::alloc::Global;
use std::process::Abort;

fn assert_path(rt: &impl Abort, alloc: Global, path: Path, want: &str) {
    assert!(rt; path.is_root() == want.is_empty(), "{want}");
    let pointer = path.to_pointer(alloc).expect(rt, "memory");
    assert_text(rt, want, pointer, want);
}

fn assert_location(rt: &impl Abort, alloc: Global, location: &LazyLocation<'_, '_>) {
    let path = location.to_path(alloc).expect(rt, "memory");
    assert_path(rt, alloc, path, "/a~1b/2");
    let mut text = String::from_str(alloc, "at ").expect(rt, "memory");
    location.write_to(&mut text).expect(rt, "memory");
    assert_text(rt, "behind a text", text, "at /a~1b/2");
}

#[test]
fn locations_are_paths(rt: HostRuntime) {
    let root = LazyLocation::new();
    let list = root.push_name("a/b");
    assert_location(&rt, rt.alloc(), &list.push_index(2));
}

fn assert_begins(rt: &impl Abort, alloc: Global, reference: Reference<'_>, want: &str) {
    let path = reference.path(alloc).expect(rt, "memory");
    assert_path(rt, alloc, path, want);
}

#[test]
fn references_begin_paths(rt: HostRuntime) {
    assert_begins(
        &rt,
        rt.alloc(),
        Reference::followed("http://a.test/s#/$defs/a~1b/0"),
        "/$defs/a~1b/0",
    );
    assert_begins(&rt, rt.alloc(), Reference::followed("#anchor"), "");
    assert_begins(&rt, rt.alloc(), Reference::followed("http://a.test/s"), "");
}

// What each observer is told, and what it has heard then: whether more can change it, its verdict, and its errors.
// An error is shown by its paths in the instance, in the schema and of evaluation, its value, its kind, and its own text; where no more
// is kept, by its paths in the instance and of evaluation.
const HEARD: [(Observation, &str, &str); 16] = [
    (Observation::Verdict, "", "open accepted"),
    (Observation::Verdict, "null", "settled refused"),
    (Observation::Verdict, "text", "settled refused"),
    (Observation::First, "", "open"),
    (
        Observation::First,
        "null",
        "settled; /0/a /not /not null FalseSchema: FalseSchema",
    ),
    (
        Observation::First,
        "text null text",
        r#"settled; /0/a /not /not "name" FalseSchema: FalseSchema"#,
    ),
    (
        Observation::First,
        "name",
        r#"settled;  /not /not {"name":1} PropertyNames: PropertyNames of /0/a /not /not "name" FalseSchema: FalseSchema"#,
    ),
    (Observation::All, "", "open"),
    (
        Observation::All,
        "null",
        "open; /0/a /not /not null FalseSchema: FalseSchema; /0/b /items /items null FalseSchema: FalseSchema",
    ),
    (
        Observation::All,
        "null text",
        r#"open; /0/a /not /not null FalseSchema: FalseSchema; /0/b /items /items null FalseSchema: FalseSchema; /0/a /not /not "name" FalseSchema: FalseSchema; /0/b /items /items "name" FalseSchema: FalseSchema"#,
    ),
    (
        Observation::All,
        "kinds",
        "open;    null MinItems: MinItems;    null Pattern: Pattern;    null Types: Types;    null Not: Not",
    ),
    (Observation::Paths, "", "open"),
    (Observation::Paths, "null", "open; /0/a /not; /0/b /items"),
    (
        Observation::Paths,
        "null text",
        "open; /0/a /not; /0/b /items; /0/a /not; /0/b /items",
    ),
    (
        Observation::Paths,
        "null name",
        "open; /0/a /not; /0/b /items;  /not;  /items",
    ),
    (Observation::Paths, "kinds", "open;  ;  ;  ;  "),
];

const VALUES: &str =
    r#"{"null": null, "text": "name", "object": {"name": 1}, "types": ["null", "array"]}"#;

fn value<'v>(rt: &impl Abort, values: &'v Value, name: &str) -> &'v Value {
    values.get(name).expect(rt, "a value")
}

// Tells of an error, where the observer wants to be told.
fn keep<'i>(
    rt: &impl Abort,
    alloc: Global,
    observer: &mut Observer<'i>,
    kind: ValidationErrorKind<'i>,
    instance: &'i Value,
    at: Path,
    road: Path,
) {
    if observer.hear() {
        let schema = road.clone().expect(rt, "memory");
        let error = ValidationError::new(alloc, kind, instance, at, schema, road);
        observer
            .keep(alloc, error.expect(rt, "memory"))
            .expect(rt, "memory");
    }
}

// A member of the first item is refused, by a keyword.
fn refuse<'i>(
    rt: &impl Abort,
    alloc: Global,
    observer: &mut Observer<'i>,
    instance: &'i Value,
    member: &str,
    keyword: &str,
) {
    let top = LazyLocation::new();
    let item = top.push_index(0);
    let at = item.push_name(member);
    let at = at.to_path(alloc).expect(rt, "memory");
    let road = top.push_name(keyword);
    let road = road.to_path(alloc).expect(rt, "memory");
    let kind = ValidationErrorKind::FalseSchema;
    keep(rt, alloc, observer, kind, instance, at, road);
}

fn refuse_twice<'i>(
    rt: &impl Abort,
    alloc: Global,
    observer: &mut Observer<'i>,
    instance: &'i Value,
) {
    refuse(rt, alloc, observer, instance, "a", "not");
    refuse(rt, alloc, observer, instance, "b", "items");
}

// A text that goes when this returns is refused.
fn refuse_a_text(rt: &impl Abort, alloc: Global, observer: &mut Observer<'_>) {
    let text = Value::String(String::from_str(alloc, "name").expect(rt, "memory"));
    let mut heard = observer.fresh(alloc);
    refuse_twice(rt, alloc, &mut heard, &text);
    observer.absorb(alloc, heard).expect(rt, "memory");
}

// The text is refused as a name of the object.
fn refuse_a_name<'i>(
    rt: &impl Abort,
    alloc: Global,
    observer: &mut Observer<'i>,
    text: &'i Value,
    object: &'i Value,
) {
    let top = LazyLocation::new();
    let mut heard = observer.fresh(alloc);
    refuse_twice(rt, alloc, &mut heard, text);
    observer
        .absorb_names(alloc, heard, object, &top)
        .expect(rt, "memory");
}

// The instance is refused for this.
fn refuse_for<'i>(
    rt: &impl Abort,
    alloc: Global,
    observer: &mut Observer<'i>,
    instance: &'i Value,
    kind: ValidationErrorKind<'i>,
) {
    let root = Path::root();
    keep(rt, alloc, observer, kind, instance, Path::root(), root);
}

fn refuse_by_kinds<'i>(
    rt: &impl Abort,
    alloc: Global,
    observer: &mut Observer<'i>,
    null: &'i Value,
    types: &Value,
) {
    let kind = ValidationErrorKind::MinItems { limit: 3 };
    let shown = kind.to_string(alloc).expect(rt, "memory");
    assert_text(rt, "the kind", shown, "MinItems");
    refuse_for(rt, alloc, observer, null, kind);
    let pattern = String::from_str(alloc, "^a").expect(rt, "memory");
    let kind = ValidationErrorKind::Pattern { pattern };
    refuse_for(rt, alloc, observer, null, kind);
    let names = read(alloc, types).expect(rt, "memory").expect(rt, "names");
    assert!(rt; names.accept(types));
    assert!(rt; !names.accept(&Value::Bool(true)));
    refuse_for(
        rt,
        alloc,
        observer,
        null,
        ValidationErrorKind::Types { names },
    );
    let schema = types.clone().expect(rt, "memory");
    refuse_for(
        rt,
        alloc,
        observer,
        null,
        ValidationErrorKind::Not { schema },
    );
}

fn tell<'i>(
    rt: &impl Abort,
    alloc: Global,
    observer: &mut Observer<'i>,
    told: &str,
    values: &'i Value,
) {
    let null = value(rt, values, "null");
    let text = value(rt, values, "text");
    let object = value(rt, values, "object");
    let types = value(rt, values, "types");
    for word in told.split(' ') {
        match word {
            "null" => refuse_twice(rt, alloc, observer, null),
            "text" => refuse_a_text(rt, alloc, observer),
            "name" => refuse_a_name(rt, alloc, observer, text, object),
            "kinds" => refuse_by_kinds(rt, alloc, observer, null, types),
            _ => (),
        }
    }
}

fn write_state(rt: &impl Abort, output: &mut String, observer: &Observer<'_>) {
    let state = if observer.is_settled() {
        "settled"
    } else {
        "open"
    };
    output.push_str(state).expect(rt, "memory");
    if let Observer::Verdict(verdict) = observer {
        let told = if verdict.accepts() {
            " accepted"
        } else {
            " refused"
        };
        output.push_str(told).expect(rt, "memory");
    }
}

fn write_path(rt: &impl Abort, output: &mut String, path: &Path) {
    output.push(' ').expect(rt, "memory");
    path.write_to(output).expect(rt, "memory");
}

// The name of its kind is the text of an error.
fn write_error(rt: &impl Abort, output: &mut String, error: &ValidationError<'_>) {
    write_path(rt, output, error.instance_path());
    write_path(rt, output, error.schema_path());
    write_path(rt, output, error.evaluation_path());
    let value = error.instance();
    let kind = error.kind().as_str();
    write!(output, " {value} {kind}: {error}").expect(rt, "memory");
}

// The error of a name carries that of the name itself.
fn write_errors(rt: &impl Abort, output: &mut String, errors: &[ValidationError<'_>]) {
    for error in errors {
        output.push(';').expect(rt, "memory");
        write_error(rt, output, error);
        if let ValidationErrorKind::PropertyNames { error: carried } = error.kind() {
            output.push_str(" of").expect(rt, "memory");
            write_error(rt, output, carried);
        }
    }
}

fn write_pairs(rt: &impl Abort, output: &mut String, pairs: &[(String, String)]) {
    for (instance, evaluation) in pairs {
        write!(output, "; {instance} {evaluation}").expect(rt, "memory");
    }
}

fn write_heard(rt: &impl Abort, alloc: Global, output: &mut String, observer: Observer<'_>) {
    match observer {
        Observer::Verdict(_) => (),
        Observer::First(first) => {
            let errors: Result<Vec<_>, _> = first.into_error().into_iter().collect(alloc);
            write_errors(rt, output, &errors.expect(rt, "memory"));
        }
        Observer::All(all) => {
            let errors: Result<Vec<_>, _> = ErrorIterator::of(all.into_errors()).collect(alloc);
            write_errors(rt, output, &errors.expect(rt, "memory"));
        }
        Observer::Paths(paths) => write_pairs(rt, output, &paths.into_pairs()),
    }
}

fn observing<'i>(alloc: Global, kept: Observation) -> Observer<'i> {
    match kept {
        Observation::Verdict => Observer::Verdict(Verdict::new()),
        Observation::First => Observer::First(FirstFault::new()),
        Observation::All => Observer::All(AllFaults::new(alloc)),
        Observation::Paths => Observer::Paths(PathPairs::new(alloc)),
    }
}

fn heard(rt: &impl Abort, alloc: Global, kept: Observation, told: &str, values: &Value) -> String {
    let mut output = String::new(alloc);
    let mut observer = observing(alloc, kept);
    tell(rt, alloc, &mut observer, told, values);
    write_state(rt, &mut output, &observer);
    write_heard(rt, alloc, &mut output, observer);
    output
}

#[test]
fn observers_hear(rt: HostRuntime) {
    let values = Value::from_str(rt.alloc(), VALUES).expect(&rt, "JSON");
    for (kept, told, want) in &HEARD {
        let found = heard(&rt, rt.alloc(), *kept, told, &values);
        assert_text(&rt, told, found, want);
    }
}

// Whether each observer keeps faults by their paths, and what it has heard then: of two faults, of a member whose name has escapes and
// of an item of it, and of the same two as faults of a name of that item.
const KEPT: [(Observation, bool, &str); 4] = [
    (Observation::Verdict, false, "open accepted"),
    (Observation::First, false, "open"),
    (Observation::All, false, "open"),
    (
        Observation::Paths,
        true,
        "open; /a~0~1b /not; /a~0~1b/2 /items/a~0~1b/10; /a~0~1b/2 /not; /a~0~1b/2 /items/a~0~1b/10",
    ),
];

fn assert_kept(
    rt: &impl Abort,
    alloc: Global,
    observer: &mut Observer<'_>,
    at: &LazyLocation<'_, '_>,
    road: &LazyLocation<'_, '_>,
    want: bool,
) {
    let kept = observer.keep_paths(alloc, at, road).expect(rt, "memory");
    assert_answer(rt, "keeps the paths", kept, want);
}

// The member is refused, and then the item.
fn refuse_by_paths(
    rt: &impl Abort,
    alloc: Global,
    observer: &mut Observer<'_>,
    member: &LazyLocation<'_, '_>,
    want: bool,
) {
    let top = LazyLocation::new();
    let road = top.push_name("not");
    assert_kept(rt, alloc, observer, member, &road, want);
    let items = top.push_name("items");
    let name = items.push_name("a~/b");
    let item = member.push_index(2);
    assert_kept(rt, alloc, observer, &item, &name.push_index(10), want);
}

fn kept(
    rt: &impl Abort,
    alloc: Global,
    observation: Observation,
    want: bool,
    object: &Value,
) -> String {
    let mut output = String::new(alloc);
    let mut observer = observing(alloc, observation);
    let top = LazyLocation::new();
    let member = top.push_name("a~/b");
    refuse_by_paths(rt, alloc, &mut observer, &member, want);
    let mut named = observer.fresh(alloc);
    refuse_by_paths(rt, alloc, &mut named, &member, want);
    let item = member.push_index(2);
    let absorbed = observer.absorb_names(alloc, named, object, &item);
    absorbed.expect(rt, "memory");
    write_state(rt, &mut output, &observer);
    write_pairs(rt, &mut output, &pairs_heard(alloc, observer));
    output
}

#[test]
fn observers_keep_paths(rt: HostRuntime) {
    let values = Value::from_str(rt.alloc(), VALUES).expect(&rt, "JSON");
    for (observation, want, text) in &KEPT {
        let found = kept(&rt, rt.alloc(), *observation, *want, &values);
        assert_text(&rt, text, found, text);
    }
}

#[test]
fn pairs_are_written_in_order(rt: HostRuntime) {
    let alloc = rt.alloc();
    let null = Value::Null;
    let mut observer = observing(alloc, Observation::Paths);
    refuse(&rt, alloc, &mut observer, &null, "b", "items");
    refuse(&rt, alloc, &mut observer, &null, "a", "not");
    let mut text = String::new(alloc);
    write_paths(alloc, pairs_heard(alloc, observer), &mut text).expect(&rt, "memory");
    assert_text(&rt, "pairs", text, r#"[["/0/a","/not"],["/0/b","/items"]]"#);
}
