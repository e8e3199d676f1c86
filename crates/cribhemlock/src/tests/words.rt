// The words of command lines, and the refusals of clap.
use clap::error::ErrorKind;
use program_inputs::ProgramWords;

#[test]
fn a_whole_line(rt: HostRuntime) {
    let words = [
        "root.json",
        "http://a.test/leaf.json=leaf.json",
        "--base",
        "http://a.test/root.json",
    ];
    let read = ProgramWords::read(rt.alloc(), &words).expect(&rt, "words");
    assert_eq!(rt; read.schema, "root.json");
    assert_eq!(rt;
        read.files.as_slice(),
        ["http://a.test/leaf.json=leaf.json"].as_slice()
    );
    assert_eq!(rt; read.base, Some("http://a.test/root.json"));
}

#[test]
fn in_any_order(rt: HostRuntime) {
    let words = ["--base=u:/", "a", "b=c", "--", "--d"];
    let read = ProgramWords::read(rt.alloc(), &words).expect(&rt, "words");
    assert_eq!(rt; read.schema, "a");
    assert_eq!(rt; read.files.as_slice(), ["b=c", "--d"].as_slice());
    assert_eq!(rt; read.base, Some("u:/"));
    let words = [
        "a", "b=c", "--base", "u:/", "--meta", "m", "d=e", "--draft", "none",
    ];
    let read = ProgramWords::read(rt.alloc(), &words).expect(&rt, "words");
    assert_eq!(rt; read.files.as_slice(), ["b=c", "d=e"].as_slice());
    assert_eq!(rt; read.draft, Some("none"));
    assert_eq!(rt; read.meta, Some("m"));
    assert!(rt; !read.ref_siblings);
    let words = ["a"];
    let read = ProgramWords::read(rt.alloc(), &words).expect(&rt, "words");
    assert!(rt; read.files.is_empty());
    assert!(rt; read.base.is_none());
    assert!(rt; read.draft.is_none());
    assert!(rt; read.meta.is_none());
    assert!(rt; !read.ref_siblings);
    assert!(rt; read.output.is_none());
    let words = ["--ref-siblings", "a", "--output", "json", "b=c"];
    let read = ProgramWords::read(rt.alloc(), &words).expect(&rt, "words");
    assert_eq!(rt; read.schema, "a");
    assert_eq!(rt; read.files.as_slice(), ["b=c"].as_slice());
    assert!(rt; read.ref_siblings);
    assert_eq!(rt; read.output, Some("json"));
    assert!(rt; read.instances.is_empty());
    let words = ["--instance", "i", "a", "b=c", "--instance=j", "d=e"];
    let read = ProgramWords::read(rt.alloc(), &words).expect(&rt, "words");
    assert_eq!(rt; read.files.as_slice(), ["b=c", "d=e"].as_slice());
    assert_eq!(rt; read.instances.as_slice(), ["i", "j"].as_slice());
    assert!(rt; read.check.is_none());
    let words = ["--check", "f", "a", "--instance", "i"];
    let read = ProgramWords::read(rt.alloc(), &words).expect(&rt, "words");
    assert_eq!(rt; read.check, Some("f"));
    assert_eq!(rt; read.instances.as_slice(), ["i"].as_slice());
}

#[test]
fn refused(rt: HostRuntime) {
    let cases: [(&[&str], ErrorKind); 10] = [
        (&[], ErrorKind::MissingRequiredArgument),
        (&["--base", "u:/"], ErrorKind::MissingRequiredArgument),
        (&["a", "--drafts", "7"], ErrorKind::UnknownArgument),
        (&["a", "--draft"], ErrorKind::InvalidValue),
        (
            &["a", "--base", "u:/", "--base", "v:/"],
            ErrorKind::ArgumentConflict,
        ),
        (&["a", "--base"], ErrorKind::InvalidValue),
        (
            &["a", "--ref-siblings", "--ref-siblings"],
            ErrorKind::ArgumentConflict,
        ),
        (
            &["a", "--check", "f", "--check", "g"],
            ErrorKind::ArgumentConflict,
        ),
        (&["--help"], ErrorKind::DisplayHelp),
        (&["a", "--version"], ErrorKind::DisplayVersion),
    ];
    for (words, kind) in cases {
        let error = ProgramWords::read(rt.alloc(), words).expect_err(&rt, "words were read");
        assert_eq!(rt; error.kind(), kind);
    }
}

#[test]
fn help(rt: HostRuntime) {
    let alloc = rt.alloc();
    let error = ProgramWords::read(alloc, &["--help"]).expect_err(&rt, "words were read");
    let text = error.to_string(alloc).expect(&rt, "memory");
    for part in [
        "Usage: cribhemlock [OPTIONS] <SCHEMA> [URI=FILE]...",
        "--base <URI>",
        "--draft <DRAFT>",
        "--meta <FILE>",
        "--ref-siblings",
        "--output <FORM>",
        "--instance <FILE>",
        "--check <FILE>",
    ] {
        assert!(rt; text.contains(part), "{text}");
    }
}
