// Files of a map and of the system.
use program_inputs::{FileError, MapFiles, SchemaFiles, SystemFiles};
use std::alloc::Global;
use std::fs;

fn length_of<F: SchemaFiles>(files: &F, alloc: Global, name: &str) -> Result<usize, FileError> {
    Ok(files.read(alloc, name)?.len())
}

#[test]
fn a_map(rt: HostRuntime) {
    let alloc = rt.alloc();
    let mut files = MapFiles::new(alloc);
    files.add(alloc, "a", b"one").expect(&rt, "memory");
    files.add(alloc, "b", b"\xff").expect(&rt, "memory");
    files.add(alloc, "a", b"").expect(&rt, "memory");
    assert_eq!(rt; length_of(&files, alloc, "a"), Ok(0));
    assert_eq!(rt; length_of(&files, alloc, "b"), Ok(1));
    assert_eq!(rt; length_of(&files, alloc, ""), Err(FileError::Unreadable));
}

#[test]
fn the_system(rt: HostRuntime) {
    let alloc = rt.alloc();
    let name = "program_files_test.txt";
    fs::write(&rt, name, "some text").expect(&rt, "a file");
    let files = SystemFiles::new(&rt);
    assert_eq!(rt; length_of(&files, alloc, name), Ok(9));
    fs::remove_file(&rt, name).expect(&rt, "a file");
    assert_eq!(rt; length_of(&files, alloc, name), Err(FileError::Unreadable));
    assert_eq!(rt; length_of(&files, alloc, "."), Err(FileError::Unreadable));
}
