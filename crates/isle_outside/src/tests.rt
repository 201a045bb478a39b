//! The machine's directory and sink, each once.

use crate::dir::{Dir, Found};
use crate::errors::{DirFault, Failed};
use crate::reading::read_text;
use crate::sink::Sink;
use crate::std_dir::StdDir;
use crate::std_sink::StdSink;
use std::alloc::Global;
use std::path::Path;
use std::test::Fail;
use std::{env, fs};

// A folder of the machine that is empty now.
fn empty_folder(rt: &HostRuntime, name: &str) -> Result<String, Fail> {
    let path = env::temp_dir(rt)?.as_path().join(rt.alloc(), name)?;
    let _ = fs::remove_dir_all(rt, path.as_path());
    fs::create_dir_all(rt, path.as_path())?;
    Ok(path.into_string())
}

// The directory below a folder of the machine.
fn machine(rt: &HostRuntime, root: &str) -> Result<StdDir<HostRuntime>, Fail> {
    Ok(StdDir::new(rt.clone()?, String::from_str(rt.alloc(), root)?))
}

// How many names are in a folder, if it is found as one.
fn count<D: Dir>(alloc: Global, dir: &mut D, folder: &str) -> Result<usize, DirFault> {
    match dir.find(folder) {
        Ok(Found::Folder) => Ok(dir.list(alloc, folder)?.len()),
        _ => Err(DirFault::Failed),
    }
}

#[test]
fn a_file_of_the_machine(rt: HostRuntime) -> Result<(), Fail> {
    let root = empty_folder(&rt, "isle_outside_file")?;
    let mut dir = machine(&rt, root.as_str())?;
    assert_eq!(rt; dir.write_file("a", b"longer"), Ok(()));
    assert_eq!(rt; dir.write_file("a", b"one"), Ok(()));
    assert_eq!(rt; read_text(rt.alloc(), &mut dir, "a")?.as_str(), "one");
    Ok(())
}

#[test]
fn a_folder_of_the_machine(rt: HostRuntime) -> Result<(), Fail> {
    let root = empty_folder(&rt, "isle_outside_folder")?;
    fs::create_dir(&rt, Path::new(root.as_str()).join(rt.alloc(), "c")?)?;
    fs::write(&rt, Path::new(root.as_str()).join(rt.alloc(), "c/d")?, "x")?;
    let mut dir = machine(&rt, root.as_str())?;
    assert_eq!(rt; count(rt.alloc(), &mut dir, "c")?, 1);
    assert_eq!(rt; dir.find("x"), Ok(Found::Absent));
    Ok(())
}

#[test]
fn a_writer_of_the_machine(rt: HostRuntime) {
    let mut room = [0; 5];
    let mut sink = StdSink::new(room.as_mut_slice());
    assert_eq!(rt; sink.put(b"abc"), Ok(3));
    assert_eq!(rt; sink.put(b"def"), Ok(2));
    assert_eq!(rt; sink.put(b"g"), Err(Failed));
}
