ghost use Rattle.std.specs.Prelude.{◌≡◌, Err, map, is_some, IfOk, IfErr, OnOk, OnErr, position};
ghost use Rattle.std.specs.String.{string_bytes};
ghost use Rattle.std.specs.Str.{bytes_eq};
ghost use Rattle.isle_outside.specs.Directory.{inside_folder, directly_in};
ghost use Rattle.isle_outside.specs.Memory.{files_of, written};

use crate::errors::DirFault;
use crate::names::{entry, part_inside};
use std::alloc::Global;

/// Returns the place of the first file of the name.
pub fn place_of(files: &[(String, Vec<u8>)], name: &str) -> Option<usize>
    ensures { result ≡ position (λ kept. bytes_eq (string_bytes kept.0) name.now) files.now }
{
    files.iter().position(|file| file.0.as_str() == name)
}

/// Returns the place of the first file whose name goes on after this one and a slash.
pub fn place_below(files: &[(String, Vec<u8>)], name: &str) -> Option<usize>
    ensures { result
        ≡ position (λ kept. is_some (inside_folder name.now (string_bytes kept.0))) files.now }
{
    files
        .iter()
        .position(|file| part_inside(file.0.as_str(), name).is_some())
}

/// Returns the names of the files directly in the folder, in their order.
pub fn entries(
    alloc: Global,
    files: &[(String, Vec<u8>)],
    folder: &str,
) -> Result<Vec<String>, DirFault>
    ensures names { IfOk result (λ names.
        map string_bytes names.items ≡ directly_in (files_of files.now) folder.now) }
    ensures memory { IfErr result (λ e. e ≡ DirFault.Memory) }
{
    let mut names = Vec::new(alloc);
    for file in files {
        if let Some(name) = entry(file.0.as_str(), folder) {
            names.push(String::from_str(alloc, name)?)?;
        }
    }
    Ok(names)
}

/// Puts the bytes into the first file of the name, or into a new one.
pub fn put_file(
    alloc: Global,
    files: &mut Vec<(String, Vec<u8>)>,
    name: &str,
    bytes: &[u8],
) -> Result<(), DirFault>
    ensures ok { OnOk result
        (files_of files.new.items ≡ written (files_of files.old.items) name.now bytes.now) }
    ensures err { OnErr result (files.new.items ≡ files.old.items) }
    ensures memory { IfErr result (λ e. e ≡ DirFault.Memory) }
{
    let bytes = Vec::from_slice(alloc, bytes)?;
    match place_of(files, name) {
        Some(place) => files[place].1 = bytes,
        None => files.push((String::from_str(alloc, name)?, bytes))?,
    }
    Ok(())
}
