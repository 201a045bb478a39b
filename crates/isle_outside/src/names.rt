ghost use Rattle.std.specs.Prelude.{◌≡◌, option_and_then};
ghost use Rattle.std.specs.Option.{option_copied};
ghost use Rattle.isle_outside.specs.Directory.{inside_folder, plain};

/// Returns what stands in a file's name after the folder's name and a slash.
pub fn part_inside<'a>(file: &'a str, folder: &str) -> Option<&'a str>
    ensures { option_copied result ≡ inside_folder folder.now file.now }
{
    match file.strip_prefix(folder) {
        Some(rest) => rest.strip_prefix('/'),
        None => None,
    }
}

/// Returns the name within the folder of a file that lies directly in it.
pub fn entry<'a>(file: &'a str, folder: &str) -> Option<&'a str>
    ensures { option_copied result ≡ option_and_then plain (inside_folder folder.now file.now) }
{
    let rest = part_inside(file, folder)?;
    if rest.as_bytes().contains(&b'/') {
        None
    } else {
        Some(rest)
    }
}
