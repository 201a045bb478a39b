//! The short names of types.

ghost use Rattle.std.specs.Prelude.{◌≡◌};
ghost use Rattle.isle_meta.specs.ShortName.{short_name};

/// Returns what follows the last `::` of a path; the whole path if there is none.
pub fn short_name(path: &str) -> &str
    ensures { result.now ≡ short_name path.now }
{
    match path.rsplit_once("::") {
        Some((_, name)) => name,
        None => path,
    }
}
