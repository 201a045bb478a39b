//! Names as printed.

ghost use Rattle.std.specs.Prelude.{◌≡◌, IfOk};
ghost use Rattle.std.specs.Option.{option_copied};
ghost use Rattle.isle_core.specs.Printed.{after_prefix, shown};

use crate::options::Prefix;
use isle_base::Text;
use isle_outside::OutOfMemory;
use std::alloc::Global;

/// Returns a name as it is printed: the first prefix that begins it is replaced (`specs/Printed.antt`). The only error
/// is want of memory.
pub fn name_shown(alloc: Global, name: &str, prefixes: &[Prefix]) -> Result<Text, OutOfMemory>
    ensures { IfOk result (λ printed. printed ≡ shown prefixes.now name.now) }
{
    for p in prefixes {
        if let Some(rest) = after_prefix(name, p.prefix.as_str()) {
            let mut printed = String::from_str(alloc, p.name.as_str())?;
            printed.push_str(rest)?;
            return Ok(Text::new(printed));
        }
    }
    Ok(Text::copied(alloc, name)?)
}

// What stands after the prefix, where the name begins with it.
fn after_prefix<'a>(name: &'a str, prefix: &str) -> Option<&'a str>
    ensures { option_copied result ≡ after_prefix prefix.now name.now }
{
    name.strip_prefix(prefix)
}
