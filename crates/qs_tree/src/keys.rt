ghost use Rattle.std.specs.Prelude.{◌≡◌, ℕ, List as PureList, OnOk, if◌then◌else◌};
ghost use Rattle.std.specs.Option.{option_or};
ghost use Rattle.std.specs.Str.{bytes_eq};
ghost use Rattle.qs_tree.specs.Keys.{value_at};

use std::alloc::AllocError;
use std::collections::HashMap;

/// Puts a value into a map, unless one of its name stands there.
pub(crate) fn put_first<'a, T>(
    values: &mut HashMap<&'a str, &'a T>,
    name: &'a str,
    value: &'a T,
) -> Result<(), AllocError>
    ensures { OnOk result
        ((key : PureList ℕ) → value_at values.new key
        ≡ option_or (value_at values.old key)
        (if bytes_eq key name.now then Some value.now else None)) }
{
    if !values.contains_key(name) {
        values.insert(name, value)?;
    }
    Ok(())
}
