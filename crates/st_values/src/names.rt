//! Lists of names.
ghost use Rattle.std.specs.Prelude.{◌≡◌, []};
ghost use Rattle.std.specs.Option.{option_copied};
ghost use Rattle.st_values.specs.Names.{has, first_repeated, all_differ};

use st_text::Letters;

/// Whether a name is among some.
pub fn has(names: &[Letters], name: &[u8]) -> bool
    ensures { result ≡ has names.now name.now }
{
    names.iter().any(|other| other.as_slice() == name)
}

/// The first name that stands among those before it.
pub fn first_repeated(names: &[Letters]) -> Option<&Letters>
    ensures { option_copied result ≡ first_repeated [] names.now }
{
    for (index, name) in names.iter().enumerate() {
        if has(&names[..index], name.as_slice()) {
            return Some(name);
        }
    }
    None
}

/// Whether no name stands twice.
pub fn all_differ(names: &[Letters]) -> bool
    ensures { result ≡ all_differ names.now }
{
    for (index, name) in names.iter().enumerate() {
        if has(&names[index + 1..], name.as_slice()) {
            return false;
        }
    }
    true
}
