//! Names that were seen.
ghost use Rattle.std.specs.Prelude.{◌≡◌, true, if◌then◌else◌, ℕ, List, OnOk, string_bytes};
ghost use Rattle.std.specs.BTreeSet.{contains_text};
ghost use Rattle.std.specs.Str.{bytes_eq};

use std::alloc::{AllocError, Global};
use std::collections::BTreeSet;

/// Names that were seen.
pub(crate) type Names = BTreeSet<String>;

/// Whether a name was seen.
pub(crate) fn is_seen(names: &Names, name: &str) -> bool
    ensures { result ≡ contains_text names.now name.now }
{
    names.contains(name)
}

fn put(names: &mut Names, name: String) -> Result<(), AllocError>
    ensures { OnOk result ((other : List ℕ) → contains_text names.new other ≡ (if bytes_eq (string_bytes name) other then true else contains_text names.old other)) }
{
    names.insert(name)?;
    Ok(())
}

/// A name is seen.
pub(crate) fn see(alloc: Global, names: &mut Names, name: &str) -> Result<(), AllocError>
    ensures { OnOk result ((other : List ℕ) → contains_text names.new other ≡ (if bytes_eq name.now other then true else contains_text names.old other)) }
{
    let name = String::from_str(alloc, name)?;
    put(names, name)
}
