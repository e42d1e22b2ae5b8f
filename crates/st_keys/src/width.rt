ghost use Rattle.std.specs.Prelude.{◌≡◌};
ghost use Rattle.st_keys.specs.Keys.{width};

use st_values::Kind;

/// How many bytes each key of a kind has.
pub fn key_width(kind: Kind) -> usize
    ensures { result ≡ width kind }
{
    match kind {
        Kind::Int => 8,
        Kind::Bool => 1,
        Kind::Text(limit) => limit as usize + 1,
        Kind::Entity(_) => 6,
    }
}
