ghost use Rattle.std.specs.Prelude.{◌≡◌, ◌<◌};
ghost use Rattle.st_rows.specs.Rows.{field_width};

use st_keys::key_width;
use st_values::Kind;

/// A part of a row.
#[derive(Clone, Copy, Debug, PartialEq, Eq)]
pub enum Field {
    /// The serial of the entity whose row it is: 4 bytes, the highest first. It isn't 0.
    Serial,
    /// A value of a kind, or null: the byte 1 and the value's key, or the byte 0 and as many zeros as a key has bytes.
    Cell(Kind),
    /// A value of a kind: its key.
    Key(Kind),
}

/// How many bytes a field has.
pub fn field_width(field: Field) -> usize
    ensures value { result ≡ field_width field }
    ensures small { result < 258 }
{
    match field {
        Field::Serial => 4,
        Field::Cell(kind) => 1 + key_width(kind),
        Field::Key(kind) => key_width(kind),
    }
}
