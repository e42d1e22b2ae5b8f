//! The rows of sets, and turned those of indexes and inverses: an entity and a value.
ghost use Rattle.std.specs.Prelude.{◌≡◌, ◌+◌, ◌∷◌, [], length, IfOk, IfErr};
ghost use Rattle.st_values.specs.declared.value.Kind.TheVariants as kind;
ghost use Rattle.st_keys.specs.Keys.{Fits, IsEntity};
ghost use Rattle.st_rows.specs.Rows.{fields_width, AreHeld, row, pair_fields, pair_values, pair_width};
ghost use Rattle.st_rows.specs.Causes.{IsRowCause};

use crate::fault::RowFault;
use crate::field::{self, Field};
use crate::{read, write};
use st_keys::key_width;
use st_values::{EntityId, Kind, Value};
use std::alloc::Global;

/// The field of an entity, whatever its type is.
const ENTITY: Field = Field::Key(Kind::Entity(0));

/// How many bytes a row of an entity and a value of a kind has.
pub fn pair_width(kind: Kind) -> usize
    ensures { result ≡ pair_width kind }
{
    key_width(kind) + 6
}

/// Writes a row of an entity and a value into a place of the row's width: the entity first, or turned, the value first.
pub fn pair_row(value: &Value, kind: Kind, entity: EntityId, turned: bool, into: &mut [u8])
    requires value { Fits kind value.now }
    requires entity { IsEntity entity }
    requires width { length into.old ≡ pair_width kind }
    ensures { into.new ≡ row (pair_fields kind turned) (pair_values turned value.now entity) }
{
    let entity = Value::Entity(entity);
    if turned {
        put_two(Field::Key(kind), value, ENTITY, &entity, into);
    } else {
        put_two(ENTITY, &entity, Field::Key(kind), value, into);
    }
}

fn put_two(first: Field, a: &Value, second: Field, b: &Value, into: &mut [u8])
    requires held { AreHeld (first ∷ second ∷ []) (a.now ∷ b.now ∷ []) }
    requires width { length into.old ≡ fields_width (first ∷ second ∷ []) }
    ensures { into.new ≡ row (first ∷ second ∷ []) (a.now ∷ b.now ∷ []) }
{
    let end = write::put_field(first, a, into, 0);
    write::put_field(second, b, into, end);
}

/// The value and the entity of a row of one of each, from bytes of the row's width. `BadRow` has the place of the first
/// byte that is refused.
pub fn read_pair(
    alloc: Global,
    bytes: &[u8],
    kind: Kind,
    turned: bool,
) -> Result<(Value, EntityId), RowFault>
    requires { length bytes.now ≡ pair_width kind }
    ensures value { IfOk result (λ pair. Fits kind pair.0) }
    ensures entity { IfOk result (λ pair. IsEntity pair.1) }
    ensures bytes { IfOk result (λ pair. row (pair_fields kind turned) (pair_values turned pair.0 pair.1) ≡ bytes.now) }
    ensures cause { IfErr result (λ fault. IsRowCause (pair_fields kind turned) bytes.now fault) }
{
    if turned {
        let (value, entity) = read_two(alloc, Field::Key(kind), ENTITY, bytes)?;
        Ok((value, as_entity(entity)))
    } else {
        let (entity, value) = read_two(alloc, ENTITY, Field::Key(kind), bytes)?;
        Ok((value, as_entity(entity)))
    }
}

fn as_entity(value: Value) -> EntityId
    requires { Fits (kind.Entity 0) value }
    ensures { value ≡ Value.Entity result }
{
    match value {
        Value::Entity(entity) => entity,
        _ => unreachable!(),
    }
}

fn read_two(
    alloc: Global,
    first: Field,
    second: Field,
    bytes: &[u8],
) -> Result<(Value, Value), RowFault>
    requires { length bytes.now ≡ fields_width (first ∷ second ∷ []) }
    ensures held { IfOk result (λ two. AreHeld (first ∷ second ∷ []) (two.0 ∷ two.1 ∷ [])) }
    ensures bytes { IfOk result (λ two. row (first ∷ second ∷ []) (two.0 ∷ two.1 ∷ []) ≡ bytes.now) }
    ensures cause { IfErr result (λ fault. IsRowCause (first ∷ second ∷ []) bytes.now fault) }
{
    let a = read::read_at(alloc, first, bytes, 0)?;
    match read::read_at(alloc, second, bytes, field::field_width(first)) {
        Ok(b) => Ok((a, b)),
        Err(fault) => Err(fault),
    }
}
