//! How a refusal is printed: the number of its rule, and its fields.
ghost use Rattle.std.specs.Prelude.{◌≡◌, ◌∷◌, ◌++◌, OnOk};
ghost use Rattle.std.specs.Fmt.{decimal};
ghost use Rattle.st_values.specs.Print.{printed_entity};
ghost use Rattle.st_state.specs.Refusals.{rule_number};
ghost use Rattle.st_meaning.specs.Lines.{printed_fields, printed_refusal};

use crate::number::{push_number, push_signed};
use st_state::Refusal;
use st_text::Letters;
use st_values::{EntityId, Value, push_value};
use std::alloc::AllocError;

/// The number of the rule that a refusal is by.
fn rule_number(refusal: &Refusal) -> u128
    ensures { result ≡ rule_number refusal.now }
{
    match refusal {
        Refusal::UnknownName { name: _ } => 1,
        Refusal::WrongType => 2,
        Refusal::NullNotAllowed { attribute: _ } => 3,
        Refusal::NotUnique {
            attribute: _,
            holder: _,
        } => 4,
        Refusal::NoSuchEntity { entity: _ } => 5,
        Refusal::StillNeeded {
            entity: _,
            attribute: _,
        } => 6,
        Refusal::NotASet { name: _ } => 7,
        Refusal::TextTooLong {
            length: _,
            limit: _,
        } => 8,
        Refusal::NumbersSpent { ty: _ } => 9,
        Refusal::Aborted => 10,
        Refusal::NullEntity => 11,
        Refusal::TooManyPages { count: _ } => 12,
        Refusal::Full { in_use: _ } => 13,
    }
}

fn push_name(into: &mut Letters, name: &Letters) -> Result<(), AllocError>
    ensures { OnOk result (into.new ≡ into.old ++ 32 ∷ name.now) }
{
    into.push_str(" ")?;
    into.push_str(name.as_str())
}

fn push_entity(into: &mut Letters, names: &[Letters], entity: EntityId) -> Result<(), AllocError>
    ensures { OnOk result (into.new ≡ into.old ++ 32 ∷ printed_entity names.now entity) }
{
    into.push_str(" ")?;
    push_value(into, &Value::Entity(entity), names)
}

fn push_count(into: &mut Letters, count: u128) -> Result<(), AllocError>
    ensures { OnOk result (into.new ≡ into.old ++ 32 ∷ decimal count) }
{
    push_signed(into, " ", count)
}

fn push_holder(
    into: &mut Letters,
    names: &[Letters],
    attribute: &Letters,
    holder: EntityId,
) -> Result<(), AllocError>
    ensures { OnOk result (into.new ≡ into.old ++ (32 ∷ attribute.now ++ 32 ∷ printed_entity names.now holder)) }
{
    push_name(into, attribute)?;
    push_entity(into, names, holder)
}

fn push_needing(
    into: &mut Letters,
    names: &[Letters],
    entity: EntityId,
    attribute: &Letters,
) -> Result<(), AllocError>
    ensures { OnOk result (into.new ≡ into.old ++ (32 ∷ printed_entity names.now entity ++ 32 ∷ attribute.now)) }
{
    push_entity(into, names, entity)?;
    push_name(into, attribute)
}

fn push_length(into: &mut Letters, length: u64, limit: u32) -> Result<(), AllocError>
    ensures { OnOk result (into.new ≡ into.old ++ (32 ∷ decimal length ++ 32 ∷ decimal limit)) }
{
    push_count(into, u128::from(length))?;
    push_count(into, u128::from(limit))
}

/// Adds the fields of a refusal, each behind a space.
fn push_fields(into: &mut Letters, names: &[Letters], refusal: &Refusal) -> Result<(), AllocError>
    ensures { OnOk result (into.new ≡ into.old ++ printed_fields names.now refusal.now) }
{
    match refusal {
        Refusal::UnknownName { name } => push_name(into, name),
        Refusal::WrongType => Ok(()),
        Refusal::NullNotAllowed { attribute } => push_name(into, attribute),
        Refusal::NotUnique { attribute, holder } => push_holder(into, names, attribute, *holder),
        Refusal::NoSuchEntity { entity } => push_entity(into, names, *entity),
        Refusal::StillNeeded { entity, attribute } => {
            push_needing(into, names, *entity, attribute)
        }
        Refusal::NotASet { name } => push_name(into, name),
        Refusal::TextTooLong { length, limit } => push_length(into, *length, *limit),
        Refusal::NumbersSpent { ty } => push_name(into, ty),
        Refusal::Aborted => Ok(()),
        Refusal::NullEntity => Ok(()),
        Refusal::TooManyPages { count } => push_count(into, u128::from(*count)),
        Refusal::Full { in_use } => push_count(into, u128::from(*in_use)),
    }
}

/// Adds a refusal: the number of its rule, and its fields.
pub(crate) fn push_refusal(
    into: &mut Letters,
    names: &[Letters],
    refusal: &Refusal,
) -> Result<(), AllocError>
    ensures { OnOk result (into.new ≡ into.old ++ printed_refusal names.now refusal.now) }
{
    push_number(into, rule_number(refusal))?;
    push_fields(into, names, refusal)
}
