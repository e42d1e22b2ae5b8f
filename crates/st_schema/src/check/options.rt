//! Which options go with an attribute.
ghost use Rattle.std.specs.Prelude.{◌≡◌};
ghost use Rattle.st_schema.specs.Checks.{unless, is_entity, goes_with, choice_fault, choices_in, bad_option};

use crate::SchemaFault;
use crate::written::{AttributeForm, Choice, Setting, TypeForm, Worded};

/// Whether values of this type are entities.
fn is_entity(worded: &Worded) -> bool
    ensures { result ≡ is_entity worded.now }
{
    match worded {
        Worded::Entity(_) => true,
        _ => false,
    }
}

/// Whether an option goes with an attribute of this type, which has sets or not.
fn goes_with(worded: &Worded, many: bool, setting: &Setting) -> bool
    ensures { result ≡ goes_with worded.now many setting.now }
{
    match setting {
        Setting::Inverse(_) => is_entity(worded),
        Setting::Unique(true) => !many,
        Setting::NoNulls(true) => !many,
        _ => true,
    }
}

/// Checks the options of an attribute.
fn check_choices(worded: &Worded, many: bool, choices: &[Choice]) -> Result<(), SchemaFault>
    ensures { result ≡ unless (choice_fault worded.now many choices.now) tt }
{
    for choice in choices {
        if !goes_with(worded, many, &choice.setting) {
            return Err(SchemaFault::BadOption {
                place: choice.place,
            });
        }
    }
    Ok(())
}

/// Checks the options of one type's attributes.
fn check_choices_in(attributes: &[AttributeForm]) -> Result<(), SchemaFault>
    ensures { result ≡ unless (choices_in attributes.now) tt }
{
    for attribute in attributes {
        check_choices(
            &attribute.worded,
            attribute.many,
            attribute.choices.as_slice(),
        )?;
    }
    Ok(())
}

/// Checks the options of all attributes.
pub(crate) fn check_options(types: &[TypeForm]) -> Result<(), SchemaFault>
    ensures { result ≡ unless (bad_option types.now) tt }
{
    for ty in types {
        check_choices_in(ty.attributes.as_slice())?;
    }
    Ok(())
}
