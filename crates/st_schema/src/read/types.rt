//! The types of a schema's text with their attributes, and the whole text.
ghost use Rattle.std.specs.Prelude.{◌≡◌, [], IfSome};
ghost use Rattle.std.specs.Option.{option_map};
ghost use Rattle.st_text.specs.Answer.{Answers};
ghost use Rattle.st_sexp.specs.Items.{name_at};
ghost use Rattle.st_schema.specs.declared.fault.SchemaFault.TheVariants as fault;
ghost use Rattle.st_schema.specs.Written.{told, attribute_parts, attribute_form, attribute_forms, names_at, last_attributes, type_parts, type_form, type_forms, schema_name, schema_front, written};

use crate::SchemaFault;
use crate::read::options::choices_after;
use crate::read::values::value_type;
use crate::written::{AttributeForm, AttributeForms, Names, TypeForm, TypeForms, Written};
use sqlite_items::Items;
use st_sexp::{Form, behind, end_of, forms_at, name_at, next_at};
use st_text::{Duplicate, Letters};
use std::alloc::Global;

/// The letters of a form that has to be a name, copied.
fn name_of(alloc: Global, form: &Form) -> Result<Letters, SchemaFault>
    ensures { Answers told result (name_at fault.Form form.now) }
{
    let name = name_at::<SchemaFault>(form)?;
    Ok(name.copy(alloc)?)
}

/// The parts of an attribute: its name, its type and its options.
fn attribute_parts(alloc: Global, place: u32, parts: &[Form]) -> Result<AttributeForm, SchemaFault>
    ensures { Answers told result (attribute_parts place parts.now) }
{
    let (name, rest) = next_at::<SchemaFault>(place, parts)?;
    let name = name_of(alloc, name)?;
    let (ty, rest) = next_at::<SchemaFault>(place, rest)?;
    let (worded, many) = value_type(alloc, ty)?;
    let choices = choices_after(alloc, Items::new(alloc), rest)?;
    Ok(AttributeForm {
        name,
        worded,
        many,
        choices,
    })
}

/// `(ATTRIBUTE TYPE OPTION ..)`.
fn attribute_form(alloc: Global, form: &Form) -> Result<AttributeForm, SchemaFault>
    ensures { Answers told result (attribute_form form.now) }
{
    let parts = forms_at::<SchemaFault>(form)?;
    attribute_parts(alloc, form.from, parts)
}

/// Attributes, one form each.
fn attribute_forms(alloc: Global, forms: &[Form]) -> Result<AttributeForms, SchemaFault>
    ensures { Answers told result (attribute_forms forms.now) }
{
    let mut attributes = Items::new(alloc);
    for form in forms {
        attributes.push(attribute_form(alloc, form)?)?;
    }
    Ok(attributes)
}

/// Names, one form each.
fn names_at(alloc: Global, forms: &[Form]) -> Result<Names, SchemaFault>
    ensures { Answers told result (names_at forms.now) }
{
    let mut names = Items::new(alloc);
    for form in forms {
        names.push(name_of(alloc, form)?)?;
    }
    Ok(names)
}

/// The attributes of a type, which end its form.
fn last_attributes(alloc: Global, place: u32, parts: &[Form]) -> Result<AttributeForms, SchemaFault>
    ensures { Answers told result (last_attributes place parts.now) }
{
    let (forms, rest) = next_at::<SchemaFault>(place, parts)?;
    let attributes = attribute_forms(alloc, forms_at::<SchemaFault>(forms)?)?;
    end_of(rest, attributes)
}

/// The parts of a type: its name, its parents and its attributes.
fn type_parts(alloc: Global, place: u32, parts: &[Form]) -> Result<TypeForm, SchemaFault>
    ensures { Answers told result (type_parts place parts.now) }
{
    let (name, rest) = next_at::<SchemaFault>(place, parts)?;
    let name = name_of(alloc, name)?;
    let (parents, rest) = next_at::<SchemaFault>(place, rest)?;
    let parents = names_at(alloc, forms_at::<SchemaFault>(parents)?)?;
    let attributes = last_attributes(alloc, place, rest)?;
    Ok(TypeForm {
        name,
        parents,
        attributes,
    })
}

/// `(define-entity-type NAME (PARENT ..) (ATTRIBUTE ..))`.
fn type_form(alloc: Global, form: &Form) -> Result<TypeForm, SchemaFault>
    ensures { Answers told result (type_form form.now) }
{
    match behind(b"define-entity-type", form) {
        Some(parts) => type_parts(alloc, form.from, parts),
        None => Err(SchemaFault::Form { place: form.from }),
    }
}

/// Types, one form each.
fn type_forms(alloc: Global, forms: &[Form]) -> Result<TypeForms, SchemaFault>
    ensures { Answers told result (type_forms forms.now) }
{
    let mut types = Items::new(alloc);
    for form in forms {
        types.push(type_form(alloc, form)?)?;
    }
    Ok(types)
}

/// The name of a schema, which ends its definition.
fn schema_name(alloc: Global, place: u32, parts: &[Form]) -> Result<Letters, SchemaFault>
    ensures { Answers told result (schema_name place parts.now) }
{
    let (name, rest) = next_at::<SchemaFault>(place, parts)?;
    let name = name_of(alloc, name)?;
    end_of(rest, name)
}

/// The forms behind `define-schema` in the first form, the first form, and those of the types.
fn schema_front(forms: &[Form]) -> Option<(&[Form], &Form, &[Form])>
    ensures { option_map (λ p. (p.0.now, p.1.now, p.2.now)) result ≡ schema_front forms.now }
{
    match forms {
        [definition, types @ ..] if types.len() > 0 => {
            let parts = behind(b"define-schema", definition)?;
            Some((parts, definition, types))
        }
        _ => None,
    }
}

/// A schema as it is written.
///
/// # Errors
/// `Form` and `BadOption` at the first place in text order that does not fit; `Memory`.
pub(crate) fn written(alloc: Global, forms: &[Form]) -> Result<Written, SchemaFault>
    ensures { Answers told result (written forms.now) }
{
    let Some((parts, definition, types)) = schema_front(forms) else {
        return Err(SchemaFault::Form { place: 0 });
    };
    let name = schema_name(alloc, definition.from, parts)?;
    let types = type_forms(alloc, types)?;
    Ok(Written { name, types })
}
