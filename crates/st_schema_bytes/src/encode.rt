ghost use Rattle.std.specs.Prelude.{◌≡◌, ◌++◌, flat_map, IfOk, OnOk};
ghost use Rattle.st_schema_bytes.specs.SchemaBytes.{IsShort, attribute_bytes, numbers, schema_bytes};

use st_lattice::Attribute;
use st_schema::{Schema, print_schema};
use std::alloc::{AllocError, Global};

/// The bytes of a schema whose canonical text is no longer than a text may be, as is that of each schema that was read.
#[tactic(auto, unfolding(crate::specs::SchemaBytes::schema_bytes, crate::specs::SchemaBytes::schema_text))]
pub fn encode_schema(alloc: Global, schema: &Schema) -> Result<Vec<u8>, AllocError>
    requires { IsShort schema.now }
    ensures { IfOk result (λ bytes. bytes.items ≡ schema_bytes schema.now) }
{
    let text = print_schema(alloc, schema)?;
    let mut bytes = Vec::new(alloc);
    bytes.extend_from_slice(&(text.len() as u32).to_be_bytes())?;
    bytes.extend_from_slice(text.as_slice())?;
    push_numbers(schema, &mut bytes)?;
    Ok(bytes)
}

/// Adds the numbers of a schema's attributes, and the next one.
#[tactic(auto, unfolding(crate::specs::SchemaBytes::numbers))]
fn push_numbers(schema: &Schema, bytes: &mut Vec<u8>) -> Result<(), AllocError>
    ensures { OnOk result (bytes.new.items ≡ bytes.old.items ++ numbers schema.now) }
{
    push_attributes(schema.attributes(), bytes)?;
    bytes.extend_from_slice(&schema.next_attribute().to_be_bytes())
}

fn push_attributes(attributes: &[Attribute], bytes: &mut Vec<u8>) -> Result<(), AllocError>
    ensures { OnOk result (bytes.new.items ≡ bytes.old.items ++ flat_map attribute_bytes attributes.now) }
{
    for attribute in attributes {
        push_attribute(attribute, bytes)?;
    }
    Ok(())
}

fn push_attribute(attribute: &Attribute, bytes: &mut Vec<u8>) -> Result<(), AllocError>
    ensures { OnOk result (bytes.new.items ≡ bytes.old.items ++ attribute_bytes attribute.now) }
{
    bytes.extend_from_slice(&attribute.number.to_be_bytes())?;
    Ok(bytes.push(u8::from(attribute.column))?)
}
