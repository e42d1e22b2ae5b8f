ghost use Rattle.std.specs.Prelude.{◌≡◌, ◌≤◌, ◌≢◌, ◌++◌, ◌+◌, List, length, take, drop, bytes_eq, Ok, Err, IfOk, IfSome, IfNone};
ghost use Rattle.st_lattice.specs.Outline.{Outline};
ghost use Rattle.st_sexp.specs.declared.form.Form.{Form};
ghost use Rattle.st_token.specs.declared.fault.SexpFault.{SexpFault};
ghost use Rattle.st_token.specs.declared.fault.SexpFault.TheVariants.{Memory};
ghost use Rattle.st_sexp.specs.Reading.{Due};
ghost use Rattle.st_schema.specs.Meaning.{schema_of as forms_schema};
ghost use Rattle.st_schema_bytes.specs.declared.fault.StoredFault.TheVariants.{NoSchema};
ghost use Rattle.st_schema_bytes.specs.SchemaBytes.{schema_bytes, schema_text, IsReadable, IsShort, AreOfNone};

use crate::encode::encode_schema;
use crate::fault::StoredFault;
use byteorder::{BigEndian, ByteOrder};
use st_schema::{Schema, SchemaFault, laws_of_canonical_texts, read_schema};
use st_sexp::{Form, Forms, SexpFault, laws_of_texts, read};
use std::alloc::{AllocError, Global};

/// The schema that has these bytes, one that some forms are read as.
///
/// # Errors
/// `NoSchema` exactly where no such schema has them; `Memory`.
pub fn decode_schema(alloc: Global, bytes: &[u8]) -> Result<Schema, StoredFault>
    ensures readable { IfOk result (λ schema. IsReadable schema) }
    ensures bytes { IfOk result (λ schema. bytes.now ≡ schema_bytes schema) }
    ensures none { result ≡ Err NoSchema → AreOfNone bytes.now }
{
    let Some(text) = text_of(bytes) else {
        return Err(StoredFault::NoSchema);
    };
    let schema = match schema_of(alloc, text) {
        Ok(schema) => schema,
        Err(fault) => return Err(fault),
    };
    checked(alloc, schema, bytes)
}

/// A schema, where these are its bytes.
fn checked(alloc: Global, schema: Schema, bytes: &[u8]) -> Result<Schema, StoredFault>
    requires { IsShort schema }
    ensures same { IfOk result (λ found. found ≡ schema) }
    ensures bytes { IfOk result (λ found. bytes.now ≡ schema_bytes found) }
    ensures none { result ≡ Err NoSchema → bytes.now ≢ schema_bytes schema }
{
    if has_bytes(alloc, &schema, bytes)? {
        Ok(schema)
    } else {
        Err(StoredFault::NoSchema)
    }
}

/// The text in front of a schema's numbers, where it is all there and no longer than a text may be.
fn text_of(bytes: &[u8]) -> Option<&[u8]>
    ensures short { IfSome result (λ text. length text.now ≤ 1048576) }
    ensures text { IfSome result (λ text. (schema : Outline) → IsReadable schema → bytes.now ≡ schema_bytes schema → text.now ≡ schema_text schema) }
    ensures none { IfNone result ((schema : Outline) → IsReadable schema → bytes.now ≢ schema_bytes schema) }
{
    laws_of_canonical_texts();
    if bytes.len() < 4 {
        return None;
    }
    let length = BigEndian::read_u32(bytes) as usize;
    let rest = &bytes[4..];
    if length > 1048576 || length > rest.len() {
        return None;
    }
    Some(&rest[..length])
}

/// The schema of a text.
fn schema_of(alloc: Global, text: &[u8]) -> Result<Schema, StoredFault>
    requires { length text.now ≤ 1048576 }
    ensures readable { IfOk result (λ schema. IsReadable schema) }
    ensures short { IfOk result (λ schema. IsShort schema) }
    ensures text { (schema : Outline) → IsReadable schema → text.now ≡ schema_text schema → IfOk result (λ found. found ≡ schema) }
    ensures none { result ≡ Err NoSchema → (schema : Outline) → IsReadable schema → text.now ≢ schema_text schema }
{
    laws_of_canonical_texts();
    laws_of_texts();
    let forms = match forms_of(alloc, text) {
        Ok(forms) => forms,
        Err(fault) => return Err(fault),
    };
    schema_from(alloc, forms.as_slice())
}

/// The forms of a text.
fn forms_of(alloc: Global, text: &[u8]) -> Result<Forms, StoredFault>
    requires { length text.now ≤ 1048576 }
    ensures due { IfOk result (λ forms. Due text.now (Ok forms)) }
    ensures none { result ≡ Err NoSchema → (fault : SexpFault) × Due text.now (Err fault) × (fault ≢ Memory) }
{
    match read(alloc, text) {
        Ok(forms) => Ok(forms),
        Err(SexpFault::Memory) => Err(StoredFault::Memory),
        Err(_) => Err(StoredFault::NoSchema),
    }
}

/// The schema of forms.
fn schema_from(alloc: Global, forms: &[Form]) -> Result<Schema, StoredFault>
    ensures ok { IfOk result (λ schema. forms_schema forms.now ≡ Ok schema) }
    ensures none { result ≡ Err NoSchema → (schema : Outline) → forms_schema forms.now ≢ Ok schema }
{
    match read_schema(alloc, forms) {
        Ok(schema) => Ok(schema),
        Err(SchemaFault::Memory) => Err(StoredFault::Memory),
        Err(_) => Err(StoredFault::NoSchema),
    }
}

/// Whether bytes are those of a schema.
fn has_bytes(alloc: Global, schema: &Schema, bytes: &[u8]) -> Result<bool, AllocError>
    requires { IsShort schema.now }
    ensures { IfOk result (λ same. same ≡ bytes_eq bytes.now (schema_bytes schema.now)) }
{
    let expected = encode_schema(alloc, schema)?;
    Ok(bytes == expected.as_slice())
}
