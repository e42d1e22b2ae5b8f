//! Laws of the definitions, each by a function that does nothing.
ghost use Rattle.std.specs.Prelude.{◌≡◌, ◌≤◌, ◌<◌, ℕ, length};
ghost use Rattle.st_lattice.specs.Outline.{Outline};
ghost use Rattle.st_lattice.specs.Stores.{row_width};
ghost use Rattle.st_schema_bytes.specs.SchemaBytes.{schema_bytes, IsReadable};

use st_schema::{laws_of_canonical_texts, laws_of_schemas};
use st_sexp::laws_of_texts;

/// Schemas that forms are read as are told apart by their bytes, of which there are at most 1,049,350. Their rows have at
/// most 1,000 bytes.
pub fn laws_of_schema_bytes()
    ensures same { (a b : Outline) → IsReadable a → IsReadable b → schema_bytes a ≡ schema_bytes b → a ≡ b }
    ensures narrow { (schema : Outline) → IsReadable schema → (ty : ℕ) → ty < length schema.names → row_width schema ty ≤ 1000 }
    ensures short { (schema : Outline) → IsReadable schema → length (schema_bytes schema) ≤ 1049350 }
{
    laws_of_canonical_texts();
    laws_of_texts();
    laws_of_schemas();
}
