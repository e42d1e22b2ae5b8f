//! Laws of the definitions, each by a function that does nothing.
ghost use Rattle.std.specs.Prelude.{◌≡◌, ◌≢◌, ◌≤◌, List, length, Ok, Err};
ghost use Rattle.st_sexp.specs.declared.form.Form.{Form};
ghost use Rattle.st_sexp.specs.Reading.{Due};
ghost use Rattle.st_lattice.specs.Outline.{Outline, IsOrderly};
ghost use Rattle.st_lattice.specs.Consistent.{IsConsistent};
ghost use Rattle.st_schema.specs.declared.fault.SchemaFault.TheVariants.{Memory};
ghost use Rattle.st_schema.specs.Meaning.{schema_of};
ghost use Rattle.st_schema.specs.Canonical.{canonical};

/// Of a schema that was read the numbers are in order, its attributes are told apart, by their numbers and within a type
/// by their names, and no attribute with sets admits no null. Forms that are no schema have a fault of their own: what is
/// due for them is never want of memory.
pub fn laws_of_schemas()
    ensures orderly { (forms : List Form) (schema : Outline) → schema_of forms ≡ Ok schema → IsOrderly schema }
    ensures consistent { (forms : List Form) (schema : Outline) → schema_of forms ≡ Ok schema → IsConsistent schema }
    ensures told { (forms : List Form) → schema_of forms ≢ Err Memory }
{}

/// The canonical text of a schema that was read reads as that schema, and is no longer than a text may be:
/// 1,048,576 bytes.
pub fn laws_of_canonical_texts()
    ensures same { (forms : List Form) (schema : Outline) → schema_of forms ≡ Ok schema →
        (again : List Form) × Due (canonical schema) (Ok again) × (schema_of again ≡ Ok schema) }
    ensures short { (forms : List Form) (schema : Outline) → schema_of forms ≡ Ok schema → length (canonical schema) ≤ 1048576 }
{}
