//! Laws of the definitions, and worked rows: functions that do nothing, and whose contracts state them.
ghost use Rattle.std.specs.Prelude.{true, false, ◌≡◌, ◌≢◌, ◌<◌, ◌^◌, ◌++◌, ℕ, Bool, List, pos, [], ◌∷◌, length, take, replicate};
ghost use Rattle.std.specs.Ordering.{nat_cmp};
ghost use Rattle.std.specs.Cmp.Lexicographic.{slice_cmp};
ghost use Rattle.st_values.specs.declared.value.EntityId.{EntityId};
ghost use Rattle.st_values.specs.declared.value.Kind.{Kind};
ghost use Rattle.st_values.specs.declared.value.Kind.TheVariants as kind;
ghost use Rattle.st_values.specs.declared.value.Value.{Value};
ghost use Rattle.st_values.specs.declared.value.Value.TheVariants.{Null, Int, Bool as Truth, Text};
ghost use Rattle.st_values.specs.Order.{value_order};
ghost use Rattle.st_lattice.specs.Outline.{Outline};
ghost use Rattle.st_lattice.specs.Stores.{row_width};
ghost use Rattle.st_keys.specs.Keys.{Fits, IsEntity};
ghost use Rattle.st_rows.specs.declared.field.Field.{Field};
ghost use Rattle.st_rows.specs.declared.field.Field.TheVariants.{Serial, Cell};
ghost use Rattle.st_rows.specs.Rows.{fields_width, AreHeld, row, row_fields, pair_fields, pair_values, pair_width, pair_order, RowRefused};

use st_keys::laws_of_keys;

/// Rows have the width of their fields, which for a type is that of the schema. No two lists of values have one row. Bytes
/// that fields refuse are no row of theirs, and are refused at one place, within the fields' width. Rows stand in the order
/// of their values, the first ones first: so two rows of an entity and a value each, or turned; and serials alone decide
/// between rows of entities.
pub fn laws_of_rows()
    ensures width { (fields : List Field) (values : List Value) → AreHeld fields values →
        length (row fields values) ≡ fields_width fields }
    ensures row_width { (schema : Outline) (ty : ℕ) → fields_width (row_fields schema ty) ≡ row_width schema ty }
    ensures pair_width { (kind : Kind) (turned : Bool) → fields_width (pair_fields kind turned) ≡ pair_width kind }
    ensures one_spelling { (fields : List Field) (xs ys : List Value) → AreHeld fields xs → AreHeld fields ys →
        row fields xs ≡ row fields ys → xs ≡ ys }
    ensures refused { (fields : List Field) (bytes : List ℕ) (place : ℕ) → RowRefused fields bytes place →
        (values : List Value) → AreHeld fields values → row fields values ≢ bytes }
    ensures one_place { (fields : List Field) (bytes : List ℕ) (p q : ℕ) → RowRefused fields bytes p →
        RowRefused fields bytes q → p ≡ q }
    ensures within { (fields : List Field) (bytes : List ℕ) (place : ℕ) → RowRefused fields bytes place →
        length bytes ≡ fields_width fields → place < fields_width fields }
    ensures order { (fields : List Field) (xs ys : List Value) → AreHeld fields xs → AreHeld fields ys →
        slice_cmp nat_cmp (row fields xs) (row fields ys) ≡ slice_cmp value_order xs ys }
    ensures pairs { (kind : Kind) (turned : Bool) (a b : Value) (x y : EntityId) →
        Fits kind a → Fits kind b → IsEntity x → IsEntity y →
        slice_cmp nat_cmp (row (pair_fields kind turned) (pair_values turned a x)) (row (pair_fields kind turned) (pair_values turned b y))
        ≡ pair_order turned a x b y }
    ensures serials { (schema : Outline) (ty m n : ℕ) (xs ys : List Value) → m < 2 ^ 32 → n < 2 ^ 32 →
        slice_cmp nat_cmp (take 4 (row (row_fields schema ty) (Int (pos m) ∷ xs))) (take 4 (row (row_fields schema ty) (Int (pos n) ∷ ys)))
        ≡ nat_cmp m n }
{
    laws_of_keys();
}

/// Worked rows, by the definitions: a person with the name `"Ada"`, of at most 80 bytes, and the age 36, and one of whom
/// neither is known; a value with its entity, both ways round; and bytes that are refused, with their places.
pub fn rows_of_rows()
    ensures person { row (Serial ∷ Cell (kind.Text 80) ∷ Cell kind.Int ∷ [])
        (Int (pos 1) ∷ Text (0x41 ∷ 0x64 ∷ 0x61 ∷ []) ∷ Int (pos 36) ∷ []) ≡
        0 ∷ 0 ∷ 0 ∷ 1 ∷ 1 ∷ 0x41 ∷ 0x64 ∷ 0x61 ∷ replicate 77 0 ++ 3 ∷ 1 ∷ 0x80 ∷ 0 ∷ 0 ∷ 0 ∷ 0 ∷ 0 ∷ 0 ∷ 36 ∷ [] }
    ensures unknown { row (Serial ∷ Cell (kind.Text 80) ∷ Cell kind.Int ∷ []) (Int (pos 2) ∷ Null ∷ Null ∷ []) ≡
        0 ∷ 0 ∷ 0 ∷ 2 ∷ replicate 91 0 }
    ensures pair { row (pair_fields kind.Bool false) (pair_values false (Truth true) (record { ty = 3; serial = 12 })) ≡
        0 ∷ 3 ∷ 0 ∷ 0 ∷ 0 ∷ 12 ∷ 1 ∷ [] }
    ensures turned { row (pair_fields kind.Bool true) (pair_values true (Truth true) (record { ty = 3; serial = 12 })) ≡
        1 ∷ 0 ∷ 3 ∷ 0 ∷ 0 ∷ 0 ∷ 12 ∷ [] }
    ensures no_serial { RowRefused (Serial ∷ Cell kind.Bool ∷ []) (0 ∷ 0 ∷ 0 ∷ 0 ∷ 2 ∷ 0 ∷ []) 3 }
    ensures no_mark { RowRefused (Serial ∷ Cell kind.Bool ∷ []) (0 ∷ 0 ∷ 0 ∷ 1 ∷ 2 ∷ 0 ∷ []) 4 }
    ensures no_null { RowRefused (Serial ∷ Cell kind.Bool ∷ []) (0 ∷ 0 ∷ 0 ∷ 1 ∷ 0 ∷ 1 ∷ []) 5 }
    ensures no_key { RowRefused (Serial ∷ Cell kind.Bool ∷ []) (0 ∷ 0 ∷ 0 ∷ 1 ∷ 1 ∷ 2 ∷ []) 5 }
{}
