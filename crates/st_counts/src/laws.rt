//! Laws of the counts of rows: functions that do nothing, and whose contracts state them.
ghost use Rattle.std.specs.Prelude.{◌≡◌, ℕ, ◌+◌, ◌*◌, ◌≤◌, ◌<◌, true, false, length, Some};
ghost use Rattle.std.specs.List.{All};
ghost use Rattle.st_values.specs.declared.value.EntityId.{EntityId};
ghost use Rattle.st_values.specs.declared.value.Value.{Value};
ghost use Rattle.st_values.specs.Order.{same_value};
ghost use Rattle.st_lattice.specs.declared.attribute.Attribute.{Attribute};
ghost use Rattle.st_lattice.specs.Outline.{attribute};
ghost use Rattle.st_lattice.specs.Lattice.{isa};
ghost use Rattle.st_state.specs.State.{State, is_live, has_value, value_at, entity_made, attribute_set, entity_deleted, member_added, member_taken};
ghost use Rattle.st_state.specs.Legal.{IsNearlyLegal};
ghost use Rattle.st_state.specs.Rows.{rows_added, rows_changed};
ghost use Rattle.st_counts.specs.Counts.{row_count, referring_rows, spoken_rows, turned_count};

/// Does nothing: its contract says that a new entity adds a row.
pub fn laws_of_made()
    ensures added { (s : State) (ty : ℕ) → IsNearlyLegal s → All (λ a. a.number < 65536) s.schema.attributes → ty < length s.schema.names → 1 ≤ rows_added s (entity_made s ty) }
    ensures changed { (s : State) (ty : ℕ) → IsNearlyLegal s → All (λ a. a.number < 65536) s.schema.attributes → ty < length s.schema.names → 1 ≤ rows_changed s (entity_made s ty) }
{}

/// Does nothing: its contract says that a value that is put into a set, or taken out of it, has a row in the set, and
/// one in each store that keeps the attribute turned round.
pub fn laws_of_members()
    ensures added { (s : State) (number : ℕ) (e : EntityId) (v : Value) → IsNearlyLegal s → All (λ a. a.number < 65536) s.schema.attributes → (a : Attribute) → attribute s.schema number ≡ Some a → a.many ≡ true → has_value s number e v ≡ false → 1 + turned_count a ≤ rows_added s (member_added s number e v) }
    ensures added_changes { (s : State) (number : ℕ) (e : EntityId) (v : Value) → IsNearlyLegal s → All (λ a. a.number < 65536) s.schema.attributes → (a : Attribute) → attribute s.schema number ≡ Some a → a.many ≡ true → has_value s number e v ≡ false → 1 + turned_count a ≤ rows_changed s (member_added s number e v) }
    ensures taken_changes { (s : State) (number : ℕ) (e : EntityId) (v : Value) → IsNearlyLegal s → All (λ a. a.number < 65536) s.schema.attributes → (a : Attribute) → attribute s.schema number ≡ Some a → a.many ≡ true → has_value s number e v ≡ true → 1 + turned_count a ≤ rows_changed s (member_taken s number e v) }
{}

/// Does nothing: its contract says that a single value that is set adds a row, unless it is null, to each store that keeps
/// the attribute turned round; and that with it the entity's own row changes, and the old value's rows go.
pub fn laws_of_single_values()
    ensures added { (s : State) (number : ℕ) (e : EntityId) (v : Value) → IsNearlyLegal s → All (λ a. a.number < 65536) s.schema.attributes → (a : Attribute) → attribute s.schema number ≡ Some a → a.many ≡ false → same_value (value_at number e s.triples) v ≡ false → turned_count a * row_count v ≤ rows_added s (attribute_set s number e v) }
    ensures changed { (s : State) (number : ℕ) (e : EntityId) (v : Value) → IsNearlyLegal s → All (λ a. a.number < 65536) s.schema.attributes → (a : Attribute) → attribute s.schema number ≡ Some a → a.many ≡ false → a.column ≡ false → is_live s e ≡ true → isa s.schema e.ty a.owner ≡ true → same_value (value_at number e s.triples) v ≡ false → 1 + turned_count a * (row_count (value_at number e s.triples) + row_count v) ≤ rows_changed s (attribute_set s number e v) }
{}

/// Does nothing: its contract says that with an entity that is deleted its own row goes, and each row of a set, an index or an
/// inverse that a triple of it, or one that refers to it, has; and that the row of each other entity changes that has it
/// as a single value.
pub fn laws_of_deleted()
    ensures changed { (s : State) (e : EntityId) → IsNearlyLegal s → All (λ a. a.number < 65536) s.schema.attributes → is_live s e ≡ true → 1 + spoken_rows s e + referring_rows s e ≤ rows_changed s (entity_deleted s e) }
{}
