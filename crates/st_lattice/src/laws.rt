//! Laws of the definitions: functions that do nothing, and whose contracts state them.
ghost use Rattle.std.specs.Prelude.{◌≡◌, ◌==◌, ◌||◌, ℕ, nat_lt, IsTrue};
ghost use Rattle.std.specs.List.{list_any};
ghost use Rattle.st_values.specs.Arranged.{ascends};
ghost use Rattle.st_lattice.specs.Outline.{Outline, IsOrderly, parents_of};
ghost use Rattle.st_lattice.specs.Lattice.{isa};
ghost use Rattle.st_lattice.specs.Stores.{stores_of};

/// A type is of another one exactly where it is that type, or a parent of it is of that one.
pub fn laws_of_descent()
    ensures { (schema : Outline) → IsOrderly schema → (ty ancestor : ℕ) →
        isa schema ty ancestor ≡ ((ty == ancestor) || list_any (λ p. isa schema p ancestor) (parents_of schema ty)) }
{}

/// The stores of a schema ascend, so that no two have one number.
pub fn laws_of_stores()
    ensures { (schema : Outline) → IsOrderly schema → IsTrue (ascends nat_lt (stores_of schema)) }
{}
