//! Laws of the definitions: functions that do nothing, and whose contracts state them.
ghost use Rattle.std.specs.Prelude.{◌≡◌};
ghost use Rattle.std.specs.Cmp.{IsTotalOrder};
ghost use Rattle.std.specs.declared.cmp.Ordering.TheVariants.{Equal};
ghost use Rattle.st_values.specs.declared.value.EntityId.{EntityId};
ghost use Rattle.st_values.specs.declared.value.Value.{Value};
ghost use Rattle.st_values.specs.Order.{entity_order, value_order};

/// The orders of values and of entities are total, and they tell two values, or two entities, apart wherever these
/// differ.
pub fn laws_of_orders()
    ensures values { IsTotalOrder value_order }
    ensures entities { IsTotalOrder entity_order }
    ensures exact_values { (a b : Value) → value_order a b ≡ Equal → a ≡ b }
    ensures exact_entities { (a b : EntityId) → entity_order a b ≡ Equal → a ≡ b }
{}
