//! The places of a schema's stores.
ghost use Rattle.std.specs.Prelude.{◌≡◌, ◌↔◌, ◌≤◌, ◌<◌, ℕ, length, map, nat_lt, IsTrue, IfOk};
ghost use Rattle.std.specs.List.{list_all};
ghost use Rattle.std.specs.Option.{option_copied};
ghost use Rattle.st_values.specs.Arranged.{ascends};
ghost use Rattle.st_lattice.specs.Stores.{row_width, stores_of};
ghost use Rattle.st_catalog.specs.Catalog.{stores_in};
ghost use Rattle.st_catalog.specs.Stores.{pair_layout, layout_of, placed, is_known};

use crate::root::Root;
use st_lattice::{Attribute, Schema};
use st_pages::{Place, Places};
use st_rows::{Field, field_width};
use std::alloc::{AllocError, Global};

/// How many bytes the keys and the rows of a store have that isn't a type's.
fn pair_layout(kind: u32, attribute: Option<&Attribute>) -> (u16, u16)
    ensures key { result.0 ≡ (pair_layout kind (option_copied attribute.entry)).key }
    ensures width { result.1 ≡ (pair_layout kind (option_copied attribute.entry)).width }
{
    let Some(attribute) = attribute else {
        return (0, 0);
    };
    let width = 6 + field_width(Field::Key(attribute.kind)) as u16;
    if kind == 4 {
        (6, width)
    } else {
        (width, width)
    }
}

/// How many bytes the keys and the rows of a store have.
fn layout_of(schema: &Schema, store: u32) -> (u16, u16)
    requires known { IsTrue (is_known schema.now store) }
    requires narrow { (ty : ℕ) → ty < length schema.now.names → row_width schema.now ty ≤ 1000 }
    ensures key { result.0 ≡ (layout_of schema.now store).key }
    ensures width { result.1 ≡ (layout_of schema.now store).width }
{
    if store < 65_536 {
        (4, schema.row_width(store as u16) as u16)
    } else {
        let number = (store % 65_536) as u16;
        pair_layout(store / 65_536, schema.attribute(number))
    }
}

/// The place of a store.
fn placed(schema: &Schema, root: Root) -> Place
    requires known { IsTrue (is_known schema.now root.store) }
    requires narrow { (ty : ℕ) → ty < length schema.now.names → row_width schema.now ty ≤ 1000 }
    ensures { result ≡ placed schema.now root }
{
    let (key, width) = layout_of(schema, root.store);
    Place {
        store: root.store,
        first: root.first,
        key,
        width,
    }
}

/// The places of stores.
pub(crate) fn places_of(
    alloc: Global,
    schema: &Schema,
    roots: &[Root],
) -> Result<Places, AllocError>
    requires known { IsTrue (list_all (λ r. is_known schema.now r.store) roots.now) }
    requires ascend { IsTrue (ascends nat_lt (stores_in roots.now)) }
    requires narrow { (ty : ℕ) → ty < length schema.now.names → row_width schema.now ty ≤ 1000 }
    ensures { IfOk result (λ places. places ≡ map (placed schema.now) roots.now) }
{
    let mut places = Places::new(alloc);
    for root in roots {
        places.push(placed(schema, *root))?;
    }
    Ok(places)
}

/// Whether roots are those of a schema's stores.
pub(crate) fn are_of(alloc: Global, schema: &Schema, roots: &[Root]) -> Result<bool, AllocError>
    ensures { IfOk result (λ are. IsTrue are ↔ (stores_in roots.now ≡ stores_of schema.now)) }
{
    let stores = schema.stores_of(alloc)?;
    let named = stores_in(alloc, roots)?;
    Ok(named.as_slice() == stores.as_slice())
}

/// The stores of roots.
fn stores_in(alloc: Global, roots: &[Root]) -> Result<Vec<u32>, AllocError>
    ensures { IfOk result (λ stores. stores.items ≡ stores_in roots.now) }
{
    let mut stores = Vec::new(alloc);
    for root in roots {
        stores.push(root.store)?;
    }
    Ok(stores)
}
