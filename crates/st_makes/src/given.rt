//! What cells give.
ghost use Rattle.std.specs.Prelude.{◌≡◌, [], ◌++◌, flat_map, All, OnOk};
ghost use Rattle.std.specs.Option.{option_copied};
ghost use Rattle.st_lattice.specs.Lattice.{attribute_of};
ghost use Rattle.st_state.specs.State.{State};
ghost use Rattle.st_meaning.specs.Terms.{term_value};
ghost use Rattle.st_terms.specs.Looks.{Looks, Keeps};
ghost use Rattle.st_terms.specs.Routes.{AdmitsTerm, term_stores};
ghost use Rattle.st_makes.specs.Makes.{given_by, givens_of, given_to};

use sqlite_items::Items;
use st_lattice::Schema;
use st_plain::{Base, BaseFault};
use st_query::{Cell, Variable};
use st_terms::term_value;
use st_values::Value;
use std::alloc::{AllocError, Global};

/// An attribute, by number, and the value that a cell gives it.
#[derive(Debug, Drop)]
pub(crate) struct Given {
    /// The number of the attribute.
    pub number: u16,
    /// Whether it has a set of values.
    pub many: bool,
    /// The value.
    pub value: Value,
}

/// What is given to an attribute.
pub(crate) fn given_to(givens: &[Given], number: u16) -> Option<&Given>
    ensures { option_copied result ≡ given_to givens.now number }
{
    givens.iter().find(|given| given.number == number)
}

fn push_given(
    schema: &Schema,
    ty: u16,
    name: &[u8],
    value: Value,
    givens: &mut Items<Given>,
) -> Result<(), AllocError>
    ensures { OnOk result (givens.new ≡ givens.old ++ given_by (attribute_of schema.now ty name.now) value) }
{
    match schema.attribute_of(ty, name) {
        Some(attribute) => givens.push(Given {
            number: attribute.number,
            many: attribute.many,
            value,
        }),
        None => Ok(()),
    }
}

/// Adds what a cell gives.
fn give<B: Base>(
    base: &mut B,
    alloc: Global,
    schema: &Schema,
    variables: &[Variable],
    ty: u16,
    cell: &Cell,
    givens: &mut Items<Given>,
) -> Result<(), BaseFault>
    requires { schema.now ≡ B.schema base.old }
    ensures looks { (w : B.Witness) (s : State) → B.agrees base.new w → B.stands base.old w s → AdmitsTerm s variables.now cell.now.value →
        Looks (B.stands base.new w s) (B.asks base.old base.new w) (B.reached base.new w)
        (λ _. givens.new ≡ givens.old ++ given_by (attribute_of s.schema ty cell.now.name) (term_value s variables.now cell.now.value))
        (term_stores s.schema variables.now cell.now.value) [] result }
    ensures keeps { Keeps (B.follows base.old base.new) (B.met base.old) (B.met base.new) result }
{
    let value = term_value(base, alloc, schema, variables, &cell.value)?;
    push_given(schema, ty, cell.name.as_slice(), value, givens)?;
    Ok(())
}

/// What the cells of a type give, first to last. Each value is found once.
pub(crate) fn givens_of<B: Base>(
    base: &mut B,
    alloc: Global,
    schema: &Schema,
    variables: &[Variable],
    ty: u16,
    cells: &[Cell],
) -> Result<Items<Given>, BaseFault>
    requires { schema.now ≡ B.schema base.old }
    ensures looks { (w : B.Witness) (s : State) → B.agrees base.new w → B.stands base.old w s → All (λ c. AdmitsTerm s variables.now c.value) cells.now →
        Looks (B.stands base.new w s) (B.asks base.old base.new w) (B.reached base.new w)
        (λ givens. givens ≡ givens_of s variables.now ty cells.now)
        (flat_map (λ c. term_stores s.schema variables.now c.value) cells.now) [] result }
    ensures keeps { Keeps (B.follows base.old base.new) (B.met base.old) (B.met base.new) result }
{
    let mut givens = Items::new(alloc);
    for cell in cells {
        give(base, alloc, schema, variables, ty, cell, &mut givens)?;
    }
    Ok(givens)
}
