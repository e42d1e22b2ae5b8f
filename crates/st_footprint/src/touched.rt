//! The footprint of a statement: all that it touches is noted, and of that the stores of the schema are kept.
ghost use Rattle.std.specs.Prelude.{◌≡◌, IfOk};
ghost use Rattle.st_query.specs.Footprint.{footprint};
ghost use Rattle.st_footprint.specs.Parts.{touched};

use crate::Footprint;
use crate::effects::note_effects;
use crate::paths::note_paths;
use crate::starts::{hidden_by, note_starts};
use crate::terms::terms_of;
use st_lattice::Schema;
use st_query::{Statement, Variable};
use st_variables::Variables;
use std::alloc::{AllocError, Global};

/// The stores that a statement may touch, and perhaps numbers that no store has.
fn touched(
    alloc: Global,
    schema: &Schema,
    variables: &[Variable],
    statement: &Statement,
) -> Result<Footprint, AllocError>
    ensures { IfOk result (λ numbers. numbers ≡ touched schema.now variables.now statement.now) }
{
    let terms = terms_of(alloc, statement)?;
    let mut numbers = Footprint::new(alloc);
    note_starts(
        alloc,
        schema,
        variables,
        hidden_by(statement),
        &terms,
        &mut numbers,
    )?;
    note_paths(alloc, schema, &terms, &mut numbers)?;
    note_effects(alloc, schema, variables, statement, &terms, &mut numbers)?;
    Ok(numbers)
}

/// The stores that a statement may look at or change, by number, ascending, each once. `AllocError` where there is no
/// memory.
///
/// What it touches is noted in one list in order, each number once: so it takes memory for a reference to each term, for
/// what the schema can have, and for the extents of entities. Time grows with the length of the statement: a literal or
/// a variable is one search in that list, and a feature or a cell one for each type that has the attribute and at most
/// four more. Beside that a variable is sought from the front of the list of them, and a deletion goes through the
/// attributes once for each type that the entity may have.
pub fn footprint(
    alloc: Global,
    schema: &Schema,
    variables: &Variables,
    statement: &Statement,
) -> Result<Footprint, AllocError>
    ensures { IfOk result (λ found. found ≡ footprint schema.now variables.now statement.now) }
{
    let numbers = touched(alloc, schema, variables.as_slice(), statement)?;
    numbers.kept(alloc, schema)
}
