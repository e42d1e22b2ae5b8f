//! How the cells of a statement are written.
ghost use Rattle.std.specs.Prelude.{◌≡◌};
ghost use Rattle.std.specs.BTreeSet.{contains_text};
ghost use Rattle.st_text.specs.Answer.{Answers};
ghost use Rattle.st_statements.specs.Faults.{misread_of};
ghost use Rattle.st_statements.specs.Statements.{new_name, cell_parts, cell_with, cells_at};

use crate::basic::{forms_at, misfit, name_at, next_at};
use crate::fault::Stop;
use crate::names::{Names, is_seen, see};
use crate::term::one_term;
use sqlite_items::Items;
use st_query::{Cell, Cells};
use st_sexp::{Ahead, Form};
use st_text::Letters;
use std::alloc::Global;
use std::collections::BTreeSet;

/// The name of a cell, which has to be a new one.
fn new_name(names: &Names, form: Form) -> Result<Letters, Stop>
    ensures { Answers misread_of result (new_name (contains_text names.now) form) }
{
    let place = form.from;
    let name = name_at(form)?;
    if is_seen(names, name.as_str()) {
        Err(misfit(place))
    } else {
        Ok(name)
    }
}

/// The name and the value of a cell.
fn cell_parts(alloc: Global, names: &Names, place: u32, parts: Ahead<Form>) -> Result<Cell, Stop>
    ensures { Answers misread_of result (cell_parts (contains_text names.now) place parts) }
{
    let (name, parts) = next_at(place, parts)?;
    let name = new_name(names, name)?;
    let value = one_term(alloc, place, parts)?;
    Ok(Cell { name, value })
}

/// `(ATTRIBUTE TERM)`, with a name that was not seen.
fn cell_with(alloc: Global, names: &Names, form: Form) -> Result<Cell, Stop>
    ensures { Answers misread_of result (cell_with (contains_text names.now) form) }
{
    let place = form.from;
    let parts = forms_at(alloc, form)?;
    cell_parts(alloc, names, place, parts)
}

/// Cells, each with a name of its own.
pub(crate) fn cells_at(alloc: Global, forms: Ahead<Form>) -> Result<Cells, Stop>
    ensures { Answers misread_of result (cells_at forms) }
{
    let mut forms = forms;
    let mut names = BTreeSet::new(alloc);
    let mut cells = Items::new(alloc);
    while let Some(form) = forms.next() {
        let cell = cell_with(alloc, &names, form)?;
        see(alloc, &mut names, cell.name.as_str())?;
        cells.push(cell)?;
    }
    Ok(cells)
}
