//! Changes of triples that stand in order and go back to a mark.
ghost use Rattle.std.specs.Prelude.{◌≡◌, ◌+◌, ◌-◌, ◌≤◌, length, not, filter, IsTrue, IfOk, OnOk, OnErr};
ghost use Rattle.std.specs.List.{list_any, remove_range};
ghost use Rattle.st_values.specs.Arranged.{ascends};
ghost use Rattle.st_state.specs.State.{is_at, triple_before, same_triple, with_triple, triple_added, triple_taken};
ghost use Rattle.st_triples.specs.Marked.{triple_of};

use crate::search::{run_of, search};
use st_state::Triple;
use st_undo::UndoList;
use st_values::{EntityId, Value};
use std::alloc::AllocError;

/// Takes out those from a place up to another one, for which there is room.
fn remove_range(cells: &mut UndoList<Triple>, from: usize, to: usize)
    requires ordered { from ≤ to }
    requires within { to ≤ length cells.old.items }
    requires room { to - from ≤ cells.old.room }
    ensures items { cells.new.items ≡ remove_range cells.old.items from to }
    ensures mark { cells.new.mark ≡ cells.old.mark }
{
    for _ in from..to {
        cells.remove(from);
    }
}

/// Takes out all triples of an attribute of an entity.
pub fn clear(
    cells: &mut UndoList<Triple>,
    attribute: u16,
    entity: EntityId,
) -> Result<(), AllocError>
    requires { IsTrue (ascends triple_before cells.old.items) }
    ensures ok { OnOk result (cells.new.items ≡ filter (λ other. not (is_at attribute entity other)) cells.old.items) }
    ensures err { OnErr result (cells.new.items ≡ cells.old.items) }
    ensures mark { cells.new.mark ≡ cells.old.mark }
{
    let run = run_of(cells.as_slice(), attribute, entity);
    cells.make_room(run.to - run.from)?;
    remove_range(cells, run.from, run.to);
    Ok(())
}

/// Puts a triple in the place of all of its attribute and its entity.
pub fn set(cells: &mut UndoList<Triple>, triple: Triple) -> Result<(), AllocError>
    requires { IsTrue (ascends triple_before cells.old.items) }
    ensures ok { OnOk result (cells.new.items ≡ with_triple triple (filter (λ other. not (is_at triple.attribute triple.entity other)) cells.old.items)) }
    ensures err { OnErr result (cells.new.items ≡ cells.old.items) }
    ensures mark { cells.new.mark ≡ cells.old.mark }
{
    let run = run_of(cells.as_slice(), triple.attribute, triple.entity);
    if run.from == run.to {
        return cells.insert(run.from, triple);
    }
    cells.make_room(run.to - run.from)?;
    cells.replace(run.from, triple);
    remove_range(cells, run.from + 1, run.to);
    Ok(())
}

/// Adds a triple in its place, where it isn't there yet. Whether it wasn't.
pub fn add(cells: &mut UndoList<Triple>, triple: Triple) -> Result<bool, AllocError>
    requires { IsTrue (ascends triple_before cells.old.items) }
    ensures changed { IfOk result (λ changed. changed ≡ not (list_any (same_triple triple) cells.old.items)) }
    ensures ok { OnOk result (cells.new.items ≡ triple_added triple cells.old.items) }
    ensures err { OnErr result (cells.new.items ≡ cells.old.items) }
    ensures mark { cells.new.mark ≡ cells.old.mark }
{
    match search(
        cells.as_slice(),
        triple.attribute,
        triple.entity,
        &triple.value,
    ) {
        Ok(_) => Ok(false),
        Err(place) => {
            cells.insert(place, triple)?;
            Ok(true)
        }
    }
}

/// Takes a triple out. Whether it was there.
pub fn take(
    cells: &mut UndoList<Triple>,
    attribute: u16,
    entity: EntityId,
    value: &Value,
) -> Result<bool, AllocError>
    requires { IsTrue (ascends triple_before cells.old.items) }
    ensures changed { IfOk result (λ changed. changed ≡ list_any (same_triple (triple_of attribute entity value.now)) cells.old.items) }
    ensures ok { OnOk result (cells.new.items ≡ triple_taken (triple_of attribute entity value.now) cells.old.items) }
    ensures err { OnErr result (cells.new.items ≡ cells.old.items) }
    ensures mark { cells.new.mark ≡ cells.old.mark }
{
    match search(cells.as_slice(), attribute, entity, value) {
        Ok(place) => {
            cells.make_room(1)?;
            cells.remove(place);
            Ok(true)
        }
        Err(_) => Ok(false),
    }
}
