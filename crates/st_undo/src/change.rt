//! Changes of a list, and how they are undone.
ghost use Rattle.std.specs.Prelude.{◌≡◌, ◌+◌, ◌<◌, ◌≤◌, [], ◌∷◌, ◌++◌, length, insert, remove, slice_set, vec_len, vec_capacity};
ghost use Rattle.st_undo.specs.Undone.{undo, undone, longest};

/// How a list was changed once. What it took out is kept here.
#[derive(Drop)]
pub enum Change<T> {
    /// An item was put in this place.
    Put(usize),
    /// This item was taken out of this place.
    Took(usize, T),
    /// This item was replaced in this place.
    Replaced(usize, T),
}

/// Logs a change, for which there is room.
pub fn log<T: Drop>(changes: &mut Vec<Change<T>>, change: Change<T>)
    requires { vec_len changes.old < vec_capacity changes.old }
    ensures items { changes.new.items ≡ changes.old.items ++ change ∷ [] }
    ensures len { vec_len changes.new ≡ vec_len changes.old + 1 }
    ensures capacity { vec_capacity changes.old ≤ vec_capacity changes.new }
{
    let _ = changes.push(change);
}

fn take_out<T: Drop>(items: &mut Vec<T>, place: usize)
    ensures items { items.new.items ≡ remove items.old.items place }
    ensures capacity { vec_capacity items.old ≤ vec_capacity items.new }
{
    if place < items.len() {
        let _item = items.remove(place);
    }
}

fn put_back<T: Drop>(items: &mut Vec<T>, place: usize, item: T)
    requires { vec_len items.old < vec_capacity items.old }
    ensures items { items.new.items ≡ insert items.old.items place item }
    ensures capacity { vec_capacity items.old ≤ vec_capacity items.new }
{
    let place = place.min(items.len());
    let _ = items.insert(place, item);
}

fn put_over<T: Drop>(items: &mut Vec<T>, place: usize, item: T)
    ensures items { items.new.items ≡ slice_set items.old.items place item }
    ensures capacity { vec_capacity items.old ≤ vec_capacity items.new }
{
    if place < items.len() {
        items[place] = item;
    }
}

fn undo<T: Drop>(items: &mut Vec<T>, change: Change<T>)
    requires { length (undo change items.old.items) ≤ vec_capacity items.old }
    ensures items { items.new.items ≡ undo change items.old.items }
    ensures capacity { vec_capacity items.old ≤ vec_capacity items.new }
{
    match change {
        Change::Put(place) => take_out(items, place),
        Change::Took(place, item) => put_back(items, place, item),
        Change::Replaced(place, item) => put_over(items, place, item),
    }
}

/// Undoes all changes, the last one first. There has to be room for the list at each of them.
pub fn undo_all<T: Drop>(items: &mut Vec<T>, changes: &mut Vec<Change<T>>)
    requires { longest changes.old.items items.old.items ≤ vec_capacity items.old }
    ensures items { items.new.items ≡ undone changes.old.items items.old.items }
    ensures changes { changes.new.items ≡ [] }
    ensures capacity { vec_capacity changes.old ≤ vec_capacity changes.new }
{
    while let Some(change) = changes.pop() {
        undo(items, change);
    }
}
