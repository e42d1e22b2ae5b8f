ghost use Rattle.std.specs.Prelude.{◌≡◌, ◌+◌, ◌<◌, ◌≤◌, [], length, not, filter, insert, remove, slice_set, IfOk, OnOk, OnErr};

use crate::change::{Change, log, undo_all};
use crate::sieve::Sieve;
use crate::sift::{count_of, sift_out};
use st_text::Duplicate;
use std::alloc::{AllocError, Global};
use std::marker::Model;

/// A list that logs how it was changed since its mark, so that it can go back to what it was there.
///
/// An insertion takes memory where it has to. Other changes are logged in the list's `room`, which is
/// made before them, and going back takes no memory.
#[derive(Drop)]
pub struct UndoList<T> {
    items: Vec<T>,
    // The changes since the mark, the oldest first.
    changes: Vec<Change<T>>,
}

impl<T> Model for UndoList<T> {
    ghost use Rattle.std.specs.Prelude.{◌-◌, ◌≤◌, vec_len, vec_capacity};
    ghost use Rattle.st_undo.specs.Marked.{Marked, marked_code};

    ghost Value = { Marked T };

    ghost coded = { marked_code T.code };

    ghost use Rattle.st_undo.specs.Undone.{undone, longest};

    ghost view = { λ it. record {
      items = it.items.items;
      mark = undone it.changes.items it.items.items;
      room = vec_capacity it.changes - vec_len it.changes;
    } };

    // No list on the way back is longer than what there is room for, so that none of them takes memory.
    ghost invariant = { λ it. longest it.changes.items it.items.items ≤ vec_capacity it.items };
}

impl<T: Drop> UndoList<T> {
    /// The empty list, marked as it is. It takes no memory yet.
    pub fn new(alloc: Global) -> UndoList<T>
        ensures items { result.items ≡ [] }
        ensures mark { result.mark ≡ [] }
    {
        UndoList::from_vec(alloc, Vec::new(alloc))
    }

    /// The list of these items, marked as it is. It takes no memory.
    pub fn from_vec(alloc: Global, items: Vec<T>) -> UndoList<T>
        ensures items { result.items ≡ items.items }
        ensures mark { result.mark ≡ items.items }
    {
        UndoList {
            items,
            changes: Vec::new(alloc),
        }
    }

    /// The items.
    pub fn as_slice(&self) -> &[T]
        ensures { result.now ≡ self.now.items }
    {
        self.items.as_slice()
    }

    /// Makes room for so many changes, or answers `AllocError`. The items and the mark stay, and no
    /// room is lost.
    pub fn make_room(&mut self, count: usize) -> Result<(), AllocError>
        ensures ok { OnOk result (count ≤ self.new.room) }
        ensures room { self.old.room ≤ self.new.room }
        ensures items { self.new.items ≡ self.old.items }
        ensures mark { self.new.mark ≡ self.old.mark }
    {
        self.changes.reserve(count)
    }

    /// Makes room for taking out what the sieve takes, or answers `AllocError`. The items and the
    /// mark stay, and no room is lost.
    pub fn make_room_for<S: Sieve<T>>(&mut self, sieve: &S) -> Result<(), AllocError>
        ensures ok { OnOk result (length (filter (S.takes sieve.now) self.old.items) ≤ self.new.room) }
        ensures room { self.old.room ≤ self.new.room }
        ensures items { self.new.items ≡ self.old.items }
        ensures mark { self.new.mark ≡ self.old.mark }
    {
        let count = count_of(&self.items, sieve);
        self.make_room(count)
    }

    /// Puts an item in a place, from 0 to the length. On `AllocError` the items stay.
    pub fn insert(&mut self, place: usize, item: T) -> Result<(), AllocError>
        requires { place ≤ length self.old.items }
        ensures ok { OnOk result (self.new.items ≡ insert self.old.items place item) }
        ensures err { OnErr result (self.new.items ≡ self.old.items) }
        ensures mark { self.new.mark ≡ self.old.mark }
        ensures room { self.old.room ≤ self.new.room + 1 }
    {
        self.changes.reserve(1)?;
        self.items.insert(place, item)?;
        log(&mut self.changes, Change::Put(place));
        Ok(())
    }

    /// Takes the item out of a place. It takes no memory.
    pub fn remove(&mut self, place: usize)
        requires there { place < length self.old.items }
        requires logged { 1 ≤ self.old.room }
        ensures items { self.new.items ≡ remove self.old.items place }
        ensures mark { self.new.mark ≡ self.old.mark }
        ensures room { self.old.room ≤ self.new.room + 1 }
    {
        let item = self.items.remove(place);
        log(&mut self.changes, Change::Took(place, item));
    }

    /// Replaces the item in a place. It takes no memory.
    pub fn replace(&mut self, place: usize, item: T)
        requires there { place < length self.old.items }
        requires logged { 1 ≤ self.old.room }
        ensures items { self.new.items ≡ slice_set self.old.items place item }
        ensures mark { self.new.mark ≡ self.old.mark }
        ensures room { self.old.room ≤ self.new.room + 1 }
    {
        let before = std::mem::replace(&mut self.items[place], item);
        log(&mut self.changes, Change::Replaced(place, before));
    }

    /// Takes out each item that the sieve takes, in one pass. It takes no memory.
    pub fn sift<S: Sieve<T>>(&mut self, sieve: &S)
        requires { length (filter (S.takes sieve.now) self.old.items) ≤ self.old.room }
        ensures items { self.new.items ≡ filter (λ item. not (S.takes sieve.now item)) self.old.items }
        ensures mark { self.new.mark ≡ self.old.mark }
        ensures room { self.old.room ≤ self.new.room + length (filter (S.takes sieve.now) self.old.items) }
    {
        sift_out(&mut self.items, &mut self.changes, sieve);
    }

    /// Marks the list as it is. It takes no memory, and gives back the room of what was logged.
    pub fn set_mark(&mut self)
        ensures items { self.new.items ≡ self.old.items }
        ensures mark { self.new.mark ≡ self.old.items }
        ensures room { self.old.room ≤ self.new.room }
    {
        self.changes.clear();
    }

    /// Goes back to what the list was at its mark, one change after another. It takes no memory.
    pub fn roll_back(&mut self)
        ensures items { self.new.items ≡ self.old.mark }
        ensures mark { self.new.mark ≡ self.old.mark }
        ensures room { self.old.room ≤ self.new.room }
    {
        undo_all(&mut self.items, &mut self.changes);
    }
}

impl<T: Duplicate + Drop> UndoList<T> {
    /// A list of copies of the items, marked as it is, or `AllocError` where there is no memory for it.
    pub fn copy(&self, alloc: Global) -> Result<UndoList<T>, AllocError>
        ensures items { IfOk result (λ copied. copied.items ≡ self.now.items) }
        ensures mark { IfOk result (λ copied. copied.mark ≡ self.now.items) }
    {
        let mut items = Vec::new(alloc);
        for item in &self.items {
            items.push(item.copy(alloc)?)?;
        }
        Ok(UndoList::from_vec(alloc, items))
    }
}
