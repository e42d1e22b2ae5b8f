ghost use Rattle.std.specs.Prelude.{◌≡◌, ◌↔◌, [], ◌∷◌, length, reverse, IsTrue, IfOk, OnOk, MatchOption};
ghost use Rattle.st_sexp.specs.Nested.{front};

use sqlite_items::Items;
use std::alloc::{AllocError, Global};
use std::marker::Model;

/// A list that is taken apart from its front on, one item after another. Contracts see the items that are left.
#[derive(Debug, Drop)]
pub struct Ahead<T> {
    /// The items, the last one first.
    reversed: Items<T>,
}

impl<T> Model for Ahead<T> {
    ghost use Rattle.std.specs.Prelude.{List, reverse};
    ghost use Rattle.std.specs.Coded.{coded_list};

    ghost Value = { List T };

    ghost coded = { coded_list T.code };

    ghost view = { λ it. reverse it.reversed };
}

impl<T: Drop> Ahead<T> {
    /// The items of a list, none of them taken yet. `AllocError` where there is no memory.
    pub fn new(alloc: Global, items: Items<T>) -> Result<Ahead<T>, AllocError>
        ensures { IfOk result (λ ahead. ahead ≡ items) }
    {
        let mut items = items;
        let mut reversed = Items::new(alloc);
        while let Some(item) = items.pop() {
            reversed.push(item)?;
        }
        Ok(Ahead { reversed })
    }

    /// The items of a list whose last one stands first.
    pub fn from_reversed(reversed: Items<T>) -> Ahead<T>
        ensures { result ≡ reverse reversed }
    {
        Ahead { reversed }
    }

    /// How many items are left.
    pub fn len(&self) -> usize
        ensures { result ≡ length self.now }
    {
        self.reversed.len()
    }

    /// Whether no item is left.
    pub fn is_empty(&self) -> bool
        ensures { IsTrue result ↔ (length self.now ≡ 0) }
    {
        self.reversed.len() == 0
    }

    /// The first item, and those behind it.
    pub fn front(self) -> Option<(T, Ahead<T>)>
        ensures { result ≡ front self }
    {
        let Ahead { mut reversed } = self;
        match reversed.pop() {
            Some(first) => Some((first, Ahead { reversed })),
            None => None,
        }
    }

    /// Takes the first item.
    pub fn next(&mut self) -> Option<T>
        ensures { MatchOption result ((self.old ≡ []) × (self.new ≡ [])) (λ first. self.old ≡ first ∷ self.new) }
    {
        self.reversed.pop()
    }

    /// Puts an item back to the front. `AllocError` where there is no memory.
    pub fn put_back(&mut self, item: T) -> Result<(), AllocError>
        ensures { OnOk result (self.new ≡ item ∷ self.old) }
    {
        self.reversed.push(item)?;
        Ok(())
    }
}
