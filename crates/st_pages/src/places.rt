ghost use Rattle.std.specs.Prelude.{◌≡◌, ◌≤◌, ◌==◌, [], ◌∷◌, ◌++◌, length, IfOk, IfErr, OnOk, OnErr};
ghost use Rattle.st_pages.specs.Places.{place_of, AscendByStore, AreBelow};
ghost use Rattle.st_pages.specs.Searched.{IsBelowUpTo, IsFoundAt, IsGapAt};

use std::alloc::{AllocError, Global};
use std::marker::Model;

/// Where a store stands, and how wide its rows are.
#[derive(Clone, Copy, Debug, PartialEq, Eq)]
pub struct Place {
    /// The store's number.
    pub store: u32,
    /// Its first page.
    pub first: u32,
    /// How many bytes of a row are its key.
    pub key: u16,
    /// How many bytes a row has.
    pub width: u16,
}

/// The index of the first place whose store isn't below a store.
fn index_of(places: &[Place], store: u32) -> usize
    requires { AscendByStore places.now }
    ensures within { result ≤ length places.now }
    ensures front { IsBelowUpTo (λ p. p.store) store places.now result }
{
    places.partition_point(|place| place.store < store)
}

/// Where the place of a store is, or where it goes.
fn search(places: &[Place], store: u32) -> Result<usize, usize>
    requires { AscendByStore places.now }
    ensures there { IfOk result (λ index. IsFoundAt (λ p. p.store) store places.now index) }
    ensures absent { IfErr result (λ index. IsGapAt (λ p. p.store) store places.now index) }
{
    let index = index_of(places, store);
    if index == places.len() {
        return Err(index);
    }
    if places[index].store == store {
        Ok(index)
    } else {
        Err(index)
    }
}

/// Places, in the order of their stores.
#[derive(Drop)]
pub struct Places {
    places: Vec<Place>,
}

impl Model for Places {
    ghost use Rattle.std.specs.Prelude.{List};
    ghost use Rattle.st_pages.specs.declared.places.Place.{Place};
    ghost use Rattle.st_pages.specs.Places.{AscendByStore};

    ghost Value = { List Place };

    ghost view = { λ it. it.places.items };

    ghost invariant = { λ it. AscendByStore it.places.items };
}

impl Places {
    /// No places. It takes no memory yet.
    pub fn new(alloc: Global) -> Places
        ensures { result ≡ [] }
    {
        Places {
            places: Vec::new(alloc),
        }
    }

    /// How many there are.
    pub fn len(&self) -> usize
        ensures { result ≡ length self.now }
    {
        self.places.len()
    }

    /// Whether there is none.
    pub fn is_empty(&self) -> bool
        ensures { result ≡ (length self.now == 0) }
    {
        self.places.is_empty()
    }

    /// All of them, in the order of their stores.
    pub fn as_slice(&self) -> &[Place]
        ensures places { result.now ≡ self.now }
        ensures in_order { AscendByStore self.now }
    {
        self.places.as_slice()
    }

    /// Puts a place behind all others.
    ///
    /// # Errors
    /// `AllocError` where there is no memory for one place more; nothing is changed then.
    pub fn push(&mut self, place: Place) -> Result<(), AllocError>
        requires { AreBelow place.store self.old }
        ensures ok { OnOk result (self.new ≡ self.old ++ place ∷ []) }
        ensures err { OnErr result (self.new ≡ self.old) }
    {
        self.places.push(place)?;
        Ok(())
    }

    /// The place of a store, if there is one.
    pub fn find(&self, store: u32) -> Option<Place>
        ensures place { result ≡ place_of store self.now }
        ensures in_order { AscendByStore self.now }
    {
        match search(&self.places, store) {
            Ok(index) => Some(self.places[index]),
            Err(_) => None,
        }
    }

    /// A copy, or `AllocError` where there is no memory for it.
    pub fn copy(&self, alloc: Global) -> Result<Places, AllocError>
        ensures { IfOk result (λ copied. copied ≡ self.now) }
    {
        let places = Vec::from_slice(alloc, self.places.as_slice())?;
        Ok(Places { places })
    }
}
