//! The store of a case.
ghost use Rattle.std.specs.Prelude.{◌≡◌, ◌<◌, ◌≤◌, IsTrue};
ghost use Rattle.st_store.specs.Stores.{IsPlace};

use crate::given::number;
use st_chain::Chain;
use st_store::{Place, Store};
use std::marker::Model;

/// The place of a store, which is one.
#[derive(Clone, Copy)]
pub struct Asked {
    place: Place,
}

impl Model for Asked {
    ghost use Rattle.st_pages.specs.declared.places.Place.{Place};
    ghost use Rattle.st_store.specs.Stores.{IsPlace};

    ghost Value = { Place };

    ghost view = { λ it. it.place };

    ghost inverse = { λ place. record { place = place } };

    ghost invariant = { λ it. IsPlace it.place };
}

impl Asked {
    /// The store there, as a chain.
    pub fn store(self) -> Chain
        ensures { result ≡ self }
    {
        Chain::at(self.place)
    }

    /// The number of the store.
    pub fn number(self) -> u32
        ensures { result ≡ self.store }
    {
        self.place.store
    }

    /// Its first page.
    pub fn first(self) -> u32
        ensures first { result ≡ self.first }
        ensures within { result < 65536 }
    {
        self.place.first
    }

    /// How many bytes a key has.
    pub fn key(self) -> usize
        ensures key { result ≡ self.key }
        ensures most { result ≤ 207 }
    {
        self.place.key as usize
    }

    /// How many bytes a row has.
    pub fn width(self) -> usize
        ensures width { result ≡ self.width }
        ensures key { self.key ≤ result }
        ensures most { result ≤ 1000 }
    {
        self.place.width as usize
    }
}

/// Whether a store may stand at a place.
pub fn is_place(place: Place) -> bool
    ensures { IsTrue result → IsPlace place }
{
    place.first < 65536
        && place.key >= 1
        && place.key <= 207
        && place.width >= place.key
        && place.width <= 1000
}

/// The place that a front names: the store, its first page, which is below 100, and how many bytes a key and a row have.
pub fn asked_in(front: &str) -> Option<Asked> {
    let mut words = front.split_whitespace();
    let store = number(&mut words);
    let first = number(&mut words);
    let key = number(&mut words).min(65535) as u16;
    let width = number(&mut words).min(65535) as u16;
    let place = Place {
        store,
        first,
        key,
        width,
    };
    if first < 100 && is_place(place) {
        Some(Asked { place })
    } else {
        None
    }
}
