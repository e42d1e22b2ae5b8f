//! A database in pages.
ghost use Rattle.std.specs.Prelude.{◌≡◌};
ghost use Rattle.std.specs.List.{All};
ghost use Rattle.st_catalog.specs.Stores.{AreOf};
ghost use Rattle.st_store.specs.Stores.{IsPlace};

use st_lattice::Schema;
use st_pages::Places;
use std::marker::Model;

/// A database in pages: its schema, the places of its stores, and the pages.
#[derive(Drop)]
pub struct Paged<P> {
    pub schema: Schema,
    pub places: Places,
    pub pages: P,
}

impl<P> Model for Paged<P> {
    ghost use Rattle.std.specs.List.{All};
    ghost use Rattle.st_catalog.specs.Stores.{AreOf};
    ghost use Rattle.st_store.specs.Stores.{IsPlace};
    ghost use Rattle.st_paged.specs.Paged.{Parts};

    ghost Value = { Parts P };

    ghost view = { λ it. record { schema = it.schema; places = it.places; pages = it.pages } };

    // Its places are those of the stores of its schema.
    ghost invariant = { λ it. AreOf it.schema it.places × All IsPlace it.places };
}

impl<P> Paged<P> {
    /// A database in these pages, with this schema and these places of its stores. It takes no memory.
    pub fn over(schema: Schema, places: Places, pages: P) -> Paged<P>
        requires of { AreOf schema places }
        requires fair { All IsPlace places }
        ensures { result ≡ record { schema = schema; places = places; pages = pages } }
    {
        Paged {
            schema,
            places,
            pages,
        }
    }

    /// Its schema, the places of its stores, and its pages.
    pub fn part(self) -> (Schema, Places, P)
        ensures schema { result.0 ≡ self.schema }
        ensures places { result.1 ≡ self.places }
        ensures pages { result.2 ≡ self.pages }
        ensures of { AreOf self.schema self.places }
        ensures fair { All IsPlace self.places }
    {
        let Paged {
            schema,
            places,
            pages,
        } = self;
        (schema, places, pages)
    }
}
