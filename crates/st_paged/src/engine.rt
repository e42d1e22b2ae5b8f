//! How a database in pages selects entities.
ghost use Rattle.std.specs.Prelude.{◌≡◌, ◌∷◌, [], List, is_ok};
ghost use Rattle.st_pages.specs.Attempt.{Array};
ghost use Rattle.st_known.specs.Known.{AreKnown};
ghost use Rattle.st_query.specs.declared.query.Query.{Query};
ghost use Rattle.st_query.specs.declared.term.Variable.{Variable};
ghost use Rattle.st_query.specs.declared.statement.Statement.TheVariants.{ForEach};
ghost use Rattle.st_state.specs.State.{State, entities_of};
ghost use Rattle.st_state.specs.Calls.{Listed};
ghost use Rattle.st_meaning.specs.Selection.{entities_in, selected};
ghost use Rattle.st_plain.specs.Base.{Gives, IsOwn, TellsMet, fault_behind};
ghost use Rattle.st_terms.specs.Checked.{IsChecked, present, touched};
ghost use Rattle.st_terms.specs.Looks.{Looks, Keeps};
ghost use Rattle.st_select.specs.Search.{IsSearchOf, search_of, type_stores};

use crate::answer::as_base;
use crate::{Form, Paged};
use sqlite_items::Items;
use st_known::Known;
use st_listings::list_known;
use st_pages::Pages;
use st_plain::{Base, BaseFault};
use st_query::{Query, Variable};
use st_select::{Engine, Search, filtered_known, prepare};
use st_values::Entities;
use std::alloc::Global;

impl<P: Pages> Paged<P> {
    /// The live entities of a type, descendants included, each with the values in its row.
    fn known_of(&mut self, alloc: Global, ty: u16) -> Result<Items<Known>, BaseFault>
        ensures gives { (w : Array) (s : State) → ⟦<Paged<P> as Base>⟧.agrees self.new w → ⟦<Paged<P> as Base>⟧.stands self.old w s →
            Gives (⟦<Paged<P> as Base>⟧.stands self.new w) s (Listed ty) (AreKnown s (entities_of s ty)) result }
        ensures own { IsOwn (Listed ty) result }
        ensures met { TellsMet (⟦<Paged<P> as Base>⟧.met self.old) (⟦<Paged<P> as Base>⟧.met self.new) (fault_behind result) }
        ensures follows { ⟦<Paged<P> as Base>⟧.follows self.old self.new }
        ensures asks { (w : Array) (s : State) → ⟦<Paged<P> as Base>⟧.agrees self.new w → ⟦<Paged<P> as Base>⟧.stands self.old w s →
            ⟦<Paged<P> as Base>⟧.asks self.old self.new w (record { state = s; call = Listed ty; answered = is_ok result } ∷ []) }
    {
        as_base(list_known::<Form, P>(alloc, &self.schema, &self.places, &mut self.pages, ty))
    }

    /// The same of a type that is known; none where it isn't.
    fn known_in(&mut self, alloc: Global, ty: Option<u16>) -> Result<Items<Known>, BaseFault>
        ensures looks { (w : Array) (s : State) → ⟦<Paged<P> as Base>⟧.agrees self.new w → ⟦<Paged<P> as Base>⟧.stands self.old w s →
            Looks (⟦<Paged<P> as Base>⟧.stands self.new w s) (⟦<Paged<P> as Base>⟧.asks self.old self.new w) (⟦<Paged<P> as Base>⟧.reached self.new w) (AreKnown s (entities_in s ty))
            (type_stores s.schema ty) [] result }
        ensures keeps { Keeps (⟦<Paged<P> as Base>⟧.follows self.old self.new) (⟦<Paged<P> as Base>⟧.met self.old) (⟦<Paged<P> as Base>⟧.met self.new) result }
    {
        match ty {
            Some(ty) => self.known_of(alloc, ty),
            None => Ok(Items::new(alloc)),
        }
    }

    /// The entities that a query selects, in the written order, by a search that was prepared in the schema: those of its type are
    /// listed with the values in their rows, and values that are known so are not read again.
    fn searched(&mut self, alloc: Global, search: &Search) -> Result<Entities, BaseFault>
        requires { IsSearchOf self.old.schema search.now }
        ensures looks { (w : Array) (s : State) → ⟦<Paged<P> as Base>⟧.agrees self.new w → ⟦<Paged<P> as Base>⟧.stands self.old w s →
            (variables : List Variable) (query : Query) → search.now ≡ search_of s.schema variables query → IsChecked (present s variables) (ForEach query) →
            Looks (⟦<Paged<P> as Base>⟧.stands self.new w s) (⟦<Paged<P> as Base>⟧.asks self.old self.new w) (⟦<Paged<P> as Base>⟧.reached self.new w) (λ entities. entities ≡ selected s variables query)
            (touched s.schema variables (ForEach query)) [] result }
        ensures keeps { Keeps (⟦<Paged<P> as Base>⟧.follows self.old self.new) (⟦<Paged<P> as Base>⟧.met self.old) (⟦<Paged<P> as Base>⟧.met self.new) result }
    {
        let known = self.known_in(alloc, search.ty)?;
        filtered_known(self, alloc, search, known.as_slice())
    }
}

impl<P: Pages> Engine for Paged<P> {
    fn select(
        &mut self,
        alloc: Global,
        variables: &[Variable],
        query: &Query,
    ) -> Result<Entities, BaseFault> {
        let search = prepare(alloc, &self.schema, variables, query)?;
        self.searched(alloc, &search)
    }
}
