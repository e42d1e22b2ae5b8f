//! A base that selects entities.
ghost use Rattle.std.specs.Prelude.{◌≡◌, [], List, map};
ghost use Rattle.st_query.specs.declared.query.Query.{Query};
ghost use Rattle.st_query.specs.declared.term.Variable.{Variable};
ghost use Rattle.st_query.specs.declared.statement.Statement.TheVariants.{ForEach};
ghost use Rattle.st_state.specs.State.{State};
ghost use Rattle.st_known.specs.Known.{AreKnown};
ghost use Rattle.st_meaning.specs.Selection.{entities_in, selected};
ghost use Rattle.st_terms.specs.Checked.{IsChecked, present, touched};
ghost use Rattle.st_terms.specs.Looks.{Looks, Keeps};
ghost use Rattle.st_select.specs.Search.{IsSearchOf, AdmitsSearch, search_of, search_matches, search_stores};
ghost use Rattle.st_select.specs.Ranking.{ranked, IsInOrder};

use crate::matching::{entities_in, unknown};
use crate::ranking::{in_order, rank_matching};
use crate::{Search, prepare};
use st_known::Known;
use st_plain::{Base, BaseFault, Plain};
use st_query::{Query, Variable};
use st_values::Entities;
use std::alloc::Global;

/// A base that selects entities.
pub trait Engine: Base {
    /// The entities that a query selects, in the written order.
    fn select(
        &mut self,
        alloc: Global,
        variables: &[Variable],
        query: &Query,
    ) -> Result<Entities, BaseFault>
        ensures looks { (w : Self.Witness) (s : State) → Self.agrees self.new w → Self.stands self.old w s → IsChecked (present s variables.now) (ForEach query.now) →
            Looks (Self.stands self.new w s) (Self.asks self.old self.new w) (Self.reached self.new w) (λ entities. entities ≡ selected s variables.now query.now)
            (touched s.schema variables.now (ForEach query.now)) [] result }
        ensures keeps { Keeps (Self.follows self.old self.new) (Self.met self.old) (Self.met self.new) result };
}

/// The entities that a search finds, put in order, where those of its type are at hand.
fn found_in_order<B: Base>(
    base: &mut B,
    alloc: Global,
    search: &Search,
    known: &[Known],
) -> Result<Entities, BaseFault>
    requires { IsSearchOf (B.schema base.old) search.now }
    ensures looks { (w : B.Witness) (s : State) → B.agrees base.new w → B.stands base.old w s → AreKnown s (entities_in s search.now.ty) known.now → AdmitsSearch s search.now →
        Looks (B.stands base.new w s) (B.asks base.old base.new w) (B.reached base.new w) (IsInOrder search.now.keys (map (ranked s search.now.keys) (search_matches s search.now)))
        (search_stores s.schema search.now) [] result }
    ensures keeps { Keeps (B.follows base.old base.new) (B.met base.old) (B.met base.new) result }
{
    let keys = search.keys.as_slice();
    let ranked = rank_matching(base, alloc, search.tests.as_slice(), keys, known)?;
    Ok(in_order(alloc, ranked, keys)?)
}

/// The entities that a query selects, in the written order, by a search that was prepared in the base's schema, where the
/// entities of the type are at hand, with values of theirs. Each is looked at, and each of its conditions asked in turn, up to
/// the first that is false; where that is none, the values of the order keys are found, once. A value that is known is not
/// read again where a term begins with it.
pub fn filtered_known<B: Base>(
    base: &mut B,
    alloc: Global,
    search: &Search,
    known: &[Known],
) -> Result<Entities, BaseFault>
    requires { IsSearchOf (B.schema base.old) search.now }
    ensures looks { (w : B.Witness) (s : State) → B.agrees base.new w → B.stands base.old w s →
        (variables : List Variable) (query : Query) → search.now ≡ search_of s.schema variables query → IsChecked (present s variables) (ForEach query) → AreKnown s (entities_in s search.now.ty) known.now →
        Looks (B.stands base.new w s) (B.asks base.old base.new w) (B.reached base.new w) (λ entities. entities ≡ selected s variables query)
        (touched s.schema variables (ForEach query)) [] result }
    ensures keeps { Keeps (B.follows base.old base.new) (B.met base.old) (B.met base.new) result }
{
    found_in_order(base, alloc, search, known)
}

/// The same where nothing is at hand: the base is asked for the entities of the type, and for each value.
pub fn filtered<B: Base>(
    base: &mut B,
    alloc: Global,
    search: &Search,
) -> Result<Entities, BaseFault>
    requires { IsSearchOf (B.schema base.old) search.now }
    ensures looks { (w : B.Witness) (s : State) → B.agrees base.new w → B.stands base.old w s →
        (variables : List Variable) (query : Query) → search.now ≡ search_of s.schema variables query → IsChecked (present s variables) (ForEach query) →
        Looks (B.stands base.new w s) (B.asks base.old base.new w) (B.reached base.new w) (λ entities. entities ≡ selected s variables query)
        (touched s.schema variables (ForEach query)) [] result }
    ensures keeps { Keeps (B.follows base.old base.new) (B.met base.old) (B.met base.new) result }
{
    let entities = entities_in(base, alloc, search.ty)?;
    let known = unknown(alloc, entities.as_slice())?;
    filtered_known(base, alloc, search, known.as_slice())
}

impl Engine for Plain {
    fn select(
        &mut self,
        alloc: Global,
        variables: &[Variable],
        query: &Query,
    ) -> Result<Entities, BaseFault> {
        let search = prepare(alloc, self.schema(), variables, query)?;
        filtered(self, alloc, &search)
    }
}
