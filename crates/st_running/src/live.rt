//! Entities that are not live.
ghost use Rattle.std.specs.Prelude.{◌≡◌, [], ◌∷◌, not, find, flat_map, Some, None, IfOk};
ghost use Rattle.st_lattice.specs.declared.stores.StoreKind.TheVariants.{Extent};
ghost use Rattle.st_lattice.specs.Stores.{store};
ghost use Rattle.st_state.specs.State.{State, is_live};
ghost use Rattle.st_meaning.specs.Rules.{rule_5};
ghost use Rattle.st_state.specs.declared.refusal.Refusal.{Refusal};
ghost use Rattle.st_plain.specs.Base.{behind};
ghost use Rattle.st_terms.specs.Looks.{Looks, Keeps};
ghost use Rattle.st_terms.specs.Checked.{present};
ghost use Rattle.st_running.specs.Named.{extents_of, dead_refusal};
ghost use Rattle.st_query.specs.Written.{starts_of};
ghost use Rattle.st_query.specs.Footprint.{start_stores};

use crate::named::statement_names;
use st_lattice::Schema;
use st_plain::{Base, BaseFault, Refusal};
use st_query::{Statement, Variable};
use st_values::EntityId;
use std::alloc::Global;

fn is_live<B: Base>(base: &mut B, alloc: Global, entity: &EntityId) -> Result<bool, BaseFault>
    ensures looks { (w : B.Witness) (s : State) → B.agrees base.new w → B.stands base.old w s →
        Looks (B.stands base.new w s) (B.asks base.old base.new w) (B.reached base.new w) (λ live. live ≡ is_live s entity.now) (store Extent entity.now.ty ∷ []) [] result }
    ensures keeps { Keeps (B.follows base.old base.new) (B.met base.old) (B.met base.new) result }
{
    base.live(alloc, *entity)
}

/// The first of some entities that is not live.
fn first_dead<B: Base>(
    base: &mut B,
    alloc: Global,
    entities: &[EntityId],
) -> Result<Option<EntityId>, BaseFault>
    ensures looks { (w : B.Witness) (s : State) → B.agrees base.new w → B.stands base.old w s →
        Looks (B.stands base.new w s) (B.asks base.old base.new w) (B.reached base.new w) (λ dead. dead ≡ find (λ e. not (is_live s e)) entities.now) (extents_of entities.now) [] result }
    ensures keeps { Keeps (B.follows base.old base.new) (B.met base.old) (B.met base.new) result }
{
    for entity in entities {
        if !is_live(base, alloc, entity)? {
            return Ok(Some(*entity));
        }
    }
    Ok(None)
}

#[tactic(auto, using(crate::proofs::Checks::dead_own))]
fn dead_refusal(dead: Option<EntityId>) -> Option<Refusal>
    ensures value { result ≡ dead_refusal dead }
    ensures own { (r : Refusal) → result ≡ Some r → behind r ≡ None }
{
    match dead {
        Some(entity) => Some(Refusal::NoSuchEntity { entity }),
        None => None,
    }
}

/// Rule 5: a literal or a variable of a statement is an entity that is not live; the first in text order.
pub(crate) fn dead_refused<B: Base>(
    base: &mut B,
    alloc: Global,
    schema: &Schema,
    variables: &[Variable],
    statement: &Statement,
) -> Result<Option<Refusal>, BaseFault>
    requires { schema.now ≡ B.schema base.old }
    ensures looks { (w : B.Witness) (s : State) → B.agrees base.new w → B.stands base.old w s →
        Looks (B.stands base.new w s) (B.asks base.old base.new w) (B.reached base.new w) (λ refused. refused ≡ rule_5 (present s variables.now) statement.now)
        (flat_map (start_stores s.schema variables.now) (starts_of statement.now)) [] result }
    ensures own { IfOk result (λ refused. (r : Refusal) → refused ≡ Some r → behind r ≡ None) }
    ensures keeps { Keeps (B.follows base.old base.new) (B.met base.old) (B.met base.new) result }
{
    let entities = statement_names(alloc, schema, variables, statement)?;
    let dead = first_dead(base, alloc, entities.as_slice())?;
    Ok(dead_refusal(dead))
}
