//! `delete-entity`.
ghost use Rattle.std.specs.Prelude.{◌≡◌, ⊤};
ghost use Rattle.st_query.specs.declared.statement.Statement.TheVariants.{Delete};
ghost use Rattle.st_state.specs.State.{State};
ghost use Rattle.st_meaning.specs.Statements.{does};
ghost use Rattle.st_meaning.specs.Rules.{refusal};
ghost use Rattle.st_terms.specs.Looks.{Changes, Keeps};
ghost use Rattle.st_terms.specs.Checked.{present, IsChecked, touched};
ghost use Rattle.st_changes.specs.Effects.{delete_call, AdmitsCall, due_by, left_by, stores_of_call};

use crate::rules::not_null;
use st_lattice::Schema;
use st_plain::{Base, BaseFault};
use st_query::{Term, Variable};
use st_terms::term_value;
use st_values::Value;
use std::alloc::Global;

fn delete_value<B: Base>(base: &mut B, alloc: Global, target: &Value) -> Result<(), BaseFault>
    ensures changes { (w : B.Witness) (s : State) → B.agrees base.new w → B.stands base.old w s → AdmitsCall s (delete_call target.now) →
        Changes (due_by s (delete_call target.now)) (B.stands base.new w) (B.asks base.old base.new w) s (left_by s (delete_call target.now)) (λ _. ⊤)
        (stores_of_call s.schema (delete_call target.now)) result }
    ensures keeps { Keeps (B.follows base.old base.new) (B.met base.old) (B.met base.new) result }
{
    match target {
        Value::Entity(entity) => base.delete(alloc, *entity),
        _ => Ok(()),
    }
}

/// `delete-entity`, once it was checked. Refused by rule 11 where the target is null, and by rule 6 where another entity
/// refers to it by an attribute that admits no null.
pub fn delete<B: Base>(
    base: &mut B,
    alloc: Global,
    schema: &Schema,
    variables: &[Variable],
    target: &Term,
) -> Result<(), BaseFault>
    requires { schema.now ≡ B.schema base.old }
    ensures changes { (w : B.Witness) (s : State) → B.agrees base.new w → B.stands base.old w s → IsChecked (present s variables.now) (Delete target.now) →
        Changes (refusal (present s variables.now) (Delete target.now)) (B.stands base.new w) (B.asks base.old base.new w)
        s (does (present s variables.now) (Delete target.now)).state (λ _. ⊤) (touched s.schema variables.now (Delete target.now)) result }
    ensures keeps { Keeps (B.follows base.old base.new) (B.met base.old) (B.met base.new) result }
{
    let entity = term_value(base, alloc, schema, variables, target)?;
    not_null(&entity)?;
    delete_value(base, alloc, &entity)
}
