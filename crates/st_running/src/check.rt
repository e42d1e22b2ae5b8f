//! What is checked before a statement is run.
ghost use Rattle.std.specs.Prelude.{◌≡◌, [], flat_map, Some, None, IfOk};
ghost use Rattle.st_state.specs.declared.refusal.Refusal.{Refusal};
ghost use Rattle.st_plain.specs.Base.{behind};
ghost use Rattle.st_query.specs.Written.{starts_of};
ghost use Rattle.st_query.specs.Footprint.{start_stores};
ghost use Rattle.st_state.specs.State.{State};
ghost use Rattle.st_terms.specs.Looks.{Looks, Keeps};
ghost use Rattle.st_terms.specs.Checked.{present};
ghost use Rattle.st_running.specs.Named.{is_abort, text_refusal, checks};

use crate::live::dead_refused;
use st_lattice::Schema;
use st_plain::{Base, BaseFault, Refusal};
use st_query::{Statement, Variable};
use st_typing::text_refused;
use std::alloc::{AllocError, Global};

fn is_abort(statement: &Statement) -> bool
    ensures { result ≡ is_abort statement.now }
{
    matches!(statement, Statement::Abort)
}

#[tactic(auto, using(crate::proofs::Checks::text_own))]
fn text_refusal(
    alloc: Global,
    schema: &Schema,
    variables: &[Variable],
    statement: &Statement,
) -> Result<Option<Refusal>, AllocError>
    ensures value { IfOk result (λ refused. refused ≡ text_refusal schema.now variables.now statement.now) }
    ensures own { IfOk result (λ refused. (r : Refusal) → refused ≡ Some r → behind r ≡ None) }
{
    if is_abort(statement) {
        return Ok(Some(Refusal::Aborted));
    }
    text_refused(alloc, schema, variables, statement)
}

/// The refusal of a statement by the rules that come before anything is evaluated: 10; 1, 2 and 7; 5.
pub(crate) fn checks_refused<B: Base>(
    base: &mut B,
    alloc: Global,
    schema: &Schema,
    variables: &[Variable],
    statement: &Statement,
) -> Result<Option<Refusal>, BaseFault>
    requires { schema.now ≡ B.schema base.old }
    ensures looks { (w : B.Witness) (s : State) → B.agrees base.new w → B.stands base.old w s →
        Looks (B.stands base.new w s) (B.asks base.old base.new w) (B.reached base.new w) (λ refused. refused ≡ checks (present s variables.now) statement.now)
        (flat_map (start_stores s.schema variables.now) (starts_of statement.now)) [] result }
    ensures own { IfOk result (λ refused. (r : Refusal) → refused ≡ Some r → behind r ≡ None) }
    ensures keeps { Keeps (B.follows base.old base.new) (B.met base.old) (B.met base.new) result }
{
    let refused = text_refusal(alloc, schema, variables, statement)?;
    if refused.is_some() {
        return Ok(refused);
    }
    dead_refused(base, alloc, schema, variables, statement)
}
