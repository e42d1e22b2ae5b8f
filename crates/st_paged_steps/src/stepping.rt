//! A statement that is run over a database in pages.
ghost use Rattle.std.specs.Prelude.{◌≡◌, ◌<◌, length, slice_get, Some, IsTrue};
ghost use Rattle.std.specs.Option.{ForSome};
ghost use Rattle.st_pages.specs.Attempt.{Agrees, Array};
ghost use Rattle.st_pages.specs.Calls.{IsStopped};
ghost use Rattle.st_query.specs.declared.statement.Statement.{Statement};
ghost use Rattle.st_query.specs.Written.{is_written};
ghost use Rattle.st_state.specs.State.{State};
ghost use Rattle.st_state.specs.Legal.{IsLegal};
ghost use Rattle.st_edits.specs.Edits.{met_of};
ghost use Rattle.st_plain.specs.Base.{fault_behind};
ghost use Rattle.st_terms.specs.Looks.{Keeps};
ghost use Rattle.st_terms.specs.Checked.{present};
ghost use Rattle.st_running.specs.Ran.{IsOnward};
ghost use Rattle.st_paged.specs.Paged.{Continues, StandsIn};
ghost use Rattle.st_paged_steps.specs.InPages.{StepsInPages};

use st_lattice::Schema;
use st_meaning::laws_of_states;
use st_paged::{Form, Paged};
use st_pages::Pages;
use st_plain::BaseFault;
use st_running::{Running, laws_of_footprints};
use st_store::Store;
use st_values::Lines;
use std::alloc::Global;

/// Runs the next statement of a transaction over a database in pages with this schema: its lines, without the turn and the
/// transaction. After a fault the transaction can only be set back or given up. It is `Running::step` over `Paged`, and its
/// clauses say of pages what was asked for.
///
/// # Errors
/// What the step answers: the refusal that is due, the refusals 12 and 13 where pages refuse, another fault of pages, `Memory`.
pub fn step<P: Pages>(
    running: &mut Running,
    alloc: Global,
    schema: &Schema,
    base: &mut Paged<P>,
) -> Result<Lines, BaseFault>
    requires left { running.old.ran < length running.old.statements }
    requires schema { schema.now ≡ base.old.schema }
    ensures steps { (array : Array) (s : State) → Agrees (P.attempt base.new.pages) array → StandsIn P.attempt ⟦<Form as Store>⟧.holds base.old array s → IsLegal s →
        (statement : Statement) → slice_get running.old.statements running.old.ran ≡ Some statement → IsTrue (is_written statement) →
        StepsInPages P.attempt P.asked P.follows ⟦<Form as Store>⟧.holds ⟦<Form as Store>⟧.spot P.room base.old base.new array (present s running.old.variables) statement
        (IsOnward (present s running.old.variables) statement running.old running.new) result }
    ensures stopped { ForSome (fault_behind result) (IsStopped (P.attempt base.new.pages) (P.room base.new.pages)) }
    ensures statements { running.new.statements ≡ running.old.statements }
    ensures keeps { Keeps (Continues P.attempt P.follows base.old base.new) (met_of (P.met base.old.pages)) (met_of (P.met base.new.pages)) result }
{
    laws_of_footprints();
    laws_of_states();
    running.step(alloc, schema, base)
}
