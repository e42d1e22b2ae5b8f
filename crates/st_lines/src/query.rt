//! What a for-each answers.
ghost use Rattle.std.specs.Prelude.{◌≡◌, [], Some, true};
ghost use Rattle.st_values.specs.declared.value.EntityId.{EntityId};
ghost use Rattle.st_query.specs.declared.statement.Statement.TheVariants.{ForEach};
ghost use Rattle.st_state.specs.State.{State};
ghost use Rattle.st_meaning.specs.Statements.{query_tails};
ghost use Rattle.st_terms.specs.Looks.{Looks, Keeps};
ghost use Rattle.st_terms.specs.Checked.{present, IsChecked, touched};
ghost use Rattle.st_lines.specs.Shown.{AreOf};

use crate::lines::{query_tails, shown_routes};
use st_lattice::Schema;
use st_plain::{Base, BaseFault};
use st_query::{Query, Variable};
use st_values::{EntityId, Lines};
use std::alloc::Global;

/// What the lines of a for-each say that was checked, for entities of its type: one for each, and how many there were. What
/// is shown is looked up once for all of them.
pub fn for_each<B: Base>(
    base: &mut B,
    alloc: Global,
    schema: &Schema,
    variables: &[Variable],
    query: &Query,
    entities: &[EntityId],
) -> Result<Lines, BaseFault>
    requires { schema.now ≡ B.schema base.old }
    ensures looks { (w : B.Witness) (s : State) → B.agrees base.new w → B.stands base.old w s → IsChecked (present s variables.now) (ForEach query.now) → AreOf s query.now entities.now →
        Looks (B.stands base.new w s) (B.asks base.old base.new w) (B.reached base.new w) (λ lines. lines ≡ query_tails (present s variables.now) query.now entities.now)
        (touched s.schema variables.now (ForEach query.now)) [] result }
    ensures keeps { Keeps (B.follows base.old base.new) (B.met base.old) (B.met base.new) result }
{
    let shown = shown_routes(
        alloc,
        schema,
        variables,
        query.var.as_slice(),
        query.shown.as_slice(),
    )?;
    query_tails(base, alloc, schema.type_names(), shown.as_slice(), entities)
}
