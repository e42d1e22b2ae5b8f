//! Statements that were checked, one by one.
ghost use Rattle.std.specs.Prelude.{◌≡◌, ℕ, List, [], ◌∷◌, Some, None, IfOk};
ghost use Rattle.st_query.specs.declared.statement.Statement.TheVariants.{Let as LetBe, Print as PrintOf, Set as SetTo, Add as AddTo, Take as TakeFrom, Delete as DeleteOf, Find as FindIn, Make as MakeOf, Ensure as EnsureOf, ForEach};
ghost use Rattle.st_state.specs.State.{State};
ghost use Rattle.st_terms.specs.Looks.{Keeps};
ghost use Rattle.st_terms.specs.Checked.{present, IsChecked};
ghost use Rattle.st_running.specs.Steps.{Steps, IsOutcome};

use crate::Outcome;
use sqlite_items::Items;
use st_changes::{add, delete, set, take};
use st_lattice::Schema;
use st_lines::{for_each, print};
use st_makes::{ensure, find, make};
use st_plain::{Base, BaseFault};
use st_query::{Cell, Query, Term, Variable};
use st_select::Engine;
use st_terms::term_value;
use st_values::{Letters, Value};
use std::alloc::{AllocError, Global};

/// A statement that answers and binds nothing.
fn nothing(alloc: Global) -> Outcome
    ensures { result ≡ record { lines = []; bound = None } }
{
    Outcome {
        lines: Items::new(alloc),
        bound: None,
    }
}

/// A statement that binds its variable.
fn bound(alloc: Global, value: Value) -> Outcome
    ensures { result ≡ record { lines = []; bound = Some value } }
{
    Outcome {
        lines: Items::new(alloc),
        bound: Some(value),
    }
}

/// A statement that answers one line.
fn printed(alloc: Global, line: Letters) -> Result<Outcome, AllocError>
    ensures { IfOk result (λ outcome. outcome ≡ record { lines = line ∷ []; bound = None }) }
{
    let mut lines = Items::new(alloc);
    lines.push(line)?;
    Ok(Outcome { lines, bound: None })
}

pub(crate) fn run_let<B: Base>(
    base: &mut B,
    alloc: Global,
    schema: &Schema,
    variables: &[Variable],
    value: &Term,
) -> Result<Outcome, BaseFault>
    requires { schema.now ≡ B.schema base.old }
    ensures steps { (w : B.Witness) (s : State) → B.agrees base.new w → B.stands base.old w s → (var : List ℕ) → IsChecked (present s variables.now) (LetBe var value.now) →
        Steps (present s variables.now) (LetBe var value.now) (B.stands base.new w) (B.asks base.old base.new w) (B.reached base.new w)
        (IsOutcome (present s variables.now) (LetBe var value.now)) result }
    ensures keeps { Keeps (B.follows base.old base.new) (B.met base.old) (B.met base.new) result }
{
    let value = term_value(base, alloc, schema, variables, value)?;
    Ok(bound(alloc, value))
}

pub(crate) fn run_print<B: Base>(
    base: &mut B,
    alloc: Global,
    schema: &Schema,
    variables: &[Variable],
    terms: &[Term],
) -> Result<Outcome, BaseFault>
    requires { schema.now ≡ B.schema base.old }
    ensures steps { (w : B.Witness) (s : State) → B.agrees base.new w → B.stands base.old w s → IsChecked (present s variables.now) (PrintOf terms.now) →
        Steps (present s variables.now) (PrintOf terms.now) (B.stands base.new w) (B.asks base.old base.new w) (B.reached base.new w)
        (IsOutcome (present s variables.now) (PrintOf terms.now)) result }
    ensures keeps { Keeps (B.follows base.old base.new) (B.met base.old) (B.met base.new) result }
{
    let line = print(base, alloc, schema, variables, terms)?;
    Ok(printed(alloc, line)?)
}

pub(crate) fn run_set<B: Base>(
    base: &mut B,
    alloc: Global,
    schema: &Schema,
    variables: &[Variable],
    attribute: &Letters,
    target: &Term,
    value: &Term,
) -> Result<Outcome, BaseFault>
    requires { schema.now ≡ B.schema base.old }
    ensures steps { (w : B.Witness) (s : State) → B.agrees base.new w → B.stands base.old w s → IsChecked (present s variables.now) (SetTo attribute.now target.now value.now) →
        Steps (present s variables.now) (SetTo attribute.now target.now value.now) (B.stands base.new w) (B.asks base.old base.new w) (B.reached base.new w)
        (IsOutcome (present s variables.now) (SetTo attribute.now target.now value.now)) result }
    ensures keeps { Keeps (B.follows base.old base.new) (B.met base.old) (B.met base.new) result }
{
    set(base, alloc, schema, variables, attribute, target, value)?;
    Ok(nothing(alloc))
}

pub(crate) fn run_add<B: Base>(
    base: &mut B,
    alloc: Global,
    schema: &Schema,
    variables: &[Variable],
    attribute: &Letters,
    target: &Term,
    value: &Term,
) -> Result<Outcome, BaseFault>
    requires { schema.now ≡ B.schema base.old }
    ensures steps { (w : B.Witness) (s : State) → B.agrees base.new w → B.stands base.old w s → IsChecked (present s variables.now) (AddTo attribute.now target.now value.now) →
        Steps (present s variables.now) (AddTo attribute.now target.now value.now) (B.stands base.new w) (B.asks base.old base.new w) (B.reached base.new w)
        (IsOutcome (present s variables.now) (AddTo attribute.now target.now value.now)) result }
    ensures keeps { Keeps (B.follows base.old base.new) (B.met base.old) (B.met base.new) result }
{
    add(base, alloc, schema, variables, attribute, target, value)?;
    Ok(nothing(alloc))
}

pub(crate) fn run_take<B: Base>(
    base: &mut B,
    alloc: Global,
    schema: &Schema,
    variables: &[Variable],
    attribute: &Letters,
    target: &Term,
    value: &Term,
) -> Result<Outcome, BaseFault>
    requires { schema.now ≡ B.schema base.old }
    ensures steps { (w : B.Witness) (s : State) → B.agrees base.new w → B.stands base.old w s → IsChecked (present s variables.now) (TakeFrom attribute.now target.now value.now) →
        Steps (present s variables.now) (TakeFrom attribute.now target.now value.now) (B.stands base.new w) (B.asks base.old base.new w) (B.reached base.new w)
        (IsOutcome (present s variables.now) (TakeFrom attribute.now target.now value.now)) result }
    ensures keeps { Keeps (B.follows base.old base.new) (B.met base.old) (B.met base.new) result }
{
    take(base, alloc, schema, variables, attribute, target, value)?;
    Ok(nothing(alloc))
}

pub(crate) fn run_delete<B: Base>(
    base: &mut B,
    alloc: Global,
    schema: &Schema,
    variables: &[Variable],
    target: &Term,
) -> Result<Outcome, BaseFault>
    requires { schema.now ≡ B.schema base.old }
    ensures steps { (w : B.Witness) (s : State) → B.agrees base.new w → B.stands base.old w s → IsChecked (present s variables.now) (DeleteOf target.now) →
        Steps (present s variables.now) (DeleteOf target.now) (B.stands base.new w) (B.asks base.old base.new w) (B.reached base.new w)
        (IsOutcome (present s variables.now) (DeleteOf target.now)) result }
    ensures keeps { Keeps (B.follows base.old base.new) (B.met base.old) (B.met base.new) result }
{
    delete(base, alloc, schema, variables, target)?;
    Ok(nothing(alloc))
}

pub(crate) fn run_find<B: Base>(
    base: &mut B,
    alloc: Global,
    schema: &Schema,
    variables: &[Variable],
    ty: &[u8],
    key: &[u8],
    value: &Term,
) -> Result<Outcome, BaseFault>
    requires { schema.now ≡ B.schema base.old }
    ensures steps { (w : B.Witness) (s : State) → B.agrees base.new w → B.stands base.old w s → (var : List ℕ) → IsChecked (present s variables.now) (FindIn var ty.now key.now value.now) →
        Steps (present s variables.now) (FindIn var ty.now key.now value.now) (B.stands base.new w) (B.asks base.old base.new w) (B.reached base.new w) (IsOutcome (present s variables.now) (FindIn var ty.now key.now value.now)) result }
    ensures keeps { Keeps (B.follows base.old base.new) (B.met base.old) (B.met base.new) result }
{
    let found = find(base, alloc, schema, variables, ty, key, value)?;
    Ok(bound(alloc, found))
}

pub(crate) fn run_make<B: Base>(
    base: &mut B,
    alloc: Global,
    schema: &Schema,
    variables: &[Variable],
    ty: &[u8],
    cells: &[Cell],
) -> Result<Outcome, BaseFault>
    requires { schema.now ≡ B.schema base.old }
    ensures steps { (w : B.Witness) (s : State) → B.agrees base.new w → B.stands base.old w s → (var : List ℕ) → IsChecked (present s variables.now) (MakeOf var ty.now cells.now) →
        Steps (present s variables.now) (MakeOf var ty.now cells.now) (B.stands base.new w) (B.asks base.old base.new w) (B.reached base.new w) (IsOutcome (present s variables.now) (MakeOf var ty.now cells.now)) result }
    ensures keeps { Keeps (B.follows base.old base.new) (B.met base.old) (B.met base.new) result }
{
    let made = make(base, alloc, schema, variables, ty, cells)?;
    Ok(bound(alloc, Value::Entity(made)))
}

pub(crate) fn run_ensure<B: Base>(
    base: &mut B,
    alloc: Global,
    schema: &Schema,
    variables: &[Variable],
    ty: &[u8],
    cells: &[Cell],
) -> Result<Outcome, BaseFault>
    requires { schema.now ≡ B.schema base.old }
    ensures steps { (w : B.Witness) (s : State) → B.agrees base.new w → B.stands base.old w s → (var : List ℕ) → IsChecked (present s variables.now) (EnsureOf var ty.now cells.now) →
        Steps (present s variables.now) (EnsureOf var ty.now cells.now) (B.stands base.new w) (B.asks base.old base.new w) (B.reached base.new w) (IsOutcome (present s variables.now) (EnsureOf var ty.now cells.now)) result }
    ensures keeps { Keeps (B.follows base.old base.new) (B.met base.old) (B.met base.new) result }
{
    let ensured = ensure(base, alloc, schema, variables, ty, cells)?;
    Ok(bound(alloc, Value::Entity(ensured)))
}

pub(crate) fn run_for_each<E: Engine>(
    engine: &mut E,
    alloc: Global,
    schema: &Schema,
    variables: &[Variable],
    query: &Query,
) -> Result<Outcome, BaseFault>
    requires { schema.now ≡ E.schema engine.old }
    ensures steps { (w : E.Witness) (s : State) → E.agrees engine.new w → E.stands engine.old w s → IsChecked (present s variables.now) (ForEach query.now) →
        Steps (present s variables.now) (ForEach query.now) (E.stands engine.new w) (E.asks engine.old engine.new w) (E.reached engine.new w) (IsOutcome (present s variables.now) (ForEach query.now)) result }
    ensures keeps { Keeps (E.follows engine.old engine.new) (E.met engine.old) (E.met engine.new) result }
{
    let entities = engine.select(alloc, variables, query)?;
    let lines = for_each(engine, alloc, schema, variables, query, entities.as_slice())?;
    Ok(Outcome { lines, bound: None })
}
