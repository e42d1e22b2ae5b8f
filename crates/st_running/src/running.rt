//! A transaction that runs.
ghost use Rattle.std.specs.Prelude.{◌≡◌, ◌++◌, ◌-◌, ◌<◌, ℕ, length, slice_get, Some, IsTrue, OnOk};
ghost use Rattle.std.specs.Option.{option_copied};
ghost use Rattle.st_query.specs.declared.statement.Statement.{Statement};
ghost use Rattle.st_query.specs.Written.{is_written};
ghost use Rattle.st_state.specs.State.{State};
ghost use Rattle.st_state.specs.Legal.{IsLegal};
ghost use Rattle.st_terms.specs.Looks.{Keeps};
ghost use Rattle.st_terms.specs.Checked.{present};
ghost use Rattle.st_running.specs.Ran.{begun, IsOnward};
ghost use Rattle.st_running.specs.Steps.{Steps, bound_by};

use crate::Outcome;
use crate::run::run;
use st_lattice::Schema;
use st_plain::BaseFault;
use st_query::{Statement, Transaction};
use st_select::Engine;
use st_text::Duplicate;
use st_values::{Letters, Lines, Value};
use st_variables::Variables;
use std::alloc::{AllocError, Global};
use std::marker::Model;

/// Binds the variable of a statement to what it gave, if it binds one.
fn bind_outcome(
    alloc: Global,
    variables: &mut Variables,
    statement: &Statement,
    bound: Option<Value>,
) -> Result<(), AllocError>
    ensures ok { OnOk result (variables.new ≡ bound_by statement.now bound variables.old) }
{
    let Some(value) = bound else {
        return Ok(());
    };
    match statement {
        Statement::Make {
            var,
            ty: _,
            cells: _,
        } => variables.bind(alloc, var, value),
        Statement::Find {
            var,
            ty: _,
            key: _,
            value: _,
        } => variables.bind(alloc, var, value),
        Statement::Ensure {
            var,
            ty: _,
            cells: _,
        } => variables.bind(alloc, var, value),
        Statement::Let { var, value: _ } => variables.bind(alloc, var, value),
        _ => Ok(()),
    }
}

fn push_lines(alloc: Global, into: &mut Vec<Letters>, lines: &[Letters]) -> Result<(), AllocError>
    ensures { OnOk result (into.new.items ≡ into.old.items ++ lines.now) }
{
    for line in lines {
        into.push(line.copy(alloc)?)?;
    }
    Ok(())
}

/// A transaction that runs, one statement after the other.
#[derive(Debug, Drop)]
pub struct Running {
    transaction: Transaction,
    ran: usize,
    variables: Variables,
    answers: Vec<Letters>,
}

impl Model for Running {
    ghost use Rattle.std.specs.Prelude.{◌≤◌, length};
    ghost use Rattle.std.specs.Coded.{codes};
    ghost use Rattle.st_query.specs.contracts.term.Term as term;
    ghost use Rattle.st_running.specs.Ran.{Ran};

    ghost Value = { Ran };

    ghost coded = { Prim.hlevel (codes, term.the_row.coded) };

    ghost view = { λ it. record { statements = it.transaction.statements; ran = it.ran; variables = it.variables; answers = it.answers.items } };

    ghost invariant = { λ it. it.ran ≤ length it.transaction.statements };
}

impl Running {
    /// A transaction before its first statement. It takes no memory.
    pub fn begin(alloc: Global, transaction: Transaction) -> Running
        ensures { result ≡ begun transaction.statements }
    {
        Running {
            transaction,
            ran: 0,
            variables: Variables::new(alloc),
            answers: Vec::new(alloc),
        }
    }

    /// How many statements are left.
    pub fn left(&self) -> usize
        ensures { result ≡ length self.now.statements - self.now.ran }
    {
        self.transaction.statements.len() - self.ran
    }

    /// The next statement; none where none is left.
    pub fn next_statement(&self) -> Option<&Statement>
        ensures { option_copied result ≡ slice_get self.now.statements self.now.ran }
    {
        self.transaction.statements.get(self.ran)
    }

    /// The variables that were bound so far.
    pub fn variables(&self) -> &Variables
        ensures { result.now ≡ self.now.variables }
    {
        &self.variables
    }

    /// What the statements answered so far.
    pub fn answers(&self) -> &[Letters]
        ensures { result.now ≡ self.now.answers }
    {
        self.answers.as_slice()
    }

    /// Sets the transaction back to its first statement. It takes no memory.
    pub fn again(&mut self)
        ensures { self.new ≡ begun self.old.statements }
    {
        self.ran = 0;
        self.variables.clear();
        self.answers.clear();
    }

    /// Runs the next statement, over an engine with this schema: its lines, without the turn and the transaction. After a
    /// fault the transaction can only be set back or given up.
    pub fn step<E: Engine>(
        &mut self,
        alloc: Global,
        schema: &Schema,
        engine: &mut E,
    ) -> Result<Lines, BaseFault>
        requires left { self.old.ran < length self.old.statements }
        requires schema { schema.now ≡ E.schema engine.old }
        ensures steps { (w : E.Witness) (s : State) → E.agrees engine.new w → E.stands engine.old w s → IsLegal s →
            (statement : Statement) → slice_get self.old.statements self.old.ran ≡ Some statement → IsTrue (is_written statement) →
            Steps (present s self.old.variables) statement (E.stands engine.new w) (E.asks engine.old engine.new w) (E.reached engine.new w)
            (IsOnward (present s self.old.variables) statement self.old self.new) result }
        ensures statements { self.new.statements ≡ self.old.statements }
        ensures keeps { Keeps (E.follows engine.old engine.new) (E.met engine.old) (E.met engine.new) result }
    {
        let statement = &self.transaction.statements.as_slice()[self.ran];
        let outcome = run(engine, alloc, schema, self.variables.as_slice(), statement)?;
        let Outcome { lines, bound } = outcome;
        bind_outcome(alloc, &mut self.variables, statement, bound)?;
        push_lines(alloc, &mut self.answers, lines.as_slice())?;
        self.ran += 1;
        Ok(lines)
    }
}
