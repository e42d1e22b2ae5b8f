//! What is noted of the literals and variables that terms begin with.
ghost use Rattle.std.specs.Prelude.{◌≡◌, [], if◌then◌else◌, flat_map, OnOk};
ghost use Rattle.std.specs.Option.{option_copied};
ghost use Rattle.st_query.specs.Terms.{variable_named, variable_value, bound_to, literal_value};
ghost use Rattle.st_query.specs.Ways.{way};
ghost use Rattle.st_query.specs.Footprint.{extent_of};
ghost use Rattle.st_footprint.specs.Noted.{noted};
ghost use Rattle.st_footprint.specs.Parts.{hidden_by, is_named, seen_stores};
ghost use Rattle.st_footprint.specs.Terms.{targets};

use crate::Footprint;
use st_lattice::{Schema, StoreKind, store};
use st_query::{Literal, Statement, Term, Variable, literal_value};
use st_values::{Letters, Value};
use std::alloc::{AllocError, Global};

/// The variable with a name. Its value is looked at and not copied, since texts may be long.
pub(crate) fn variable_named<'a>(variables: &'a [Variable], name: &[u8]) -> Option<&'a Variable>
    ensures { option_copied result ≡ variable_named variables.now name.now }
{
    variables
        .iter()
        .find(|variable| variable.name.as_slice() == name)
}

/// Notes the extent of an entity.
fn note_extent(value: &Value, into: &mut Footprint) -> Result<(), AllocError>
    ensures { OnOk result (into.new ≡ noted (extent_of value.now) into.old) }
{
    match value {
        Value::Entity(entity) => into.note(store(StoreKind::Extent, entity.ty)),
        Value::Null | Value::Int(_) | Value::Bool(_) | Value::Text(_) => Ok(()),
    }
}

fn note_literal(
    alloc: Global,
    schema: &Schema,
    literal: &Literal,
    into: &mut Footprint,
) -> Result<(), AllocError>
    ensures { OnOk result (into.new ≡ noted (extent_of (literal_value schema.now literal.now)) into.old) }
{
    let value = literal_value(alloc, schema, literal)?;
    note_extent(&value, into)
}

fn note_bound(variable: Option<&Variable>, into: &mut Footprint) -> Result<(), AllocError>
    ensures { OnOk result (into.new ≡ noted (extent_of (bound_to (option_copied variable.entry))) into.old) }
{
    match variable {
        Some(variable) => note_extent(&variable.value, into),
        None => Ok(()),
    }
}

/// The variable of a query, which is none of the transaction's.
pub(crate) fn hidden_by(statement: &Statement) -> Option<&Letters>
    ensures { option_copied result ≡ hidden_by statement.now }
{
    match statement {
        Statement::ForEach { query } => Some(&query.var),
        _ => None,
    }
}

fn is_named(hidden: Option<&Letters>, name: &[u8]) -> bool
    ensures { result ≡ is_named (option_copied hidden.entry) name.now }
{
    match hidden {
        Some(hidden) => name == hidden.as_slice(),
        None => false,
    }
}

fn note_variable(
    variables: &[Variable],
    hidden: Option<&Letters>,
    name: &[u8],
    into: &mut Footprint,
) -> Result<(), AllocError>
    ensures { OnOk result (into.new ≡ noted (if is_named (option_copied hidden.entry) name.now then [] else extent_of (variable_value variables.now name.now)) into.old) }
{
    if is_named(hidden, name) {
        return Ok(());
    }
    note_bound(variable_named(variables, name), into)
}

/// Notes the extent of the entity that a term begins with, where that is not the variable of a query.
fn note_start(
    alloc: Global,
    schema: &Schema,
    variables: &[Variable],
    hidden: Option<&Letters>,
    term: &Term,
    into: &mut Footprint,
) -> Result<(), AllocError>
    ensures { OnOk result (into.new ≡ noted (seen_stores schema.now variables.now (option_copied hidden.entry) (way term.now).start) into.old) }
{
    match term {
        Term::Literal(written) => note_literal(alloc, schema, written, into),
        Term::Variable(name) => note_variable(variables, hidden, name.as_slice(), into),
        Term::Path(_, inner) => note_start(alloc, schema, variables, hidden, inner.get(), into),
    }
}

/// Notes the extents of the entities that terms begin with, where that is not the variable of a query.
pub(crate) fn note_starts(
    alloc: Global,
    schema: &Schema,
    variables: &[Variable],
    hidden: Option<&Letters>,
    terms: &[&Term],
    into: &mut Footprint,
) -> Result<(), AllocError>
    ensures { OnOk result (into.new ≡ noted (flat_map (λ term. seen_stores schema.now variables.now (option_copied hidden.entry) (way term).start) (targets terms.now)) into.old) }
{
    for term in terms {
        note_start(alloc, schema, variables, hidden, term, into)?;
    }
    Ok(())
}
