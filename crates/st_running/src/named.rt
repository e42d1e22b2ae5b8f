//! The entities that the literals and variables of a statement stand for.
ghost use Rattle.std.specs.Prelude.{◌≡◌, [], ◌∷◌, ◌++◌, map, flat_map, Some, None, OnOk, IfOk};
ghost use Rattle.std.specs.Option.{option_copied};
ghost use Rattle.st_query.specs.Ways.{way};
ghost use Rattle.st_query.specs.Written.{condition_terms, query_terms, begins_with};
ghost use Rattle.st_meaning.specs.Rules.{entity_in};
ghost use Rattle.st_query.specs.Terms.{entity_value, literal_value, variable_named, variable_value};
ghost use Rattle.st_running.specs.Named.{start_entity, is_hidden, term_names, terms_name, statement_names};

use st_lattice::Schema;
use st_query::{Cell, Condition, Key, Literal, Query, Statement, Term, Variable};
use st_values::{EntityId, Value};
use std::alloc::{AllocError, Global};

fn entity_in(value: &Value) -> Option<EntityId>
    ensures { result ≡ entity_in value.now }
{
    match value {
        Value::Entity(entity) => Some(*entity),
        _ => None,
    }
}

fn variable_named<'a>(variables: &'a [Variable], name: &[u8]) -> Option<&'a Variable>
    ensures { option_copied result ≡ variable_named variables.now name.now }
{
    variables
        .iter()
        .find(|variable| variable.name.as_slice() == name)
}

/// The entity that a variable stands for, if it stands for one.
fn bound_entity(variables: &[Variable], name: &[u8]) -> Option<EntityId>
    ensures { result ≡ entity_in (variable_value variables.now name.now) }
{
    match variable_named(variables, name) {
        Some(variable) => entity_in(&variable.value),
        None => None,
    }
}

fn entity_of(ty: Option<u16>, serial: u32) -> Option<EntityId>
    ensures { result ≡ entity_in (entity_value ty serial) }
{
    match ty {
        Some(ty) => Some(EntityId { ty, serial }),
        None => None,
    }
}

/// The entity that a literal stands for, if it stands for one.
fn literal_entity(schema: &Schema, literal: &Literal) -> Option<EntityId>
    ensures { result ≡ entity_in (literal_value schema.now literal.now) }
{
    match literal {
        Literal::Entity(ty, serial) => entity_of(schema.type_named(ty.as_slice()), *serial),
        Literal::Null | Literal::Int(_) | Literal::Bool(_) | Literal::Text(_) => None,
    }
}

/// The entity that a term begins with, if it begins with one.
#[tactic(auto, using(crate::proofs::Starts::start_of_literal, crate::proofs::Starts::start_of_variable, crate::proofs::Starts::start_of_path))]
fn start_entity(schema: &Schema, variables: &[Variable], term: &Term) -> Option<EntityId>
    ensures { result ≡ start_entity schema.now variables.now (way term.now).start }
{
    match term {
        Term::Literal(literal) => literal_entity(schema, literal),
        Term::Variable(name) => bound_entity(variables, name.as_slice()),
        Term::Path(_, inner) => start_entity(schema, variables, inner.get()),
    }
}

/// Whether a term begins with a variable of a name.
#[tactic(auto, using(crate::proofs::Starts::start_of_literal, crate::proofs::Starts::start_of_variable, crate::proofs::Starts::start_of_path))]
fn begins_with(name: &[u8], term: &Term) -> bool
    ensures { result ≡ begins_with name.now (way term.now).start }
{
    match term {
        Term::Literal(_) => false,
        Term::Variable(other) => other.as_slice() == name,
        Term::Path(_, inner) => begins_with(name, inner.get()),
    }
}

fn is_hidden(subject: Option<&[u8]>, term: &Term) -> bool
    ensures { result ≡ is_hidden (option_copied subject.entry) (way term.now).start }
{
    match subject {
        Some(name) => begins_with(name, term),
        None => false,
    }
}

fn push_term(
    into: &mut Vec<EntityId>,
    schema: &Schema,
    variables: &[Variable],
    subject: Option<&[u8]>,
    term: &Term,
) -> Result<(), AllocError>
    ensures { OnOk result (into.new.items ≡ into.old.items ++ term_names schema.now variables.now (option_copied subject.entry) term.now) }
{
    if is_hidden(subject, term) {
        return Ok(());
    }
    if let Some(entity) = start_entity(schema, variables, term) {
        into.push(entity)?;
    }
    Ok(())
}

fn push_two(
    into: &mut Vec<EntityId>,
    schema: &Schema,
    variables: &[Variable],
    subject: Option<&[u8]>,
    first: &Term,
    second: &Term,
) -> Result<(), AllocError>
    ensures { OnOk result (into.new.items ≡ into.old.items ++ terms_name schema.now variables.now (option_copied subject.entry) (first.now ∷ second.now ∷ [])) }
{
    push_term(into, schema, variables, subject, first)?;
    push_term(into, schema, variables, subject, second)
}

fn push_terms(
    into: &mut Vec<EntityId>,
    schema: &Schema,
    variables: &[Variable],
    subject: Option<&[u8]>,
    terms: &[Term],
) -> Result<(), AllocError>
    ensures { OnOk result (into.new.items ≡ into.old.items ++ terms_name schema.now variables.now (option_copied subject.entry) terms.now) }
{
    for term in terms {
        push_term(into, schema, variables, subject, term)?;
    }
    Ok(())
}

fn push_cells(
    into: &mut Vec<EntityId>,
    schema: &Schema,
    variables: &[Variable],
    cells: &[Cell],
) -> Result<(), AllocError>
    ensures { OnOk result (into.new.items ≡ into.old.items ++ terms_name schema.now variables.now None (map (λ cell. cell.value) cells.now)) }
{
    for cell in cells {
        push_term(into, schema, variables, None, &cell.value)?;
    }
    Ok(())
}

fn push_condition(
    into: &mut Vec<EntityId>,
    schema: &Schema,
    variables: &[Variable],
    subject: Option<&[u8]>,
    condition: &Condition,
) -> Result<(), AllocError>
    ensures { OnOk result (into.new.items ≡ into.old.items ++ terms_name schema.now variables.now (option_copied subject.entry) (condition_terms condition.now)) }
{
    match condition {
        Condition::Compare {
            sign: _,
            left,
            right,
        } => push_two(into, schema, variables, subject, left, right),
        Condition::Null(term) => push_term(into, schema, variables, subject, term),
        Condition::NotNull(term) => push_term(into, schema, variables, subject, term),
        Condition::Member { value, set } => {
            push_two(into, schema, variables, subject, value, set)
        }
    }
}

fn push_conditions(
    into: &mut Vec<EntityId>,
    schema: &Schema,
    variables: &[Variable],
    subject: Option<&[u8]>,
    conditions: &[Condition],
) -> Result<(), AllocError>
    ensures { OnOk result (into.new.items ≡ into.old.items ++ terms_name schema.now variables.now (option_copied subject.entry) (flat_map condition_terms conditions.now)) }
{
    for condition in conditions {
        push_condition(into, schema, variables, subject, condition)?;
    }
    Ok(())
}

fn push_keys(
    into: &mut Vec<EntityId>,
    schema: &Schema,
    variables: &[Variable],
    subject: Option<&[u8]>,
    keys: &[Key],
) -> Result<(), AllocError>
    ensures { OnOk result (into.new.items ≡ into.old.items ++ terms_name schema.now variables.now (option_copied subject.entry) (map (λ key. key.term) keys.now)) }
{
    for key in keys {
        push_term(into, schema, variables, subject, &key.term)?;
    }
    Ok(())
}

fn push_query(
    into: &mut Vec<EntityId>,
    schema: &Schema,
    variables: &[Variable],
    query: &Query,
) -> Result<(), AllocError>
    ensures { OnOk result (into.new.items ≡ into.old.items ++ terms_name schema.now variables.now (Some query.now.var) (query_terms query.now)) }
{
    let subject = Some(query.var.as_slice());
    push_conditions(
        into,
        schema,
        variables,
        subject,
        query.conditions.as_slice(),
    )?;
    push_keys(into, schema, variables, subject, query.keys.as_slice())?;
    push_terms(into, schema, variables, subject, query.shown.as_slice())
}

fn push_statement(
    into: &mut Vec<EntityId>,
    schema: &Schema,
    variables: &[Variable],
    statement: &Statement,
) -> Result<(), AllocError>
    ensures { OnOk result (into.new.items ≡ into.old.items ++ statement_names schema.now variables.now statement.now) }
{
    match statement {
        Statement::Make {
            var: _,
            ty: _,
            cells,
        } => { push_cells(into, schema, variables, cells.as_slice()) }
        Statement::Set {
            attribute: _,
            target,
            value,
        } => push_two(into, schema, variables, None, target, value),
        Statement::Add {
            attribute: _,
            target,
            value,
        } => push_two(into, schema, variables, None, target, value),
        Statement::Take {
            attribute: _,
            target,
            value,
        } => push_two(into, schema, variables, None, target, value),
        Statement::Delete { target } => push_term(into, schema, variables, None, target),
        Statement::Find {
            var: _,
            ty: _,
            key: _,
            value,
        } => push_term(into, schema, variables, None, value),
        Statement::Ensure {
            var: _,
            ty: _,
            cells,
        } => { push_cells(into, schema, variables, cells.as_slice()) }
        Statement::Let { var: _, value } => push_term(into, schema, variables, None, value),
        Statement::Print { terms } => push_terms(into, schema, variables, None, terms.as_slice()),
        Statement::ForEach { query } => push_query(into, schema, variables, query),
        Statement::Abort => Ok(()),
    }
}

/// The entities that the literals and variables of a statement stand for, in text order, without those of a query's own
/// variable. `AllocError` where there is no memory.
pub(crate) fn statement_names(
    alloc: Global,
    schema: &Schema,
    variables: &[Variable],
    statement: &Statement,
) -> Result<Vec<EntityId>, AllocError>
    ensures { IfOk result (λ entities. entities.items ≡ statement_names schema.now variables.now statement.now) }
{
    let mut entities = Vec::new(alloc);
    push_statement(&mut entities, schema, variables, statement)?;
    Ok(entities)
}
