ghost use Rattle.std.specs.Prelude.{◌≡◌, All, IfOk};
ghost use Rattle.std.specs.Option.{option_copied};
ghost use Rattle.st_lattice.specs.Called.{called, called_copied};
ghost use Rattle.st_query.specs.Ways.{way};
ghost use Rattle.st_terms.specs.Routes.{reading_of, is_subject, origin_named, route_of, IsReadingOf, origin_value};

use sqlite_items::Items;
use st_lattice::{Attribute, Called, Schema};
use st_query::{Literal, Term, Variable, literal_value, variable_value};
use st_text::Duplicate;
use st_values::{EntityId, Value};
use std::alloc::{AllocError, Global};

/// How a feature is read, whose attribute is given by number.
#[derive(Clone, Copy, Debug)]
pub enum Reading {
    /// There is no such feature.
    Nothing,
    /// The value of a single-valued attribute.
    Value(u16),
    /// The set of an attribute.
    Members(u16),
    /// The entities whose attribute refers to an entity.
    Inverse(u16),
}

/// What a term begins with.
#[derive(Debug, Drop)]
pub enum Origin {
    /// This value.
    Fixed(Value),
    /// The entity that a query looks at.
    Subject,
}

/// A term that was looked up in a schema and in variables.
#[derive(Debug, Drop)]
pub struct Route {
    /// What it begins with.
    pub origin: Origin,
    /// How its features are read from there on, the first one first.
    pub readings: Items<Reading>,
}

fn reading_of(called: Called<&Attribute>) -> Reading
    ensures { result ≡ reading_of (called_copied called.entry) }
{
    match called {
        Called::Nothing => Reading::Nothing,
        Called::Own(attribute) => {
            if attribute.many {
                Reading::Members(attribute.number)
            } else {
                Reading::Value(attribute.number)
            }
        }
        Called::Inverse(attribute) => Reading::Inverse(attribute.number),
    }
}

/// How the feature with a qualified name is read.
#[tactic(auto, using(crate::proofs::Routes::reading_there))]
fn reading_named(schema: &Schema, name: &[u8]) -> Reading
    ensures value { result ≡ reading_of (called schema.now name.now) }
    ensures there { IsReadingOf schema.now result }
{
    reading_of(schema.called(name))
}

fn is_subject(subject: Option<&[u8]>, name: &[u8]) -> bool
    ensures { result ≡ is_subject (option_copied subject.entry) name.now }
{
    match subject {
        Some(subject) => subject == name,
        None => false,
    }
}

fn origin_named(
    alloc: Global,
    variables: &[Variable],
    subject: Option<&[u8]>,
    name: &[u8],
) -> Result<Origin, AllocError>
    ensures { IfOk result (λ origin. origin ≡ origin_named variables.now (option_copied subject.entry) name.now) }
{
    if is_subject(subject, name) {
        Ok(Origin::Subject)
    } else {
        Ok(Origin::Fixed(variable_value(alloc, variables, name)?))
    }
}

/// Looks up a term, once for all entities that a query looks at. `subject` is the name of the variable that stands for such
/// an entity, if there is one. `AllocError` where there is no memory.
#[tactic(auto, using(crate::proofs::Routes::route_literal, crate::proofs::Routes::route_variable, crate::proofs::Routes::route_path))]
pub fn route_of(
    alloc: Global,
    schema: &Schema,
    variables: &[Variable],
    subject: Option<&[u8]>,
    term: &Term,
) -> Result<Route, AllocError>
    ensures value { IfOk result (λ route. route ≡ route_of schema.now variables.now (option_copied subject.entry) (way term.now)) }
    ensures there { IfOk result (λ route. All (IsReadingOf schema.now) route.readings) }
{
    match term {
        Term::Literal(literal) => Ok(Route {
            origin: Origin::Fixed(literal_value(alloc, schema, literal)?),
            readings: Items::new(alloc),
        }),
        Term::Variable(name) => Ok(Route {
            origin: origin_named(alloc, variables, subject, name.as_slice())?,
            readings: Items::new(alloc),
        }),
        Term::Path(feature, inner) => {
            let mut route = route_of(alloc, schema, variables, subject, inner.get())?;
            route
                .readings
                .push(reading_named(schema, feature.as_slice()))?;
            Ok(route)
        }
    }
}

/// A copy of the value that a term begins with. `AllocError` where there is no memory.
pub(crate) fn origin_value(
    alloc: Global,
    origin: &Origin,
    subject: Option<EntityId>,
) -> Result<Value, AllocError>
    ensures { IfOk result (λ value. value ≡ origin_value origin.now subject) }
{
    match (origin, subject) {
        (Origin::Fixed(value), _) => value.copy(alloc),
        (Origin::Subject, Some(entity)) => Ok(Value::Entity(entity)),
        (Origin::Subject, None) => Ok(Value::Null),
    }
}
