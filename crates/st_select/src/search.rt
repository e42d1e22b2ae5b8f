//! A query that is looked up once, for all entities that it looks at.
ghost use Rattle.std.specs.Prelude.{◌≡◌, [], map, IfOk, All, Some};
ghost use Rattle.st_terms.specs.Routes.{route_of as route_of_way};
ghost use Rattle.st_query.specs.Ways.{way};
ghost use Rattle.st_select.specs.Search.{test_of, order_key_of, search_of, IsRouteOf, IsTestOf, IsOrderKeyOf, IsSearchOf, null_route};

use sqlite_items::Items;
use st_lattice::Schema;
use st_query::{Condition, Key, Query, Sign, Term, Variable};
use st_terms::{Origin, Route, route_of};
use st_values::Value;
use std::alloc::{AllocError, Global};

/// What a condition asks of two meanings, or of the first one alone.
#[derive(Clone, Copy, Debug)]
pub enum Ask {
    /// That the two values compare so.
    Compare(Sign),
    /// That the first value is null.
    Null,
    /// That the first value is not null.
    NotNull,
    /// That the first value is in the second, which is a set.
    Member,
}

/// A condition that was looked up in a schema and in variables.
#[derive(Debug, Drop)]
pub struct Test {
    /// What is asked.
    pub ask: Ask,
    /// The first term.
    pub left: Route,
    /// The second term; null where the first one alone is asked about.
    pub right: Route,
}

/// A key of an order that was looked up in a schema and in variables.
#[derive(Debug, Drop)]
pub struct OrderKey {
    /// What stands for the value that is compared.
    pub route: Route,
    /// Whether larger values come before smaller ones.
    pub descending: bool,
}

/// A query that was looked up once, in a schema and in variables, for all entities that it looks at.
#[derive(Debug, Drop)]
pub struct Search {
    /// The number of the type; none where no type has the name.
    pub ty: Option<u16>,
    /// What is asked of each entity.
    pub tests: Items<Test>,
    /// The order.
    pub keys: Items<OrderKey>,
}

fn subject_route(
    alloc: Global,
    schema: &Schema,
    variables: &[Variable],
    var: &[u8],
    term: &Term,
) -> Result<Route, AllocError>
    ensures value { IfOk result (λ route. route ≡ route_of_way schema.now variables.now (Some var.now) (way term.now)) }
    ensures there { IfOk result (λ route. IsRouteOf schema.now route) }
{
    route_of(alloc, schema, variables, Some(var), term)
}

fn null_route(alloc: Global) -> Route
    ensures { result ≡ null_route }
{
    Route {
        origin: Origin::Fixed(Value::Null),
        readings: Items::new(alloc),
    }
}

fn one_term(
    alloc: Global,
    schema: &Schema,
    variables: &[Variable],
    var: &[u8],
    ask: Ask,
    term: &Term,
) -> Result<Test, AllocError>
    ensures value { IfOk result (λ test. test ≡ record { ask = ask; left = route_of_way schema.now variables.now (Some var.now) (way term.now); right = null_route }) }
    ensures there { IfOk result (λ test. IsTestOf schema.now test) }
{
    let left = subject_route(alloc, schema, variables, var, term)?;
    Ok(Test {
        ask,
        left,
        right: null_route(alloc),
    })
}

fn two_terms(
    alloc: Global,
    schema: &Schema,
    variables: &[Variable],
    var: &[u8],
    ask: Ask,
    left: &Term,
    right: &Term,
) -> Result<Test, AllocError>
    ensures value { IfOk result (λ test. test ≡ record { ask = ask; left = route_of_way schema.now variables.now (Some var.now) (way left.now); right = route_of_way schema.now variables.now (Some var.now) (way right.now) }) }
    ensures there { IfOk result (λ test. IsTestOf schema.now test) }
{
    let left = subject_route(alloc, schema, variables, var, left)?;
    let right = subject_route(alloc, schema, variables, var, right)?;
    Ok(Test { ask, left, right })
}

fn test_of(
    alloc: Global,
    schema: &Schema,
    variables: &[Variable],
    var: &[u8],
    condition: &Condition,
) -> Result<Test, AllocError>
    ensures value { IfOk result (λ test. test ≡ test_of schema.now variables.now var.now condition.now) }
    ensures there { IfOk result (λ test. IsTestOf schema.now test) }
{
    match condition {
        Condition::Compare { sign, left, right } => two_terms(
            alloc,
            schema,
            variables,
            var,
            Ask::Compare(*sign),
            left,
            right,
        ),
        Condition::Null(term) => one_term(alloc, schema, variables, var, Ask::Null, term),
        Condition::NotNull(term) => one_term(alloc, schema, variables, var, Ask::NotNull, term),
        Condition::Member { value, set } => {
            two_terms(alloc, schema, variables, var, Ask::Member, value, set)
        }
    }
}

fn order_key_of(
    alloc: Global,
    schema: &Schema,
    variables: &[Variable],
    var: &[u8],
    key: &Key,
) -> Result<OrderKey, AllocError>
    ensures value { IfOk result (λ looked. looked ≡ order_key_of schema.now variables.now var.now key.now) }
    ensures there { IfOk result (λ looked. IsOrderKeyOf schema.now looked) }
{
    let route = subject_route(alloc, schema, variables, var, &key.term)?;
    Ok(OrderKey {
        route,
        descending: key.descending,
    })
}

fn tests_of(
    alloc: Global,
    schema: &Schema,
    variables: &[Variable],
    var: &[u8],
    conditions: &[Condition],
) -> Result<Items<Test>, AllocError>
    ensures value { IfOk result (λ tests. tests ≡ map (test_of schema.now variables.now var.now) conditions.now) }
    ensures there { IfOk result (λ tests. All (IsTestOf schema.now) tests) }
{
    let mut tests = Items::new(alloc);
    for condition in conditions {
        tests.push(test_of(alloc, schema, variables, var, condition)?)?;
    }
    Ok(tests)
}

fn order_keys_of(
    alloc: Global,
    schema: &Schema,
    variables: &[Variable],
    var: &[u8],
    keys: &[Key],
) -> Result<Items<OrderKey>, AllocError>
    ensures value { IfOk result (λ looked. looked ≡ map (order_key_of schema.now variables.now var.now) keys.now) }
    ensures there { IfOk result (λ looked. All (IsOrderKeyOf schema.now) looked) }
{
    let mut looked = Items::new(alloc);
    for key in keys {
        looked.push(order_key_of(alloc, schema, variables, var, key)?)?;
    }
    Ok(looked)
}

/// Looks up a query, once for all entities that it looks at. `AllocError` where there is no memory.
pub fn prepare(
    alloc: Global,
    schema: &Schema,
    variables: &[Variable],
    query: &Query,
) -> Result<Search, AllocError>
    ensures value { IfOk result (λ search. search ≡ search_of schema.now variables.now query.now) }
    ensures there { IfOk result (λ search. IsSearchOf schema.now search) }
{
    let var = query.var.as_slice();
    let tests = tests_of(alloc, schema, variables, var, query.conditions.as_slice())?;
    let keys = order_keys_of(alloc, schema, variables, var, query.keys.as_slice())?;
    Ok(Search {
        ty: schema.type_named(query.ty.as_slice()),
        tests,
        keys,
    })
}
