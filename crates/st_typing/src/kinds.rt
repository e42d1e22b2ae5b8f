//! The kinds of what is given, the kinds that places want, and whether they fit.
ghost use Rattle.std.specs.Prelude.{◌≡◌};
ghost use Rattle.std.specs.Option.{option_copied};
ghost use Rattle.st_lattice.specs.Called.{called_copied};
ghost use Rattle.st_query.specs.Kinds.{value_sort, kind_sort, sort_of, compare_well, store_well, fits, entity_typing, literal_typing, attribute_typing, feature_typing, typing_sort, expected_under, expected_in};

use st_lattice::{Attribute, Called, Schema};
use st_query::{Expected, Literal, Sort, Typing};
use st_values::{Kind, Value};

/// The sort of a value.
pub(crate) fn value_sort(value: &Value) -> Sort
    ensures { result ≡ value_sort value.now }
{
    match value {
        Value::Null => Sort::Null,
        Value::Int(_) => Sort::Int,
        Value::Bool(_) => Sort::Bool,
        Value::Text(_) => Sort::Text,
        Value::Entity(entity) => Sort::Entity(entity.ty),
    }
}

/// The sort of the values that an attribute of this kind takes.
pub(crate) fn kind_sort(kind: Kind) -> Sort
    ensures { result ≡ kind_sort kind }
{
    match kind {
        Kind::Int => Sort::Int,
        Kind::Bool => Sort::Bool,
        Kind::Text(_) => Sort::Text,
        Kind::Entity(ty) => Sort::Entity(ty),
    }
}

fn sort_of(typing: Typing) -> Sort
    ensures { result ≡ sort_of typing }
{
    match typing {
        Typing::One(sort) => sort,
        Typing::Many(sort) => sort,
    }
}

/// The sort of what is there, null's where nothing is.
pub(crate) fn typing_sort(typing: Option<Typing>) -> Sort
    ensures { result ≡ typing_sort typing }
{
    match typing {
        Some(typing) => sort_of(typing),
        None => Sort::Null,
    }
}

/// Whether values of two sorts can be compared.
fn compare_well(a: Sort, b: Sort) -> bool
    ensures { result ≡ compare_well a b }
{
    match (a, b) {
        (Sort::Null, _) => true,
        (_, Sort::Null) => true,
        (Sort::Int, Sort::Int) => true,
        (Sort::Bool, Sort::Bool) => true,
        (Sort::Text, Sort::Text) => true,
        (Sort::Entity(_), Sort::Entity(_)) => true,
        _ => false,
    }
}

/// Whether a value of the sort that is given can stand in an attribute of the sort that is wanted.
fn store_well(schema: &Schema, wanted: Sort, given: Sort) -> bool
    ensures { result ≡ store_well schema.now wanted given }
{
    match (wanted, given) {
        (_, Sort::Null) => true,
        (Sort::Int, Sort::Int) => true,
        (Sort::Bool, Sort::Bool) => true,
        (Sort::Text, Sort::Text) => true,
        (Sort::Entity(ty), Sort::Entity(other)) => schema.isa(other, ty),
        _ => false,
    }
}

/// Whether what is given fits what a place wants.
pub(crate) fn fits(schema: &Schema, expected: Expected, typing: Typing) -> bool
    ensures { result ≡ fits schema.now expected typing }
{
    match (expected, typing) {
        (Expected::Anything, _) => true,
        (Expected::AnyValue, Typing::One(_)) => true,
        (Expected::Comparable(a), Typing::One(b)) => compare_well(a, b),
        (Expected::Storable(a), Typing::One(b)) => store_well(schema, a, b),
        (Expected::SetOf(a), Typing::Many(b)) => compare_well(a, b),
        _ => false,
    }
}

/// What an entity that is written out is, where its type is there.
pub(crate) fn entity_typing(ty: Option<u16>) -> Option<Typing>
    ensures { result ≡ entity_typing ty }
{
    match ty {
        Some(ty) => Some(Typing::One(Sort::Entity(ty))),
        None => None,
    }
}

/// What a literal is; none where the type of an entity isn't there.
pub(crate) fn literal_typing(schema: &Schema, literal: &Literal) -> Option<Typing>
    ensures { result ≡ literal_typing schema.now literal.now }
{
    match literal {
        Literal::Null => Some(Typing::One(Sort::Null)),
        Literal::Int(_) => Some(Typing::One(Sort::Int)),
        Literal::Bool(_) => Some(Typing::One(Sort::Bool)),
        Literal::Text(_) => Some(Typing::One(Sort::Text)),
        Literal::Entity(ty, _) => entity_typing(schema.type_named(ty.as_slice())),
    }
}

/// What an attribute gives: a value, or a set of them.
fn attribute_typing(attribute: &Attribute) -> Typing
    ensures { result ≡ attribute_typing attribute.now }
{
    if attribute.many {
        Typing::Many(kind_sort(attribute.kind))
    } else {
        Typing::One(kind_sort(attribute.kind))
    }
}

/// What a feature gives; none where its name calls nothing.
pub(crate) fn feature_typing(called: Called<&Attribute>) -> Option<Typing>
    ensures { result ≡ feature_typing (called_copied called.entry) }
{
    match called {
        Called::Own(attribute) => Some(attribute_typing(attribute)),
        Called::Inverse(attribute) => Some(Typing::Many(Sort::Entity(attribute.owner))),
        Called::Nothing => None,
    }
}

/// What a feature is to be taken of.
pub(crate) fn expected_under(called: Called<&Attribute>) -> Expected
    ensures { result ≡ expected_under (called_copied called.entry) }
{
    match called {
        Called::Own(attribute) => Expected::Storable(Sort::Entity(attribute.owner)),
        Called::Inverse(attribute) => Expected::Storable(kind_sort(attribute.kind)),
        Called::Nothing => Expected::Anything,
    }
}

/// What is wanted of a value that an attribute is to have.
pub(crate) fn expected_in(attribute: Option<&Attribute>) -> Expected
    ensures { result ≡ expected_in (option_copied attribute.entry) }
{
    match attribute {
        Some(attribute) => Expected::Storable(kind_sort(attribute.kind)),
        None => Expected::Anything,
    }
}
