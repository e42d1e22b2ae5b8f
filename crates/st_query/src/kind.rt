/// What kind of value is given.
#[derive(Clone, Copy, Debug, PartialEq, Eq)]
pub enum Sort {
    /// Null, which fits every place of a single value.
    Null,
    /// A whole number.
    Int,
    /// A truth value.
    Bool,
    /// A text.
    Text,
    /// An entity of the type at this position in the schema's text, from 0.
    Entity(u16),
}

/// What a term gives: one value, or a set of values.
#[derive(Clone, Copy, Debug, PartialEq, Eq)]
pub enum Typing {
    /// A value of this sort.
    One(Sort),
    /// A set of values of this sort.
    Many(Sort),
}

/// What the place of a term wants.
#[derive(Clone, Copy, Debug, PartialEq, Eq)]
pub enum Expected {
    /// Anything at all, also a set.
    Anything,
    /// A value of any sort.
    AnyValue,
    /// A value that compares with one of this sort.
    Comparable(Sort),
    /// A value that an attribute of this sort can have.
    Storable(Sort),
    /// A set whose values compare with one of this sort.
    SetOf(Sort),
}
