use sqlite_items::Items;
use st_values::{Kind, Letters};

/// A list of numbers of types or attributes.
pub type Numbers = Items<u16>;

/// An attribute of a type.
#[derive(Debug, Drop)]
pub struct Attribute {
    /// Its number, by which stored values name it.
    pub number: u16,
    /// The position of the type that has it, from 0.
    pub owner: u16,
    /// Its short name, without the type's.
    pub name: Letters,
    /// What its values are.
    pub kind: Kind,
    /// Whether it has a set of values.
    pub many: bool,
    /// The name of its inverse.
    pub inverse: Option<Letters>,
    /// Whether no two entities may have one value. Where it is, `index` is too.
    pub unique: bool,
    /// Whether each entity has to have a value.
    pub no_nulls: bool,
    /// Whether an index is kept.
    pub index: bool,
    /// Whether its values stand apart from the rows.
    pub column: bool,
}
