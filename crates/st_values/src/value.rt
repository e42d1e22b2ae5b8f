use sqlite_items::Items;
use st_text::{Duplicate, Letters};
use std::alloc::{AllocError, Global};

/// The text of a value: UTF-8, seen by contracts as its list of bytes.
pub type Text = Letters;

/// Lines of text, first to last, each without its line feed.
pub type Lines = Items<Letters>;

/// A list of values, in order.
pub type Values = Items<Value>;

/// A list of entities, in order.
pub type Entities = Items<EntityId>;

/// An entity: its type, and its number among the entities of that type.
#[derive(Clone, Copy, Debug, PartialEq, Eq)]
pub struct EntityId {
    /// The position of the type in the schema's text, from 0.
    pub ty: u16,
    /// The number of the entity among those of its type, from 1; 0 is no entity.
    pub serial: u32,
}

/// What an attribute of an entity can hold.
#[derive(Debug, Drop)]
pub enum Value {
    /// Nothing is known.
    Null,
    /// A whole number.
    Int(i64),
    /// A truth value.
    Bool(bool),
    /// A text.
    Text(Text),
    /// A reference to an entity.
    Entity(EntityId),
}

/// What kind of values an attribute takes, beside null.
#[derive(Clone, Copy, Debug, PartialEq, Eq)]
pub enum Kind {
    /// Whole numbers.
    Int,
    /// Truth values.
    Bool,
    /// Texts of at most this many bytes, 1 to 200.
    Text(u8),
    /// Entities of the type at this position in the schema's text, from 0.
    Entity(u16),
}

impl Duplicate for EntityId {
    fn copy(&self, _alloc: Global) -> Result<EntityId, AllocError> {
        Ok(*self)
    }
}

impl Duplicate for Value {
    fn copy(&self, alloc: Global) -> Result<Value, AllocError> {
        match self {
            Value::Null => Ok(Value::Null),
            Value::Int(number) => Ok(Value::Int(*number)),
            Value::Bool(truth) => Ok(Value::Bool(*truth)),
            Value::Text(text) => {
                let text = text.copy(alloc)?;
                Ok(Value::Text(text))
            }
            Value::Entity(entity) => Ok(Value::Entity(*entity)),
        }
    }
}
