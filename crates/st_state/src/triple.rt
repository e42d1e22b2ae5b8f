use st_text::Duplicate;
use st_values::{EntityId, Value};
use std::alloc::{AllocError, Global};

/// A value of an attribute of an entity.
#[derive(Debug, Drop)]
pub struct Triple {
    /// The attribute's number.
    pub attribute: u16,
    /// The entity that has the value.
    pub entity: EntityId,
    /// Never null: an attribute that is null has no triple.
    pub value: Value,
}

impl Duplicate for Triple {
    fn copy(&self, alloc: Global) -> Result<Triple, AllocError> {
        Ok(Triple {
            attribute: self.attribute,
            entity: self.entity,
            value: self.value.copy(alloc)?,
        })
    }
}
