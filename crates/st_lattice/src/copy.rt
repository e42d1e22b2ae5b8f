ghost use Rattle.std.specs.Prelude.{◌≡◌, IfOk};

use crate::{Attribute, Named, Schema};
use st_values::{Duplicate, Letters};
use std::alloc::{AllocError, Global};

fn copy_name(alloc: Global, name: &Option<Letters>) -> Result<Option<Letters>, AllocError>
    ensures { IfOk result (λ copied. copied ≡ name.now) }
{
    match name {
        Some(name) => Ok(Some(name.copy(alloc)?)),
        None => Ok(None),
    }
}

impl Duplicate for Attribute {
    fn copy(&self, alloc: Global) -> Result<Attribute, AllocError> {
        Ok(Attribute {
            number: self.number,
            owner: self.owner,
            name: self.name.copy(alloc)?,
            kind: self.kind,
            many: self.many,
            inverse: copy_name(alloc, &self.inverse)?,
            unique: self.unique,
            no_nulls: self.no_nulls,
            index: self.index,
            column: self.column,
        })
    }
}

impl Duplicate for Named {
    fn copy(&self, alloc: Global) -> Result<Named, AllocError> {
        Ok(Named {
            ty: self.ty,
            name: self.name.copy(alloc)?,
            feature: self.feature,
        })
    }
}

impl Duplicate for Schema {
    fn copy(&self, alloc: Global) -> Result<Schema, AllocError> {
        Schema::new(
            alloc,
            self.name.copy(alloc)?,
            self.type_names.copy(alloc)?,
            self.parents.copy(alloc)?,
            self.attributes.copy(alloc)?,
            self.next,
        )
    }
}
