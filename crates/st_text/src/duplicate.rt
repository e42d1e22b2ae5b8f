ghost use Rattle.std.specs.Prelude.{◌≡◌, IfOk};

use sqlite_items::Items;
use std::alloc::{AllocError, Global};

/// A type whose values can be copied, so that the copy equals what it copies.
pub trait Duplicate: Sized {
    /// A copy of the value, or `AllocError` where there is no memory for it.
    fn copy(&self, alloc: Global) -> Result<Self, AllocError>
        ensures { IfOk result (λ copied. copied ≡ self.now) };
}

impl<T: Duplicate + Drop> Duplicate for Items<T> {
    fn copy(&self, alloc: Global) -> Result<Items<T>, AllocError> {
        let mut copied = Items::new(alloc);
        for item in self.as_slice() {
            copied.push(item.copy(alloc)?)?;
        }
        Ok(copied)
    }
}

impl Duplicate for u8 {
    fn copy(&self, _alloc: Global) -> Result<u8, AllocError> {
        Ok(*self)
    }
}

impl Duplicate for u16 {
    fn copy(&self, _alloc: Global) -> Result<u16, AllocError> {
        Ok(*self)
    }
}

impl Duplicate for u32 {
    fn copy(&self, _alloc: Global) -> Result<u32, AllocError> {
        Ok(*self)
    }
}

impl Duplicate for u64 {
    fn copy(&self, _alloc: Global) -> Result<u64, AllocError> {
        Ok(*self)
    }
}

impl Duplicate for i64 {
    fn copy(&self, _alloc: Global) -> Result<i64, AllocError> {
        Ok(*self)
    }
}

impl Duplicate for bool {
    fn copy(&self, _alloc: Global) -> Result<bool, AllocError> {
        Ok(*self)
    }
}
