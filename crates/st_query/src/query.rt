use crate::copies::{copy_three, copy_two};
use crate::{Term, Terms};
use sqlite_items::Items;
use st_text::Duplicate;
use st_values::Letters;
use std::alloc::{AllocError, Global};

/// How two values are compared.
#[derive(Clone, Copy, Debug, PartialEq, Eq)]
pub enum Sign {
    /// `=`: the two are the same.
    Equal,
    /// The two are not the same.
    Differs,
    /// `<`: the left one comes before the right one.
    Below,
    /// `<=`: the left one does not come after the right one.
    AtMost,
    /// `>`: the left one comes after the right one.
    Above,
    /// `>=`: the left one does not come before the right one.
    AtLeast,
}

/// What a query asks of an entity.
#[derive(Debug, Drop)]
pub enum Condition {
    /// That two values compare so.
    Compare {
        /// How they are compared.
        sign: Sign,
        /// The left value.
        left: Term,
        /// The right value.
        right: Term,
    },
    /// That a value is null.
    Null(Term),
    /// That a value is not null.
    NotNull(Term),
    /// That a set has a value.
    Member {
        /// The value.
        value: Term,
        /// The set.
        set: Term,
    },
}

/// A list of conditions, all of which are asked.
pub type Conditions = Items<Condition>;

/// What entities are ordered by.
#[derive(Debug, Drop)]
pub struct Key {
    /// What stands for the value that is compared.
    pub term: Term,
    /// Whether larger values come before smaller ones.
    pub descending: bool,
}

/// A list of keys, the first of which comes first.
pub type Keys = Items<Key>;

/// The entities of a type for which each condition is true, in an order, and what is shown of each.
#[derive(Debug, Drop)]
pub struct Query {
    /// The variable that stands for each entity in turn.
    pub var: Letters,
    /// The name of the type.
    pub ty: Letters,
    /// What is asked of each entity.
    pub conditions: Conditions,
    /// The order.
    pub keys: Keys,
    /// What is shown of each entity.
    pub shown: Terms,
}

impl Duplicate for Sign {
    fn copy(&self, _alloc: Global) -> Result<Sign, AllocError> {
        Ok(*self)
    }
}

impl Duplicate for Condition {
    fn copy(&self, alloc: Global) -> Result<Condition, AllocError> {
        match self {
            Condition::Compare { sign, left, right } => {
                let (left, right) = copy_two(alloc, left, right)?;
                Ok(Condition::Compare {
                    sign: *sign,
                    left,
                    right,
                })
            }
            Condition::Null(term) => Ok(Condition::Null(term.copy(alloc)?)),
            Condition::NotNull(term) => Ok(Condition::NotNull(term.copy(alloc)?)),
            Condition::Member { value, set } => {
                let (value, set) = copy_two(alloc, value, set)?;
                Ok(Condition::Member { value, set })
            }
        }
    }
}

impl Duplicate for Key {
    fn copy(&self, alloc: Global) -> Result<Key, AllocError> {
        Ok(Key {
            term: self.term.copy(alloc)?,
            descending: self.descending,
        })
    }
}

impl Duplicate for Query {
    fn copy(&self, alloc: Global) -> Result<Query, AllocError> {
        let (var, ty) = copy_two(alloc, &self.var, &self.ty)?;
        let (conditions, keys, shown) = copy_three(
            alloc,
            &self.conditions,
            &self.keys,
            &self.shown,
        )?;
        Ok(Query {
            var,
            ty,
            conditions,
            keys,
            shown,
        })
    }
}
