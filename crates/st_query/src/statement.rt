use crate::copies::{copy_four, copy_three, copy_two};
use crate::{Query, Term, Terms};
use sqlite_items::Items;
use st_text::Duplicate;
use st_values::Letters;
use std::alloc::{AllocError, Global};

/// An attribute's short name and the value that it gets.
#[derive(Debug, Drop)]
pub struct Cell {
    /// The short name of the attribute, without the type's.
    pub name: Letters,
    /// What stands for the value.
    pub value: Term,
}

/// A list of cells, whose names differ.
pub type Cells = Items<Cell>;

/// A statement of a transaction. Types are named by their names, attributes by their qualified names, but in cells
/// and keys by their short names.
#[derive(Debug, Drop)]
pub enum Statement {
    /// Makes an entity, which a variable then stands for.
    Make {
        /// The variable.
        var: Letters,
        /// The name of the type.
        ty: Letters,
        /// The values that are given at once.
        cells: Cells,
    },
    /// Sets an attribute of an entity.
    Set {
        /// The qualified name of the attribute.
        attribute: Letters,
        /// What stands for the entity.
        target: Term,
        /// What stands for the value.
        value: Term,
    },
    /// Puts a value into an attribute that is a set.
    Add {
        /// The qualified name of the attribute.
        attribute: Letters,
        /// What stands for the entity.
        target: Term,
        /// What stands for the value.
        value: Term,
    },
    /// Takes a value out of an attribute that is a set.
    Take {
        /// The qualified name of the attribute.
        attribute: Letters,
        /// What stands for the entity.
        target: Term,
        /// What stands for the value.
        value: Term,
    },
    /// Deletes an entity.
    Delete {
        /// What stands for the entity.
        target: Term,
    },
    /// Finds the entity whose attribute has a value. A variable then stands for it, or for null where there is none.
    Find {
        /// The variable.
        var: Letters,
        /// The name of the type.
        ty: Letters,
        /// The short name of the attribute, which no two entities share a value of.
        key: Letters,
        /// What stands for the value.
        value: Term,
    },
    /// Finds the entity that has the value of the first cell and sets the other cells, or makes it where there is none.
    /// A variable then stands for it.
    Ensure {
        /// The variable.
        var: Letters,
        /// The name of the type.
        ty: Letters,
        /// The values that it has afterwards. The first one says which entity it is.
        cells: Cells,
    },
    /// Has a variable stand for a value.
    Let {
        /// The variable.
        var: Letters,
        /// What stands for the value.
        value: Term,
    },
    /// Prints values on a line.
    Print {
        /// What stands for each value.
        terms: Terms,
    },
    /// Shows the entities that a query selects.
    ForEach {
        /// The query.
        query: Query,
    },
    /// Refuses the transaction, which then leaves nothing behind.
    Abort,
}

/// A list of statements.
pub type Statements = Items<Statement>;

/// A transaction: its statements, those of inner transactions spliced in.
#[derive(Debug, Drop)]
pub struct Transaction {
    /// Its statements, first to last.
    pub statements: Statements,
}

/// A list of transactions, run one after another.
pub type Script = Items<Transaction>;

impl Duplicate for Cell {
    fn copy(&self, alloc: Global) -> Result<Cell, AllocError> {
        Ok(Cell {
            name: self.name.copy(alloc)?,
            value: self.value.copy(alloc)?,
        })
    }
}

impl Duplicate for Statement {
    fn copy(&self, alloc: Global) -> Result<Statement, AllocError> {
        match self {
            Statement::Make { var, ty, cells } => {
                let (var, ty, cells) = copy_three(alloc, var, ty, cells)?;
                Ok(Statement::Make { var, ty, cells })
            }
            Statement::Set {
                attribute,
                target,
                value,
            } => {
                let (attribute, target, value) = copy_three(alloc, attribute, target, value)?;
                Ok(Statement::Set {
                    attribute,
                    target,
                    value,
                })
            }
            Statement::Add {
                attribute,
                target,
                value,
            } => {
                let (attribute, target, value) = copy_three(alloc, attribute, target, value)?;
                Ok(Statement::Add {
                    attribute,
                    target,
                    value,
                })
            }
            Statement::Take {
                attribute,
                target,
                value,
            } => {
                let (attribute, target, value) = copy_three(alloc, attribute, target, value)?;
                Ok(Statement::Take {
                    attribute,
                    target,
                    value,
                })
            }
            Statement::Delete { target } => Ok(Statement::Delete {
                target: target.copy(alloc)?,
            }),
            Statement::Find {
                var,
                ty,
                key,
                value,
            } => {
                let (var, ty, key, value) = copy_four(alloc, var, ty, key, value)?;
                Ok(Statement::Find {
                    var,
                    ty,
                    key,
                    value,
                })
            }
            Statement::Ensure { var, ty, cells } => {
                let (var, ty, cells) = copy_three(alloc, var, ty, cells)?;
                Ok(Statement::Ensure { var, ty, cells })
            }
            Statement::Let { var, value } => {
                let (var, value) = copy_two(alloc, var, value)?;
                Ok(Statement::Let { var, value })
            }
            Statement::Print { terms } => Ok(Statement::Print {
                terms: terms.copy(alloc)?,
            }),
            Statement::ForEach { query } => Ok(Statement::ForEach {
                query: query.copy(alloc)?,
            }),
            Statement::Abort => Ok(Statement::Abort),
        }
    }
}

impl Duplicate for Transaction {
    fn copy(&self, alloc: Global) -> Result<Transaction, AllocError> {
        Ok(Transaction {
            statements: self.statements.copy(alloc)?,
        })
    }
}
