ghost use Rattle.std.specs.Prelude.{◌≡◌, IfOk};

use sqlite_items::{Boxed, Items};
use st_text::Duplicate;
use st_values::{Letters, Text, Value};
use std::alloc::{AllocError, Global};

/// A value that is written out.
#[derive(Debug, Drop)]
pub enum Literal {
    /// Nothing is known.
    Null,
    /// A whole number.
    Int(i64),
    /// A truth value.
    Bool(bool),
    /// A quoted text.
    Text(Text),
    /// An entity: the name of its type, and its number among those of that type, from 1.
    Entity(Letters, u32),
}

/// What stands for a value.
#[derive(Debug, Drop)]
pub enum Term {
    /// A value that is written out.
    Literal(Literal),
    /// A variable, by its name.
    Variable(Letters),
    /// A feature, by its qualified name, of what a term stands for.
    Path(Letters, Boxed<Term>),
}

/// A list of terms.
pub type Terms = Items<Term>;

/// A variable and what it is bound to.
#[derive(Debug, Drop)]
pub struct Variable {
    /// Its name.
    pub name: Letters,
    /// What it is bound to.
    pub value: Value,
}

impl Duplicate for Literal {
    fn copy(&self, alloc: Global) -> Result<Literal, AllocError> {
        match self {
            Literal::Null => Ok(Literal::Null),
            Literal::Int(number) => Ok(Literal::Int(*number)),
            Literal::Bool(truth) => Ok(Literal::Bool(*truth)),
            Literal::Text(text) => Ok(Literal::Text(text.copy(alloc)?)),
            Literal::Entity(ty, serial) => Ok(Literal::Entity(ty.copy(alloc)?, *serial)),
        }
    }
}

impl Duplicate for Term {
    fn copy(&self, alloc: Global) -> Result<Term, AllocError> {
        copy_term(alloc, self)
    }
}

fn copy_term(alloc: Global, term: &Term) -> Result<Term, AllocError>
    ensures { IfOk result (λ copied. copied ≡ term.now) }
{
    match term {
        Term::Literal(written) => Ok(Term::Literal(written.copy(alloc)?)),
        Term::Variable(name) => Ok(Term::Variable(name.copy(alloc)?)),
        Term::Path(feature, inner) => {
            let feature = feature.copy(alloc)?;
            let inner = copy_term(alloc, inner.get())?;
            Ok(Term::Path(feature, Boxed::new(alloc, inner)?))
        }
    }
}

impl Duplicate for Variable {
    fn copy(&self, alloc: Global) -> Result<Variable, AllocError> {
        Ok(Variable {
            name: self.name.copy(alloc)?,
            value: self.value.copy(alloc)?,
        })
    }
}
