//! Statements as they are written: terms, queries and transactions; what literals and variables stand for; and the
//! kinds of terms, as they are known before anything is evaluated.
#![tactic(auto)]

mod copies;
mod kind;
mod query;
mod statement;
mod term;
mod value;

pub use kind::{Expected, Sort, Typing};
pub use query::{Condition, Conditions, Key, Keys, Query, Sign};
pub use statement::{Cell, Cells, Script, Statement, Statements, Transaction};
pub use term::{Literal, Term, Terms, Variable};
pub use value::{bind, literal_value, variable_value};
