//! The tokens of a text: parentheses, names, numbers and quoted texts, with their places.
#![tactic(auto)]

mod bytes;
mod fault;
mod gap;
mod quote;
mod scan;
mod token;
mod word;

pub use fault::SexpFault;
pub use scan::next;
pub use st_text::Letters;
pub use token::{Token, TokenKind};
