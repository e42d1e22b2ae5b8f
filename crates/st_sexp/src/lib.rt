//! Text forms: names, numbers, quoted texts and lists, with their places in the text, and what a reader of forms needs.
#![tactic(auto)]

mod ahead;
mod form;
mod items;
mod laws;
mod names;
mod nest;
mod nested;
mod reader;
mod taken;
mod view;

pub use ahead::Ahead;
pub use form::{Form, Forms, Shape};
pub use items::{Misfit, behind, end_of, forms_at, identifier, name_at, next_at};
pub use laws::laws_of_texts;
pub use names::is_name;
pub use nested::{Path, Step, descent, into_behind, spliced};
pub use reader::read;
pub use st_text::Letters;
pub use st_token::SexpFault;
pub use taken::{into_list, into_name};
pub use view::{as_front, as_list, as_name, as_number, as_pair, is_word};
