//! The pages of a stored database: 4,096 bytes with a few fields in front, and what each kind of page may hold.
#![tactic(auto)]

mod check;
mod form;
mod head;
mod laws;
mod page;
mod raise;
mod range;
mod rows;
mod wanted;

pub use check::check_page;
pub use laws::laws_of_pages;
pub use page::Page;
pub use wanted::Wanted;
