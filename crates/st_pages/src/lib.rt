//! What is asked of the pages of a database: to get one, to put one, and to draw a free one; and lists of images and of places.
#![tactic(auto)]

mod get;
mod images;
mod laws;
mod pages;
mod places;

pub use get::{get_image, get_wanted};
pub use images::Images;
pub use laws::{laws_of_attempts, laws_of_images};
pub use pages::Pages;
pub use places::{Place, Places};
