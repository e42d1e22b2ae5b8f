//! What terms stand for, over any base.
#![tactic(auto)]

mod read;
mod route;

pub use read::{evaluate, term_meaning, term_value, walk};
pub use route::{Origin, Reading, Route, route_of};
