//! Checks of what neither a clause nor a table of `st_tables` can say. The crate has tests and nothing else.
#![tactic(auto)]

#[cfg(test)]
mod copies;
#[cfg(test)]
mod edge;
#[cfg(test)]
mod keys;
#[cfg(test)]
mod pages;
